// Declarations in the order of hashes made of their full names, or of a part of these; where hashes are equal, in the order of the text
// itself. A look-up compares hashes, and texts only among equal ones. Names chosen to have equal hashes are still found by binary search.
ghost use Rattle.std.specs.Prelude.{◌≡◌, ◌≤◌, ◌==◌, ℕ, true, false, IfOk, map, filter, length, bytes_eq, nat_lt};
ghost use Rattle.std.specs.Cmp.Lexicographic.{slice_cmp};
ghost use Rattle.std.specs.List.Sorted.{IsNonDecreasing, IsPartitionPoint, IsPartitionedBy, IsSorted};
ghost use Rattle.std.specs.Ordering.{is_lt, nat_cmp};
ghost use Rattle.proto_decls.specs.FullNames.{hash_of, AreNameParts};
ghost use Rattle.proto_decls.specs.Text.{joined};
ghost use Rattle.proto_names.specs.Hashed.{AreByHash, hashed};

use crate::decl_ref::DeclRef;
use crate::naming::Naming;
use proto_decls::{NameParts, NamedFacts};
use std::alloc::{AllocError, Global};

/// A declaration with the hash of the text by which it is looked up: its full name, or a part of it.
#[derive(Clone, Copy, PartialEq, Eq)]
pub struct HashedDecl {
    /// The hash.
    pub hash: u64,
    /// The declaration.
    pub decl: DeclRef,
}

/// Declarations in the order of these hashes, and where they are equal of the texts.
#[derive(Drop)]
pub struct HashedDecls {
    /// The hash of each one.
    pub hashes: Vec<u64>,
    /// The declarations.
    pub decls: Vec<DeclRef>,
}

impl HashedDecls {
    // The same declarations, in memory of their own.
    pub(crate) fn copy(&self, alloc: Global) -> Result<HashedDecls, AllocError>
        ensures hashes { IfOk result (λ c. c.hashes.items ≡ self.now.hashes.items) }
        ensures decls { IfOk result (λ c. c.decls.items ≡ self.now.decls.items) }
    {
        let hashes = Vec::from_slice(alloc, self.hashes.as_slice())?;
        let decls = Vec::from_slice(alloc, self.decls.as_slice())?;
        Ok(HashedDecls { hashes, decls })
    }
}

// The declarations with their hashes.
pub fn hashed_decls<N: Naming>(
    alloc: Global,
    files: &[NamedFacts],
    decls: &[DeclRef],
) -> Result<Vec<HashedDecl>, AllocError>
    ensures { IfOk result (λ v. v.items ≡ map (hashed (N.part files.now)) decls.now) }
{
    let mut found = Vec::with_capacity(alloc, decls.len())?;
    for decl in decls {
        found.push(HashedDecl {
            hash: N::hash(files, *decl),
            decl: *decl,
        })?;
    }
    Ok(found)
}

// The hashes and the declarations, as two lists.
pub fn apart(alloc: Global, hashed: &[HashedDecl]) -> Result<HashedDecls, AllocError>
    ensures { IfOk result (λ n. (n.hashes.items ≡ map (λ k. k.hash) hashed.now) × (n.decls.items ≡ map (λ k. k.decl) hashed.now)) }
{
    let mut hashes = Vec::with_capacity(alloc, hashed.len())?;
    let mut decls = Vec::with_capacity(alloc, hashed.len())?;
    for one in hashed {
        hashes.push(one.hash)?;
        decls.push(one.decl)?;
    }
    Ok(HashedDecls { hashes, decls })
}

// How many hashes at the front are this one, which no other comes between. Mostly there is at most one.
fn count_of(hashes: &[u64], hash: u64) -> usize
    requires { IsPartitionedBy (λ k. k == hash) hashes.now }
    ensures within { result ≤ length hashes.now }
    ensures point { IsPartitionPoint (λ k. (k == hash) ≡ true) (λ k. (k == hash) ≡ false) hashes.now result }
{
    if hashes.is_empty() || hashes[0] != hash {
        return 0;
    }
    if hashes.len() == 1 || hashes[1] != hash {
        return 1;
    }
    hashes.partition_point(|other| *other == hash)
}

// The first place from which on no hash is lower.
fn start_of(hashes: &[u64], hash: u64) -> usize
    requires { IsNonDecreasing hashes.now }
    ensures within { result ≤ length hashes.now }
    ensures point { IsPartitionPoint (λ k. nat_lt k hash ≡ true) (λ k. nat_lt k hash ≡ false) hashes.now result }
{
    // A bucket's hashes are spread evenly, so the place is near this one, and mostly a little behind the fourth before it. Only time
    // depends on that: if it isn't there, the list is searched by halving.
    let near = ((hash >> 32).wrapping_mul(hashes.len() as u64) >> 32) as usize;
    let mut place = near.saturating_sub(4).min(hashes.len());
    if place > 0 && hashes[place - 1] >= hash {
        return hashes.partition_point(|other| *other < hash);
    }
    let end = hashes.len().min(place.saturating_add(8));
    while place < end {
        if hashes[place] >= hash {
            return place;
        }
        place += 1;
    }
    hashes.partition_point(|other| *other < hash)
}

// Of declarations in the order of their hashes, those of one hash.
fn of_hash<'a>(hashed: &'a HashedDecls, hash: u64) -> &'a [DeclRef]
    requires ascending { IsNonDecreasing hashed.now.hashes.items }
    requires len { length hashed.now.hashes.items ≡ length hashed.now.decls.items }
    ensures { (hash_at : DeclRef → ℕ) → hashed.now.hashes.items ≡ map hash_at hashed.now.decls.items → result.now ≡ filter (λ r. hash_at r == hash) hashed.now.decls.items }
{
    let hashes = hashed.hashes.as_slice();
    let decls = hashed.decls.as_slice();
    let start = start_of(hashes, hash);
    let count = count_of(&hashes[start..], hash);
    let rest = &decls[start..];
    &rest[..count]
}

fn is_before_text<N: Naming>(files: &[NamedFacts], decl: DeclRef, text: NameParts<'_>) -> bool
    ensures { result ≡ is_lt (slice_cmp nat_cmp (N.part files.now decl) (joined text.entry.scope.now text.entry.last.now)) }
{
    N::part(files, decl).compare(text).is_lt()
}

fn has_text<N: Naming>(files: &[NamedFacts], decl: DeclRef, text: NameParts<'_>) -> bool
    requires { AreNameParts text.scope.now text.last.now }
    ensures { result ≡ bytes_eq (N.part files.now decl) (joined text.entry.scope.now text.entry.last.now) }
{
    N::part(files, decl).equals(text)
}

// Of declarations in the order of their texts, those of one text. Mostly all have it.
fn of_text<'a, N: Naming>(
    files: &[NamedFacts],
    decls: &'a [DeclRef],
    text: NameParts<'_>,
) -> &'a [DeclRef]
    requires sorted { IsSorted (λ r s. slice_cmp nat_cmp (N.part files.now r) (N.part files.now s)) decls.now }
    requires apart { AreNameParts text.scope.now text.last.now }
    ensures { result.now ≡ filter (λ r. bytes_eq (N.part files.now r) (joined text.entry.scope.now text.entry.last.now)) decls.now }
{
    if decls.is_empty() {
        return decls;
    }
    let last = decls.len() - 1;
    if has_text::<N>(files, decls[0], text)
        && (last == 0 || has_text::<N>(files, decls[last], text))
    {
        return decls;
    }
    let start = decls.partition_point(|decl| is_before_text::<N>(files, *decl, text));
    let rest = &decls[start..];
    let count = rest.partition_point(|decl| has_text::<N>(files, *decl, text));
    &rest[..count]
}

/// Those whose full name, or whose part of it, is a text, which is given by its hash and split at its last dot; in their order.
pub fn with_text<'a, N: Naming>(
    files: &[NamedFacts],
    hashed: &'a HashedDecls,
    hash: u64,
    text: NameParts<'_>,
) -> &'a [DeclRef]
    requires by_hash { AreByHash (N.part files.now) hashed.now.hashes.items hashed.now.decls.items }
    requires apart { AreNameParts text.scope.now text.last.now }
    requires hash { hash ≡ hash_of (joined text.scope.now text.last.now) }
    ensures { result.now ≡ filter (λ r. bytes_eq (N.part files.now r) (joined text.entry.scope.now text.entry.last.now)) hashed.now.decls.items }
{
    let tied = of_hash(hashed, hash);
    of_text::<N>(files, tied, text)
}
