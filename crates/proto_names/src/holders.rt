// Messages, enums and services by the last components of their full names: what may settle the scope of a name.
ghost use Rattle.std.specs.Prelude.{◌≡◌, ◌<◌, ◌≤◌, ℕ, All, IfOk, IfSome, None, take, filter, length, false, true, nat_eq};
ghost use Rattle.std.specs.List.{starts_with};
ghost use Rattle.std.specs.List.Sorted.{IsNonDecreasing};
ghost use Rattle.proto_names.specs.Files.{kind_at, name_at};
ghost use Rattle.proto_names.specs.Holders.{IsLast, is_holder};
ghost use Rattle.proto_names.specs.Tables.{stands_in, IsByScope};
ghost use Rattle.proto_decls.specs.FullNames.{scope_of};

use crate::decl_ref::DeclRef;
use crate::naming::parts_at;
use proto_decls::{DeclKind, NamedFacts};
use std::alloc::{AllocError, Global};

/// Whether a declaration of this kind may hold the rest of a name: a message, an enum or a service.
pub fn is_holder(kind: DeclKind) -> bool
    ensures { result ≡ is_holder kind }
{
    matches!(
        kind,
        DeclKind::Message | DeclKind::EnumDef | DeclKind::Service
    )
}

fn kind_of(files: &[NamedFacts], decl: DeclRef) -> DeclKind
    ensures { result ≡ kind_at files.now decl }
{
    match files.get(decl.file) {
        None => DeclKind::Field,
        Some(file) => match file.facts.get().decls.as_slice().get(decl.number) {
            None => DeclKind::Field,
            Some(decl) => decl.kind,
        },
    }
}

// Of some declarations those that may settle a scope.
pub fn holders_of(
    alloc: Global,
    files: &[NamedFacts],
    decls: &[DeclRef],
) -> Result<Vec<DeclRef>, AllocError>
    ensures { IfOk result (λ hs. hs.items ≡ filter (λ r. is_holder (kind_at files.now r)) decls.now) }
{
    let mut found = Vec::new(alloc);
    for decl in decls {
        if is_holder(kind_of(files, *decl)) {
            found.push(*decl)?;
        }
    }
    Ok(found)
}

// What stands before the last component of a declaration's full name.
fn scope_at(files: &[NamedFacts], decl: DeclRef) -> &[u8]
    ensures { result.now ≡ scope_of (name_at files.now decl) }
{
    parts_at(files, decl).scope
}

// How many bytes at the front of two texts are the same: a text doesn't begin with a longer front part of the other one.
pub fn common_len(a: &[u8], b: &[u8]) -> usize
    ensures within { result ≤ length a.now }
    ensures common { (l : ℕ) → result < l → l ≤ length b.now → starts_with nat_eq a.now (take l b.now) ≡ false }
{
    for (at, byte) in a.iter().enumerate() {
        if at >= b.len() || b[at] != *byte {
            return at;
        }
    }
    a.len()
}

// `None` if one of the declarations stands in this scope. If none does, a length from which on no front part of the scope has one.
fn bound_of(files: &[NamedFacts], decls: &[DeclRef], scope: &[u8]) -> Option<usize>
    requires { IsByScope (name_at files.now) decls.now }
    ensures there { result ≡ None → stands_in (name_at files.now) decls.now scope.now ≡ true }
    ensures bound { IfSome result (λ b. (stands_in (name_at files.now) decls.now scope.now ≡ false) × ((l : ℕ) → b ≤ l → l ≤ length scope.now → stands_in (name_at files.now) decls.now (take l scope.now) ≡ false)) }
{
    match decls.binary_search_by(|decl| scope_at(files, *decl).cmp(scope)) {
        Ok(_) => None,
        Err(place) => {
            if place == 0 {
                return Some(0);
            }
            let before = scope_at(files, decls[place - 1]);
            Some(common_len(before, scope) + 1)
        }
    }
}

// The last of the lengths whose front part of a scope has one of the declarations, by its place.
pub fn last_place(
    files: &[NamedFacts],
    decls: &[DeclRef],
    scope: &[u8],
    lengths: &[usize],
) -> Option<usize>
    requires sorted { IsByScope (name_at files.now) decls.now }
    requires ascending { IsNonDecreasing lengths.now }
    requires within { All (λ l. l ≤ length scope.now) lengths.now }
    ensures { IsLast (λ l. stands_in (name_at files.now) decls.now (take l scope.now)) lengths.now result }
{
    let mut left = lengths.len();
    while left > 0 {
        left -= 1;
        match bound_of(files, decls, &scope[..lengths[left]]) {
            None => return Some(left),
            Some(bound) => left = lengths[..left].partition_point(|length| *length < bound),
        }
    }
    None
}
