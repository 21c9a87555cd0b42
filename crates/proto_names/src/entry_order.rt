// The orders in which entries of declarations stand.
ghost use Rattle.std.specs.Prelude.{◌≡◌, OnOk};
ghost use Rattle.std.specs.Cmp.{IsTotalOrder};
ghost use Rattle.std.specs.Cmp.Lexicographic.{slice_cmp};
ghost use Rattle.std.specs.List.Sorted.{IsPermutation, IsSorted};
ghost use Rattle.std.specs.Ordering.{nat_cmp, ordering_then};
ghost use Rattle.proto_names.specs.Files.{name_at};
ghost use Rattle.proto_names.specs.Tables.{by_place};

use crate::decl_ref::DeclRef;
use crate::hashed::HashedDecl;
use crate::naming::parts_at;
use proto_decls::{NameParts, NamedFacts};
use std::alloc::AllocError;
use std::cmp::Ordering;

/// An order of entries.
pub trait EntryOrder {
    ghost use Rattle.std.specs.Prelude.{◌≡◌, List};
    ghost use Rattle.std.specs.declared.cmp.Ordering.{Ordering};
    ghost use Rattle.proto_decls.specs.declared.named_facts.NamedFacts.{NamedFacts};
    ghost use Rattle.proto_names.specs.declared.hashed.HashedDecl.{HashedDecl};

    ghost order: { List NamedFacts → HashedDecl → HashedDecl → Ordering };

    /// How two entries compare.
    fn compare(files: &[NamedFacts], a: HashedDecl, b: HashedDecl) -> Ordering
        ensures { result ≡ order files.now a b };
}

/// By hash, then by full name; declarations of one name by file and number.
pub struct ByName;

impl EntryOrder for ByName {
    ghost use Rattle.proto_names.specs.Tables.{by_name};

    ghost order = { λ files. by_name (name_at files) };

    fn compare(files: &[NamedFacts], a: HashedDecl, b: HashedDecl) -> Ordering {
        match a.hash.cmp(&b.hash) {
            Ordering::Equal => compare_names(files, a.decl, b.decl),
            other => other,
        }
    }
}

/// By hash and last component, then by scope.
pub struct ByScope;

impl EntryOrder for ByScope {
    ghost use Rattle.proto_names.specs.Files.{name_at};
    ghost use Rattle.proto_names.specs.Tables.{by_scope};

    ghost order = { λ files. by_scope (name_at files) };

    fn compare(files: &[NamedFacts], a: HashedDecl, b: HashedDecl) -> Ordering {
        match a.hash.cmp(&b.hash) {
            Ordering::Equal => { compare_parts(parts_at(files, a.decl), parts_at(files, b.decl)) }
            other => other,
        }
    }
}

// By file, then by number.
fn compare_places(a: DeclRef, b: DeclRef) -> Ordering
    ensures { result ≡ by_place a b }
{
    match a.file.cmp(&b.file) {
        Ordering::Equal => a.number.cmp(&b.number),
        other => other,
    }
}

// By full name, then by file and number.
fn compare_names(files: &[NamedFacts], a: DeclRef, b: DeclRef) -> Ordering
    ensures { result ≡ ordering_then (slice_cmp nat_cmp (name_at files.now a) (name_at files.now b)) (by_place a b) }
{
    match parts_at(files, a).compare(parts_at(files, b)) {
        Ordering::Equal => compare_places(a, b),
        other => other,
    }
}

// By last component, then by scope.
fn compare_parts(a: NameParts<'_>, b: NameParts<'_>) -> Ordering
    ensures { result ≡ ordering_then (slice_cmp nat_cmp a.entry.last.now b.entry.last.now) (slice_cmp nat_cmp a.entry.scope.now b.entry.scope.now) }
{
    match a.last.cmp(b.last) {
        Ordering::Equal => a.scope.cmp(b.scope),
        other => other,
    }
}

/// Puts entries into an order. The first sort brings equal hashes together; the second compares neighbours, and moves only entries of one hash.
pub fn sort_entries<O: EntryOrder>(
    files: &[NamedFacts],
    entries: &mut Vec<HashedDecl>,
) -> Result<(), AllocError>
    requires { IsTotalOrder (O.order files.now) }
    ensures sorted { OnOk result (IsSorted (O.order files.now) entries.new.items) }
    ensures same { IsPermutation entries.old.items entries.new.items }
{
    entries.sort_by_key(|one| one.hash)?;
    entries.sort_by(|a, b| O::compare(files, *a, *b))
}
