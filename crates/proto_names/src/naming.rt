// By which part of its full name a declaration is looked up.
ghost use Rattle.std.specs.Prelude.{◌≡◌, [], MatchOption};
ghost use Rattle.proto_decls.specs.FullNames.{last_of, scope_of};
ghost use Rattle.proto_names.specs.Files.{name_at};

use crate::decl_ref::DeclRef;
use proto_decls::{FullName, NameParts, NamedFacts, hash_of};

/// The part of a full name by which declarations are looked up.
pub trait Naming {
    ghost use Rattle.std.specs.Prelude.{◌≡◌, ℕ, List};
    ghost use Rattle.proto_decls.specs.FullNames.{hash_of, last_of, scope_of};
    ghost use Rattle.proto_decls.specs.declared.named_facts.NamedFacts.{NamedFacts};
    ghost use Rattle.proto_names.specs.declared.decl_ref.DeclRef.{DeclRef};

    ghost part: { List NamedFacts → DeclRef → List ℕ };

    /// That part of a declaration's full name, split at its last dot.
    fn part(files: &[NamedFacts], decl: DeclRef) -> NameParts<'_>
        ensures scope { result.scope.now ≡ scope_of (part files.now decl) }
        ensures last { result.last.now ≡ last_of (part files.now decl) };

    /// The hash of that part.
    fn hash(files: &[NamedFacts], decl: DeclRef) -> u64
        ensures { result ≡ hash_of (part files.now decl) };
}

/// The whole of it.
pub struct FullNames;

impl Naming for FullNames {
    ghost part = { λ files r. name_at files r };

    fn part(files: &[NamedFacts], decl: DeclRef) -> NameParts<'_> {
        parts_at(files, decl)
    }

    fn hash(files: &[NamedFacts], decl: DeclRef) -> u64 {
        match name_of(files, decl) {
            Some(name) => name.hash(),
            None => hash_of(&[]),
        }
    }
}

/// Its last component.
pub struct LastComponents;

impl Naming for LastComponents {
    ghost use Rattle.proto_decls.specs.FullNames.{last_of};
    ghost use Rattle.proto_names.specs.Files.{name_at};

    ghost part = { λ files r. last_of (name_at files r) };

    fn part(files: &[NamedFacts], decl: DeclRef) -> NameParts<'_> {
        last_at(files, decl)
    }

    fn hash(files: &[NamedFacts], decl: DeclRef) -> u64 {
        last_at(files, decl).hash()
    }
}

// A declaration's full name, if there is the declaration.
fn name_of(files: &[NamedFacts], decl: DeclRef) -> Option<&FullName>
    ensures { MatchOption result (name_at files.now decl ≡ []) (λ name. name.now ≡ name_at files.now decl) }
{
    let file = files.get(decl.file)?;
    let decl = file.facts.get().decls.as_slice().get(decl.number)?;
    Some(&decl.full_name)
}

// A declaration's full name, split at its last dot.
pub fn parts_at(files: &[NamedFacts], decl: DeclRef) -> NameParts<'_>
    ensures scope { result.scope.now ≡ scope_of (name_at files.now decl) }
    ensures last { result.last.now ≡ last_of (name_at files.now decl) }
{
    match name_of(files, decl) {
        Some(name) => name.parts(),
        None => NameParts {
            scope: &[],
            last: &[],
        },
    }
}

// The last component of a declaration's full name, by itself.
fn last_at(files: &[NamedFacts], decl: DeclRef) -> NameParts<'_>
    ensures scope { result.scope.now ≡ scope_of (last_of (name_at files.now decl)) }
    ensures last { result.last.now ≡ last_of (last_of (name_at files.now decl)) }
{
    NameParts {
        scope: &[],
        last: parts_at(files, decl).last,
    }
}
