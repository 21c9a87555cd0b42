// Files with names that no other file has: nothing is wrong with their declarations, whatever they see.
ghost use Rattle.std.specs.Prelude.{◌≡◌, false, List, ℕ, [], All, IsTrue};
ghost use Rattle.std.specs.List.{flat_map, list_any};
ghost use Rattle.std.specs.List.Sorted.{IsNonDecreasingBy};
ghost use Rattle.proto_names.specs.Files.{has_package};
ghost use Rattle.proto_resolve.specs.ViewDiagnostics.{decl_diagnostics, is_declared_elsewhere};

use crate::index::Index;
use proto_decls::{Decl, FullName};
use proto_names::DeclRef;

// Whether a file has all of these declarations, which are by file.
fn are_of(decls: &[DeclRef], file: usize) -> bool
    requires { IsNonDecreasingBy (λ r. r.file) decls.now }
    ensures { IsTrue result → All (λ r. r.file ≡ file) decls.now }
{
    if decls.is_empty() {
        return true;
    }
    decls[0].file == file && decls[decls.len() - 1].file == file
}

// Whether no other file declares a full name, and no file has a package of it.
fn is_alone<I: Index>(index: &I, file: usize, name: &FullName) -> bool
    ensures declared { IsTrue result → (view : List ℕ) → is_declared_elsewhere (I.files index.now) file view name.now ≡ false }
    ensures packaged { IsTrue result → (view : List ℕ) → list_any (has_package (I.files index.now) name.now) view ≡ false }
{
    are_of(index.declared_as(name), file) && index.packaged(name.parts()).is_empty()
}

// Whether that is so of the full name of each declaration.
pub fn are_alone<I: Index>(index: &I, file: usize, decls: &[Decl]) -> bool
    ensures { IsTrue result → (view : List ℕ) → flat_map (decl_diagnostics (I.files index.now) file view) decls.now ≡ [] }
{
    for decl in decls {
        if !is_alone(index, file, &decl.full_name) {
            return false;
        }
    }
    true
}
