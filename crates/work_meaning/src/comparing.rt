// Whether names stand for the same in two workspaces, and the numbers of what is wrong are the same.
ghost use Rattle.std.specs.Prelude.{◌≡◌, ◌↔◌, ◌<◌, IsTrue, Some, length, map};
ghost use Rattle.std.specs.List.{slice_get};
ghost use Rattle.work_meaning.specs.Bindings.{Means, SameMeaning, SameMeaningLaw, bindings, bindings_in, bound, codes, codes_in};

use import_graph::FileNo;
use proto_decls::Diag;
use proto_resolve::{Links, NameUse, Target};
use work_index::Analysis;

fn same_target(a: &Target, b: &Target) -> bool
    ensures { IsTrue result ↔ (a.now ≡ b.now) }
{
    match (a, b) {
        (Target::Declared(a), Target::Declared(b)) => a.file == b.file && a.number == b.number,
        (Target::Package(a), Target::Package(b)) => a.as_str() == b.as_str(),
        _ => false,
    }
}

fn same_use(a: &NameUse, b: &NameUse) -> bool
    ensures { IsTrue result ↔ (bound a.now ≡ bound b.now) }
{
    a.name == b.name && same_target(&a.target, &b.target)
}

// Whether the names of a file stand for the same.
fn same_uses(a: &[NameUse], b: &[NameUse]) -> bool
    ensures { IsTrue result ↔ (map bound a.now ≡ map bound b.now) }
{
    if a.len() != b.len() {
        return false;
    }
    for (i, name_use) in a.iter().enumerate() {
        if !same_use(name_use, &b[i]) {
            return false;
        }
    }
    true
}

// Whether the diagnostics of a file have the same numbers.
fn same_numbers(a: &[Diag], b: &[Diag]) -> bool
    ensures { IsTrue result ↔ (codes_in a.now ≡ codes_in b.now) }
{
    if a.len() != b.len() {
        return false;
    }
    for (i, diag) in a.iter().enumerate() {
        if diag.message.code() != b[i].message.code() {
            return false;
        }
    }
    true
}

// Whether the names of a file of the analysis stand for what these links say.
fn same_bindings_in(a: &Analysis, file: FileNo, links: &Links) -> bool
    requires { file < length a.now.paths }
    ensures { IsTrue result ↔ (slice_get (bindings a.now) file ≡ Some (bindings_in links.now)) }
{
    same_uses(a.links(file).uses.as_slice(), links.uses.as_slice())
}

// Whether what is wrong in a file of the analysis has the numbers of these diagnostics.
fn same_codes_in(a: &Analysis, file: FileNo, diagnostics: &[Diag]) -> bool
    requires { file < length a.now.paths }
    ensures { IsTrue result ↔ (slice_get (codes a.now) file ≡ Some (codes_in diagnostics.now)) }
{
    same_numbers(a.diagnostics(file), diagnostics)
}

// Whether a file of the analysis means what these links and diagnostics say. Takes no memory.
pub fn means(a: &Analysis, file: FileNo, links: &Links, diagnostics: &[Diag]) -> bool
    requires { file < length a.now.paths }
    ensures { IsTrue result ↔ Means a.now file links.now diagnostics.now }
{
    same_bindings_in(a, file, links) && same_codes_in(a, file, diagnostics)
}

/// Whether the names of two workspaces stand for the same, file by file, and what is wrong in each file has the same numbers. Takes
/// no memory.
pub fn same_meaning(a: &Analysis, b: &Analysis) -> bool
    ensures { IsTrue result ↔ SameMeaning a.now b.now }
{
    a.known();
    b.known();
    if a.file_count() != b.file_count() {
        return false;
    }
    for file in 0..a.file_count() {
        if !means(a, file, b.links(file), b.diagnostics(file)) {
            return false;
        }
    }
    true
}

/// A law. The test of two analyses says whether, file by file, the names stand for the same and what is wrong has the same numbers.
pub fn same_meaning_law()
    ensures { SameMeaningLaw }
{}
