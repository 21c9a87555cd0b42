// Another name for a declaration.
ghost use Rattle.std.specs.Prelude.{◌≡◌, ◌≢◌, ◌↔◌, ◌⊎◌, Ok, Err, IsTrue, IfOk, IfErr, false, string_bytes};
ghost use Rattle.proto_names.specs.Files as files;
ghost use Rattle.lsp_queries.specs.Answers.{sites_of};
ghost use Rattle.lsp_renames.specs.Cutting.{AreCutOut};
ghost use Rattle.lsp_renames.specs.UnknownUses as unknown;
ghost use Rattle.lsp_queries.specs.Files.{package_in, place_of};
ghost use Rattle.lsp_renames.specs.Renaming.{is_identifier, is_other, new_full_name, is_declared, is_package, is_taken, renamed_decl, renamed_known, renamed, ChangesMeaning, ChangesMeaningAt, KeepsMeaning, TakesMemory};

use crate::edited::edited_texts;
use crate::fault::RenameFault;
use crate::laws::places_cut_out;
use crate::unknown_uses::has_unknown_uses;
use import_graph::FileNo;
use lsp_queries::{Place, Symbol, decl_of, facts_in, place_of, sites_of, symbol_at};
use proto_decls::{Name, joined};
use proto_resolve::DeclRef;
use std::alloc::{AllocError, Global};
use work_index::Analysis;
use work_meaning::edits_keep_meaning;

/// The edits that give a declaration another name: what stands at each of the places becomes the new name.
#[derive(Debug, Drop)]
pub struct Edits {
    /// Where the declaration's name stands, and where it is used, by path, then offset.
    pub places: Vec<Place>,
    /// The new name.
    pub new_name: String,
}

// Whether a text is an identifier.
fn is_identifier(name: &str) -> bool
    ensures { result ≡ is_identifier name.now }
{
    proto_lex::is_identifier(name)
}

// The full name that a declaration gets with a new name.
fn new_full_name(
    alloc: Global,
    analysis: &Analysis,
    decl: DeclRef,
    new_name: &str,
) -> Result<Name, AllocError>
    ensures { IfOk result (λ full_name. full_name ≡ new_full_name analysis.now decl new_name.now) }
{
    let scope = match decl_of(analysis, decl) {
        Some(decl) => decl.full_name.scope(),
        None => "",
    };
    joined(alloc, scope, new_name)
}

fn is_other(decl: DeclRef, found: DeclRef) -> bool
    ensures { result ≡ is_other decl found }
{
    !(found.file == decl.file && found.number == decl.number)
}

// Whether another declaration has the full name.
fn is_declared(analysis: &Analysis, decl: DeclRef, full_name: &str) -> bool
    ensures { result ≡ is_declared analysis.now decl full_name.now }
{
    analysis
        .decls_named(full_name)
        .iter()
        .any(|found| is_other(decl, *found))
}

fn ends_component(rest: &[u8]) -> bool
    ensures { result ≡ files.ends_component rest.now }
{
    match rest {
        [] => true,
        [c, ..] => *c == b'.',
    }
}

// Whether the first components of a full name are these.
fn begins(full_name: &[u8], name: &[u8]) -> bool
    ensures { result ≡ files.begins full_name.now name.now }
{
    full_name.starts_with(name) && ends_component(&full_name[name.len()..])
}

// Whether the package of a file is the full name, or lies in it.
fn has_package(analysis: &Analysis, file: FileNo, full_name: &str) -> bool
    ensures { result ≡ files.is_within full_name.now (package_in analysis.now file) }
{
    let Some(facts) = facts_in(analysis, file) else {
        return false;
    };
    match &facts.package {
        Some(package) => begins(package.full_name.as_str().as_bytes(), full_name.as_bytes()),
        None => false,
    }
}

// Whether that is so of any file.
fn is_package(analysis: &Analysis, full_name: &str) -> bool
    ensures { result ≡ is_package analysis.now full_name.now }
{
    for file in 0..analysis.file_count() {
        if has_package(analysis, file, full_name) {
            return true;
        }
    }
    false
}

// Whether the full name of a declaration with a new name is that of another declaration, or of a package.
fn is_taken(
    alloc: Global,
    analysis: &Analysis,
    decl: DeclRef,
    new_name: &str,
) -> Result<bool, AllocError>
    ensures { IfOk result (λ taken. taken ≡ is_taken analysis.now decl (new_full_name analysis.now decl new_name.now)) }
{
    let full_name = new_full_name(alloc, analysis, decl, new_name)?;
    let full_name = full_name.as_str();
    Ok(is_declared(analysis, decl, full_name) || is_package(analysis, full_name))
}

// The places of a declaration's name and of all its uses.
fn all_places(alloc: Global, analysis: &Analysis, decl: DeclRef) -> Result<Vec<Place>, AllocError>
    ensures all { IfOk result (λ places. places.items ≡ sites_of analysis.now decl (place_of analysis.now decl)) }
    ensures cut { IfOk result (λ places. AreCutOut analysis.now places.items) }
{
    analysis.known();
    places_cut_out();
    sites_of(alloc, analysis, decl, place_of(analysis, decl))
}

// Whether all meanings stay if the new name stands at each of the places, which are those of a declaration of this file.
fn keeps_meaning(
    alloc: Global,
    analysis: &Analysis,
    places: &[Place],
    new_name: &str,
    file: FileNo,
) -> Result<bool, AllocError>
    requires { AreCutOut analysis.now places.now }
    ensures { IfOk result (λ keeps. IsTrue keeps ↔ KeepsMeaning analysis.now places.now new_name.now) }
{
    let edits = edited_texts(alloc, analysis, places, new_name)?;
    edits_keep_meaning(alloc, analysis, edits, file)
}

// The edits that put the new name at the places, which are those of a declaration of this file, unless a meaning changes.
fn checked(
    alloc: Global,
    analysis: &Analysis,
    places: Vec<Place>,
    new_name: &str,
    file: FileNo,
) -> Result<Edits, RenameFault>
    requires { AreCutOut analysis.now places.items }
    ensures places { IfOk result (λ edits. edits.places.items ≡ places.items) }
    ensures name { IfOk result (λ edits. string_bytes edits.new_name ≡ new_name.now) }
    ensures keeps { IfOk result (λ edits. KeepsMeaning analysis.now places.items new_name.now) }
    ensures refused { IfErr result (λ fault. fault ≢ RenameFault.Memory → fault ≡ RenameFault.MeaningChanges) }
    ensures changes { IfErr result (λ fault. fault ≡ RenameFault.MeaningChanges → KeepsMeaning analysis.now places.items new_name.now → ⊥) }
{
    if !keeps_meaning(alloc, analysis, places.as_slice(), new_name, file)? {
        return Err(RenameFault::MeaningChanges);
    }
    Ok(Edits {
        places,
        new_name: String::from_str(alloc, new_name)?,
    })
}

// The edits that give the declaration the new name.
fn rename_decl(
    alloc: Global,
    analysis: &Analysis,
    decl: DeclRef,
    new_name: &str,
) -> Result<Edits, RenameFault>
    ensures places { IfOk result (λ edits. renamed_decl analysis.now decl new_name.now ≡ Ok edits.places.items) }
    ensures name { IfOk result (λ edits. string_bytes edits.new_name ≡ new_name.now) }
    ensures refused { IfErr result (λ fault. fault ≢ RenameFault.Memory → renamed_decl analysis.now decl new_name.now ≡ Err fault) }
    ensures memory { IfErr result (λ fault. fault ≡ RenameFault.Memory → IsTrue (is_identifier new_name.now)) }
    ensures keeps { IfOk result (λ edits. KeepsMeaning analysis.now edits.places.items new_name.now) }
    ensures changes { IfErr result (λ fault. fault ≡ RenameFault.MeaningChanges → ChangesMeaning analysis.now decl new_name.now) }
{
    if !is_identifier(new_name) {
        return Err(RenameFault::BadName);
    }
    if is_taken(alloc, analysis, decl, new_name)? {
        return Err(RenameFault::NameTaken);
    }
    let places = all_places(alloc, analysis, decl)?;
    checked(alloc, analysis, places, new_name, decl.file)
}

// The same, if a text that isn't proto3 has no uses of the declaration that aren't known.
fn rename_known(
    alloc: Global,
    analysis: &Analysis,
    decl: DeclRef,
    new_name: &str,
) -> Result<Edits, RenameFault>
    ensures places { IfOk result (λ edits. renamed_known analysis.now decl new_name.now ≡ Ok edits.places.items) }
    ensures name { IfOk result (λ edits. string_bytes edits.new_name ≡ new_name.now) }
    ensures refused { IfErr result (λ fault. fault ≢ RenameFault.Memory → renamed_known analysis.now decl new_name.now ≡ Err fault) }
    ensures memory { IfErr result (λ fault. fault ≡ RenameFault.Memory → IsTrue (is_identifier new_name.now) ⊎ IsTrue (unknown.has_others analysis.now)) }
    ensures keeps { IfOk result (λ edits. KeepsMeaning analysis.now edits.places.items new_name.now) }
    ensures known { IfErr result (λ fault. fault ≡ RenameFault.MeaningChanges → unknown.has_unknown_uses analysis.now decl.file ≡ false) }
    ensures changes { IfErr result (λ fault. fault ≡ RenameFault.MeaningChanges → ChangesMeaning analysis.now decl new_name.now) }
{
    if has_unknown_uses(analysis, decl.file)? {
        return Err(RenameFault::NotRenamable);
    }
    rename_decl(alloc, analysis, decl, new_name)
}

/// The edits that give a new name to the declaration that the name at a byte offset of a file stands for: they change the
/// declaration's name and every use of it, in all files, by path, then offset. After them each name, by its number in its file, stands
/// for what it stood for, and what is wrong in each file has the same numbers.
///
/// A text that isn't proto3, where it is read for what it declares, may use what is declared in itself and in the files that it sees, and its uses
/// aren't known. What is declared there isn't renamable.
///
/// # Errors
///
/// The first that fits of `NoSymbol`, `NotRenamable`, `BadName`, `NameTaken` and `MeaningChanges`, which is found in the edited
/// texts. `Memory` comes only where memory was refused. Where one of the first three fits none is asked for, unless there is a text that isn't
/// proto3 and is read for what it declares.
pub fn rename(
    alloc: Global,
    analysis: &Analysis,
    file: FileNo,
    offset: usize,
    new_name: &str,
) -> Result<Edits, RenameFault>
    ensures places { IfOk result (λ edits. renamed analysis.now file offset new_name.now ≡ Ok edits.places.items) }
    ensures name { IfOk result (λ edits. string_bytes edits.new_name ≡ new_name.now) }
    ensures refused { IfErr result (λ fault. fault ≢ RenameFault.Memory → renamed analysis.now file offset new_name.now ≡ Err fault) }
    ensures memory { IfErr result (λ fault. fault ≡ RenameFault.Memory → TakesMemory analysis.now file offset new_name.now) }

    // With edits all meanings stay. Only where one would change, and nothing else speaks against the new name, that is the refusal.
    ensures keeps { IfOk result (λ edits. KeepsMeaning analysis.now edits.places.items new_name.now) }
    ensures changes { IfErr result (λ fault. fault ≡ RenameFault.MeaningChanges → ChangesMeaningAt analysis.now file offset new_name.now) }
{
    match symbol_at(analysis, file, offset) {
        None => Err(RenameFault::NoSymbol),
        Some(Symbol::Package) => Err(RenameFault::NotRenamable),
        Some(Symbol::Declared(decl)) => rename_known(alloc, analysis, decl, new_name),
    }
}
