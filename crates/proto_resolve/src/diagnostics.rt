// What is wrong with the names, imports and declarations of a file by what it sees.
ghost use Rattle.std.specs.Prelude.{◌≡◌, ◌==◌, ◌&&◌, ◌++◌, ◌<◌, not, ℕ, List, find, is_some, length, All, OnOk, IfOk, IfSome};
ghost use Rattle.std.specs.List.{flat_map, list_any, enumerate_from};
ghost use Rattle.std.specs.List.Sorted.{IsNonDecreasingBy};
ghost use Rattle.proto_resolve.specs.declared.site.NameSite.{NameSite};
ghost use Rattle.proto_decls.specs.Diags.{diag};
ghost use Rattle.import_graph.specs.Imports.{graph_of};
ghost use Rattle.import_graph.specs.Closures.{view_of};
ghost use Rattle.proto_names.specs.Files.{all_named, has_package, is_seen, imports_at};
ghost use Rattle.proto_resolve.specs.Views.{IsView};
ghost use Rattle.proto_resolve.specs.Names.{is_type, has_kind, IsThere};
ghost use Rattle.proto_resolve.specs.ViewDiagnostics as spec;

use crate::finding::first_of;
use crate::index::Index;
use crate::scopes::{is_type, kind_at};
use crate::site::{NameSite, Needs};
use crate::target::Target;
use crate::view::View;
use crate::views::sees_package;
use proto_decls::{Decl, Diag, FullName, ImportFact, Problem};
use proto_names::DeclRef;
use proto_tree::Span;
use sqlite_items::Items;
use std::alloc::{AllocError, Global};

fn diag(message: Problem, span: Span) -> Diag
    ensures { result ≡ diag message span }
{
    Diag {
        start: span.start,
        end: span.end,
        message,
    }
}

// ---- names

fn has_kind<I: Index>(index: &I, needs: Needs, target: &Target) -> bool
    requires { IsThere (I.files index.now) target.now }
    ensures { result ≡ has_kind (I.files index.now) (is_type needs) (Some target.now) }
{
    match target {
        Target::Package(_) => false,
        Target::Declared(decl) => is_type(needs, kind_at(index, *decl)),
    }
}

// Adds what is wrong with a name that means this.
pub fn push_name_diagnostic<I: Index>(
    index: &I,
    site: &NameSite,
    target: &Option<Target>,
    found: &mut Items<Diag>,
) -> Result<(), AllocError>
    requires { IfSome target.now (IsThere (I.files index.now)) }
    ensures { (f : ℕ) (seen : List ℕ) → OnOk result (found.new ≡ found.old ++ spec.diagnostics_of_meaning (I.files index.now) f seen site.now target.now) }
{
    match target {
        None => found.push(diag(Problem::Unresolved, site.span)),
        Some(target) => {
            if has_kind(index, site.needs, target) {
                return Ok(());
            }
            found.push(diag(Problem::WrongKind, site.span))
        }
    }
}

// ---- imports

fn push_import_diagnostics<I: Index>(
    index: &I,
    file: usize,
    imports: &[ImportFact],
    found: &mut Items<Diag>,
) -> Result<(), AllocError>
    requires file { file < length (I.files index.now) }
    requires imports { imports.now ≡ imports_at (I.files index.now) file }
    ensures { OnOk result (found.new ≡ found.old ++ flat_map (spec.import_diagnostics (I.files index.now) file) (enumerate_from 0 imports.now)) }
{
    for (number, import) in imports.iter().enumerate() {
        push_import_diagnostic(index, file, number, import, found)?;
    }
    Ok(())
}

fn push_import_diagnostic<I: Index>(
    index: &I,
    file: usize,
    number: usize,
    import: &ImportFact,
    found: &mut Items<Diag>,
) -> Result<(), AllocError>
    requires file { file < length (I.files index.now) }
    requires number { number < length (imports_at (I.files index.now) file) }
    ensures { OnOk result (found.new ≡ found.old ++ spec.import_diagnostics (I.files index.now) file (number, import.now)) }
{
    let graph = index.graph();
    match graph.import_of(file, number) {
        None => found.push(diag(Problem::ImportNotFound, import.span)),
        Some(_) => {
            if graph.closes_cycle(file, number)? {
                found.push(diag(Problem::ImportCycle, import.span))?;
            }
            Ok(())
        }
    }
}

// What is wrong with the imports of a file.
pub fn import_diagnostics<I: Index>(
    alloc: Global,
    index: &I,
    file: usize,
) -> Result<Items<Diag>, AllocError>
    requires { file < length (I.files index.now) }
    ensures { IfOk result (λ d. d ≡ flat_map (spec.import_diagnostics (I.files index.now) file) (enumerate_from 0 (imports_at (I.files index.now) file))) }
{
    let mut found = Items::new(alloc);
    let imports = index.facts(file).imports.as_slice();
    push_import_diagnostics(index, file, imports, &mut found)?;
    Ok(found)
}

// ---- declarations

// Whether another file of the view has one of the declarations, which are by file. The shorter list is walked.
fn is_elsewhere(decls: &[DeclRef], view: &View) -> bool
    requires { IsNonDecreasingBy (λ r. r.file) decls.now }
    ensures { result ≡ list_any (λ r. not (r.file == view.now.file) && is_seen view.now.files r.file) decls.now }
{
    if decls.len() <= view.files.len() {
        decls
            .iter()
            .any(|decl| decl.file != view.file && view.has(decl.file))
    } else {
        has_another(decls, view)
    }
}

fn has_another(decls: &[DeclRef], view: &View) -> bool
    requires { IsNonDecreasingBy (λ r. r.file) decls.now }
    ensures { result ≡ list_any (λ r. not (r.file == view.now.file) && is_seen view.now.files r.file) decls.now }
{
    for &file in view.files.as_slice() {
        if has_other(decls, file, view.file) {
            return true;
        }
    }
    false
}

fn has_other(decls: &[DeclRef], file: usize, own: usize) -> bool
    requires { IsNonDecreasingBy (λ r. r.file) decls.now }
    ensures { result ≡ (not (file == own) && is_some (find (λ r. r.file == file) decls.now)) }
{
    file != own && first_of(decls, file).is_some()
}

// Whether a file sees another one.
fn sees_another(view: &View) -> bool
    ensures { result ≡ list_any (λ g. not (g == view.now.file)) view.now.files }
{
    view.files.as_slice().iter().any(|file| *file != view.file)
}

// Whether another file of the view declares a name.
fn is_declared_elsewhere<I: Index>(index: &I, view: &View, name: &FullName) -> bool
    requires { IsView (I.files index.now) view.now }
    ensures { result ≡ list_any (λ r. not (r.file == view.now.file) && is_seen view.now.files r.file) (all_named (I.files index.now) name.now) }
{
    sees_another(view) && is_elsewhere(index.declared_as(name), view)
}

// Adds what is wrong with the declarations.
fn push_decl_diagnostics<I: Index>(
    index: &I,
    view: &View,
    decls: &[Decl],
    found: &mut Items<Diag>,
) -> Result<(), AllocError>
    requires { IsView (I.files index.now) view.now }
    ensures { OnOk result (found.new ≡ found.old ++ flat_map (spec.decl_diagnostics (I.files index.now) view.now.file view.now.files) decls.now) }
{
    'decls: for decl in decls {
        push_diagnostics_of(index, view, decl, found)?;
    }
    Ok(())
}

// Whether a file of the view has the package of a declaration's full name.
fn is_package<I: Index>(index: &I, view: &View, name: &FullName) -> bool
    requires { IsView (I.files index.now) view.now }
    ensures { result ≡ list_any (has_package (I.files index.now) name.now) view.now.files }
{
    sees_package(index, view, name.parts())
}

fn push_diagnostics_of<I: Index>(
    index: &I,
    view: &View,
    decl: &Decl,
    found: &mut Items<Diag>,
) -> Result<(), AllocError>
    requires { IsView (I.files index.now) view.now }
    ensures { OnOk result (found.new ≡ found.old ++ spec.decl_diagnostics (I.files index.now) view.now.file view.now.files decl.now) }
{
    let name = &decl.full_name;
    if is_declared_elsewhere(index, view, name) {
        found.push(diag(Problem::DeclaredElsewhere, decl.name_span))?;
    }
    if is_package(index, view, name) {
        found.push(diag(Problem::NameIsPackage, decl.name_span))?;
    }
    Ok(())
}

// ---- a file

// What is wrong in a file by what it sees: with its names, where the view is closed, its imports and its declarations in turn.
// What is wrong with the names is handed in.
pub fn view_diagnostics<I: Index>(
    alloc: Global,
    index: &I,
    view: &View,
    names: Items<Diag>,
) -> Result<Items<Diag>, AllocError>
    requires file { view.now.file < length (I.files index.now) }
    requires is_view { IsView (I.files index.now) view.now }
    requires files { view.now.files ≡ view_of (graph_of (I.files index.now)) view.now.file }
    ensures { (sites : List NameSite) → names ≡ flat_map (spec.name_diagnostics (I.files index.now) view.now.file view.now.files) sites → IfOk result (λ d. d ≡ spec.view_diagnostics (I.files index.now) view.now.file sites) }
{
    let mut found = if index.graph().are_complete(view.files.as_slice()) {
        names
    } else {
        Items::new(alloc)
    };
    let file = view.file;
    let facts = index.facts(file);
    push_import_diagnostics(index, file, facts.imports.as_slice(), &mut found)?;
    push_decl_diagnostics(index, view, facts.decls.as_slice(), &mut found)?;
    Ok(found)
}
