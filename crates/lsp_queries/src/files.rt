// What an analysis knows of a file, if there is such a file.
ghost use Rattle.std.specs.Prelude.{◌≡◌, option_map};
ghost use Rattle.lsp_queries.specs.Files.{components_in, components_of, decl_of, decls_in, facts_in, links_in, place_of, uses_in};

use crate::place::Place;
use import_graph::FileNo;
use proto_decls::{Decl, FileFacts, PackageFact};
use proto_resolve::{DeclRef, Links, NameUse};
use proto_tree::Span;
use work_index::Analysis;

/// What the text of a file says by itself; `None` if no file has the number. Takes no memory.
pub fn facts_in(analysis: &Analysis, file: FileNo) -> Option<&FileFacts>
    ensures { option_map (λ facts. facts.now) result ≡ facts_in analysis.now file }
{
    analysis.known();
    if file < analysis.file_count() {
        Some(analysis.facts(file))
    } else {
        None
    }
}

// What the names of a file mean.
fn links_in(analysis: &Analysis, file: FileNo) -> Option<&Links>
    ensures { option_map (λ links. links.now) result ≡ links_in analysis.now file }
{
    analysis.known();
    if file < analysis.file_count() {
        Some(analysis.links(file))
    } else {
        None
    }
}

// The declarations of a file, by offset.
pub fn decls_in(analysis: &Analysis, file: FileNo) -> &[Decl]
    ensures { result.now ≡ decls_in analysis.now file }
{
    match facts_in(analysis, file) {
        Some(facts) => facts.decls.as_slice(),
        None => &[],
    }
}

// The components of a package.
fn components_of(stated: &Option<PackageFact>) -> &[Span]
    ensures { result.now ≡ components_of stated.now }
{
    match stated {
        Some(package) => package.components.as_slice(),
        None => &[],
    }
}

// The components of the package that a file states first.
pub fn components_in(analysis: &Analysis, file: FileNo) -> &[Span]
    ensures { result.now ≡ components_in analysis.now file }
{
    match facts_in(analysis, file) {
        Some(facts) => components_of(&facts.package),
        None => &[],
    }
}

// The uses of names in a file, by offset.
pub fn uses_in(analysis: &Analysis, file: FileNo) -> &[NameUse]
    ensures { result.now ≡ uses_in analysis.now file }
{
    match links_in(analysis, file) {
        Some(links) => links.uses.as_slice(),
        None => &[],
    }
}

/// A declaration; `None` if there is no such file or number. Takes no memory.
pub fn decl_of(analysis: &Analysis, decl: DeclRef) -> Option<&Decl>
    ensures { option_map (λ d. d.now) result ≡ decl_of analysis.now decl }
{
    decls_in(analysis, decl.file).get(decl.number)
}

/// Where the name of a declaration stands, in bytes; `None` if there is no such declaration. Takes no memory.
pub fn place_of(analysis: &Analysis, decl: DeclRef) -> Option<Place>
    ensures { result ≡ place_of analysis.now decl }
{
    let span = decl_of(analysis, decl)?.name_span;
    Some(Place {
        file: decl.file,
        start: span.start,
        end: span.end,
    })
}
