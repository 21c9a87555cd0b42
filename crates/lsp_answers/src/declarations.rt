// Declarations with their names and places, as the editor gets them.
ghost use Rattle.std.specs.Prelude.{◌≡◌, length, map, option_map, IfOk};
ghost use Rattle.proto_decls.specs.FullNames.{last_of, scope_of};
ghost use Rattle.lsp_queries.specs.Files.{place, decl_of};
ghost use Rattle.lsp_rpc.specs.Location.{document_locations, all_locations};
ghost use Rattle.lsp_rpc.specs.Symbol.{document_symbols, all_symbols};
ghost use Rattle.lsp_answers.specs.Answers as spec;
ghost use Rattle.lsp_answers.specs.Views.{found_view};

use crate::answers::Answers;
use doc_text::Range;
use lsp_queries::{Place, decl_of, symbols};
use lsp_rpc::{DocumentRanges, DocumentSymbols, Symbol, SymbolKind};
use proto_decls::{Decl, DeclKind};
use proto_resolve::DeclRef;
use std::alloc::{AllocError, Global};
use work_index::Analysis;

fn kind_of(kind: DeclKind) -> SymbolKind
    ensures { result ≡ spec.kind_of kind }
{
    match kind {
        DeclKind::Message => SymbolKind::Struct,
        DeclKind::EnumDef => SymbolKind::Enum,
        DeclKind::Service => SymbolKind::Interface,
        DeclKind::Rpc => SymbolKind::Method,
        DeclKind::Oneof => SymbolKind::Property,
        DeclKind::Field => SymbolKind::Field,
        DeclKind::Extension => SymbolKind::Field,
        DeclKind::Value => SymbolKind::EnumMember,
    }
}

// A declaration with the place of its name.
#[derive(Clone, Copy)]
pub struct FoundDecl<'a> {
    pub place: Place,
    pub decl: &'a Decl,
}

fn found_at(analysis: &Analysis, decl: DeclRef) -> Option<FoundDecl<'_>>
    ensures { option_map found_view result ≡ option_map (λ d. (place decl.file d.name_span, d)) (decl_of analysis.now decl) }
{
    let found = decl_of(analysis, decl)?;
    let place = Place {
        file: decl.file,
        start: found.name_span.start,
        end: found.name_span.end,
    };
    Some(FoundDecl { place, decl: found })
}

// Declarations with the places of their names.
fn declarations<'a>(
    alloc: Global,
    analysis: &'a Analysis,
    decls: &[DeclRef],
) -> Result<Vec<FoundDecl<'a>>, AllocError>
    ensures { IfOk result (λ found. map found_view found.items ≡ spec.declarations analysis.now decls.now) }
{
    let mut found = Vec::with_capacity(alloc, decls.len())?;
    for decl in decls {
        if let Some(here) = found_at(analysis, *decl) {
            found.push(here)?;
        }
    }
    Ok(found)
}

fn places_of(alloc: Global, found: &[FoundDecl<'_>]) -> Result<Vec<Place>, AllocError>
    ensures { IfOk result (λ places. places.items ≡ map (λ f. f.place) found.now) }
{
    let mut places = Vec::with_capacity(alloc, found.len())?;
    for here in found {
        places.push(here.place)?;
    }
    Ok(places)
}

// The name, the scope and the kind of a declaration, and a range.
fn symbol_at(decl: &Decl, range: Range) -> Symbol<'_>
    ensures name { result.name.now ≡ last_of decl.now.full_name }
    ensures container { result.container.now ≡ scope_of decl.now.full_name }
    ensures kind { result.kind ≡ spec.kind_of decl.now.kind }
    ensures range { result.range ≡ range }
{
    Symbol {
        name: decl.full_name.last(),
        container: decl.full_name.scope(),
        kind: kind_of(decl.kind),
        range,
    }
}

impl<'s> Answers<'s> {
    // The declarations of a document, whose ranges are their places.
    fn symbols_in<'a>(
        &self,
        document: DocumentRanges,
        found: &[FoundDecl<'a>],
    ) -> Result<DocumentSymbols<'a>, AllocError>
        requires { document_locations document ≡ map (λ f. spec.location_of self.now f.place) found.now }
        ensures { IfOk result (λ symbols. document_symbols symbols ≡ map (spec.symbol_of self.now) (map found_view found.now)) }
    {
        let DocumentRanges { uri, ranges } = document;
        let mut symbols = Vec::with_capacity(self.alloc, found.len())?;
        for i in 0..found.len() {
            symbols.push(symbol_at(found[i].decl, ranges[i]))?;
        }
        Ok(DocumentSymbols { uri, symbols })
    }

    // The declarations of some documents, whose ranges are their places.
    fn symbols_of<'a>(
        &self,
        documents: Vec<DocumentRanges>,
        found: &[FoundDecl<'a>],
    ) -> Result<Vec<DocumentSymbols<'a>>, AllocError>
        requires { all_locations documents.items ≡ map (λ f. spec.location_of self.now f.place) found.now }
        ensures { IfOk result (λ symbols. all_symbols symbols.items ≡ map (spec.symbol_of self.now) (map found_view found.now)) }
    {
        let mut symbols = Vec::with_capacity(self.alloc, documents.len())?;
        let mut done = 0;
        'documents: for document in documents {
            let end = done + document.ranges.len();
            symbols.push(self.symbols_in(document, &found[done..end])?)?;
            done = end;
        }
        Ok(symbols)
    }

    // The declarations whose full name contains the query.
    pub(crate) fn symbols_for(&self, query: &str) -> Result<Vec<DocumentSymbols<'s>>, AllocError>
        ensures { IfOk result (λ found. all_symbols found.items ≡ spec.symbols_for self.now query.now) }
    {
        let analysis = self.analysis();
        let decls = symbols(self.alloc, analysis, query)?;
        let found = declarations(self.alloc, analysis, decls.as_slice())?;
        let places = places_of(self.alloc, found.as_slice())?;
        let documents = self.documents_of(places.as_slice())?;
        let listed = self.symbols_of(documents, found.as_slice())?;
        Ok(listed)
    }
}
