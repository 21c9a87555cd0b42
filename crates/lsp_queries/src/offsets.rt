// What stands at an offset of a file.
ghost use Rattle.std.specs.Prelude.{◌≡◌, position};
ghost use Rattle.std.specs.List.{list_any};
ghost use Rattle.lsp_queries.specs.Offsets.{holds, declared_at, used_at, package_at, symbol_of, symbol_at, declaration_at};

use crate::files::{components_in, decls_in, uses_in};
use import_graph::FileNo;
use proto_decls::Decl;
use proto_resolve::{DeclRef, Target};
use proto_tree::Span;
use work_index::Analysis;

/// What a name in a text stands for.
#[derive(Clone, Copy, Debug, PartialEq, Eq)]
pub enum Symbol {
    /// A declaration.
    Declared(DeclRef),
    /// A package.
    Package,
}

// Whether a span begins at or before the offset, and ends at or behind it.
fn holds(span: Span, offset: usize) -> bool
    ensures { result ≡ holds offset span }
{
    span.start <= offset && offset <= span.end
}

// What a name that is used stands for.
fn symbol_of(target: &Target) -> Symbol
    ensures { result ≡ symbol_of target.now }
{
    match target {
        Target::Declared(decl) => Symbol::Declared(*decl),
        Target::Package(_) => Symbol::Package,
    }
}

// The number of the first declaration whose name holds the offset.
fn number_at(decls: &[Decl], offset: usize) -> Option<usize>
    ensures { result ≡ position (λ d. holds offset d.name_span) decls.now }
{
    decls.iter().position(|decl| holds(decl.name_span, offset))
}

fn declared_at(analysis: &Analysis, file: FileNo, offset: usize) -> Option<Symbol>
    ensures { result ≡ declared_at analysis.now file offset }
{
    let number = number_at(decls_in(analysis, file), offset)?;
    Some(Symbol::Declared(DeclRef { file, number }))
}

fn used_at(analysis: &Analysis, file: FileNo, offset: usize) -> Option<Symbol>
    ensures { result ≡ used_at analysis.now file offset }
{
    let found = uses_in(analysis, file)
        .iter()
        .find(|found| holds(found.span, offset))?;
    Some(symbol_of(&found.target))
}

// Whether one of the spans holds the offset.
fn any_holds(spans: &[Span], offset: usize) -> bool
    ensures { result ≡ list_any (holds offset) spans.now }
{
    spans.iter().any(|span| holds(*span, offset))
}

fn package_at(analysis: &Analysis, file: FileNo, offset: usize) -> Option<Symbol>
    ensures { result ≡ package_at analysis.now file offset }
{
    if any_holds(components_in(analysis, file), offset) {
        Some(Symbol::Package)
    } else {
        None
    }
}

/// What the name at a byte offset of a file stands for: the first declared name that holds the offset, else the first use that
/// does, else a component of the package. A name also holds the offset behind its last byte. `None` if no name that means something
/// is there, or no file has the number. Takes no memory.
pub fn symbol_at(analysis: &Analysis, file: FileNo, offset: usize) -> Option<Symbol>
    ensures { result ≡ symbol_at analysis.now file offset }
{
    if let Some(symbol) = declared_at(analysis, file, offset) {
        return Some(symbol);
    }
    if let Some(symbol) = used_at(analysis, file, offset) {
        return Some(symbol);
    }
    package_at(analysis, file, offset)
}

// The declaration that the name at an offset of a file stands for, if it stands for one.
pub fn declaration_at(analysis: &Analysis, file: FileNo, offset: usize) -> Option<DeclRef>
    ensures { result ≡ declaration_at analysis.now file offset }
{
    match symbol_at(analysis, file, offset) {
        Some(Symbol::Declared(decl)) => Some(decl),
        _ => None,
    }
}
