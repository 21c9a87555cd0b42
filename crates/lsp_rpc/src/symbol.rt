// Declarations, and how they are written.
ghost use Rattle.std.specs.Prelude.{◌≡◌, OnOk, map};
ghost use Rattle.lsp_rpc.specs.Writing.{Adds, Appends, values_tokens};
ghost use Rattle.lsp_rpc.specs.Symbol.{kind_number, symbol_value, symbol_view, symbols_value, document_symbols, all_symbols, container_tokens};

use crate::location::write_location;
use doc_text::Range;
use json::Writer;
use std::alloc::AllocError;

/// What a declaration is, in the protocol's words (Language Server Protocol 3.17, "SymbolKind").
#[derive(Clone, Copy, Debug, PartialEq, Eq)]
pub enum SymbolKind {
    /// 6: an rpc.
    Method,
    /// 7: a oneof.
    Property,
    /// 8: a field or an extension.
    Field,
    /// 10: an enum.
    Enum,
    /// 11: a service.
    Interface,
    /// 22: a value of an enum.
    EnumMember,
    /// 23: a message.
    Struct,
}

impl SymbolKind {
    fn number(self) -> u64
        ensures { result ≡ kind_number self }
    {
        match self {
            SymbolKind::Method => 6,
            SymbolKind::Property => 7,
            SymbolKind::Field => 8,
            SymbolKind::Enum => 10,
            SymbolKind::Interface => 11,
            SymbolKind::EnumMember => 22,
            SymbolKind::Struct => 23,
        }
    }
}

/// A declaration of a document.
#[derive(Clone, Copy, Debug)]
pub struct Symbol<'m> {
    /// The last component of its full name.
    pub name: &'m str,
    /// What stands before that and its dot: the scope that holds the declaration. It may be empty.
    pub container: &'m str,
    /// What it is.
    pub kind: SymbolKind,
    /// Where its name stands, in lines and units of the position encoding from 0.
    pub range: Range,
}

/// Declarations of a document, in order.
#[derive(Debug, Drop)]
pub struct DocumentSymbols<'m> {
    /// The document's URI.
    pub uri: String,
    /// The declarations.
    pub symbols: Vec<Symbol<'m>>,
}

// Writes the scope of a declaration, unless it is empty, as a member of an object.
fn write_container(out: &mut Writer, container: &str) -> Result<(), AllocError>
    ensures { OnOk result (Appends out.old (container_tokens container.now) out.new) }
{
    if container.is_empty() {
        return Ok(());
    }
    out.key("containerName")?;
    out.string(container)?;
    Ok(())
}

// Writes a declaration of the document with a URI.
fn write_symbol(out: &mut Writer, uri: &str, symbol: Symbol<'_>) -> Result<(), AllocError>
    ensures { OnOk result (Adds out.old (symbol_value (symbol_view uri.now symbol.entry)) out.new) }
{
    out.begin_object()?;
    write_container(out, symbol.container)?;
    out.key("kind")?;
    out.u64(symbol.kind.number())?;
    out.key("location")?;
    write_location(out, uri, symbol.range)?;
    out.key("name")?;
    out.string(symbol.name)?;
    out.end_object()?;
    Ok(())
}

// Writes some declarations of the document with a URI, in order, as items of an array.
fn write_items(out: &mut Writer, uri: &str, symbols: &[Symbol<'_>]) -> Result<(), AllocError>
    ensures { OnOk result (Appends out.old (values_tokens (map symbol_value (map (symbol_view uri.now) symbols.now))) out.new) }
{
    'items: for symbol in symbols {
        write_symbol(out, uri, *symbol)?;
    }
    Ok(())
}

// Writes the declarations of a document, in order, as items of an array.
fn write_document_symbols(
    out: &mut Writer,
    document: &DocumentSymbols<'_>,
) -> Result<(), AllocError>
    ensures { OnOk result (Appends out.old (values_tokens (map symbol_value (document_symbols document.now))) out.new) }
{
    write_items(out, document.uri.as_str(), document.symbols.as_slice())
}

// Writes the declarations of some documents, in order, as an array.
pub fn write_symbols(out: &mut Writer, documents: &[DocumentSymbols<'_>]) -> Result<(), AllocError>
    ensures { OnOk result (Adds out.old (symbols_value (all_symbols documents.now)) out.new) }
{
    out.begin_array()?;
    'items: for document in documents {
        write_document_symbols(out, document)?;
    }
    out.end_array()?;
    Ok(())
}
