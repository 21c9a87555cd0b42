// The params of requests about names.
ghost use Rattle.std.specs.Prelude.{◌≡◌, option_map};
ghost use Rattle.serde_json.specs.View.{view};
ghost use Rattle.lsp_rpc.specs.RequestParams.{query_of, place_of, flag_in, includes_in, reference_of, rename_of, place_view, reference_view, rename_view};

use crate::body::text_member;
use crate::params::{document_uri, position_in};
use doc_text::Position;
use serde_json::Value;

/// The text that `workspace/symbol` asks for, if it is there and a string.
pub fn symbol_query(params: &Value) -> Option<&str>
    ensures { option_map (λ s. s.now) result ≡ query_of (view params.now) }
{
    text_member(params, "query")
}

/// A place in a document (Language Server Protocol 3.17, "TextDocumentPositionParams").
#[derive(Clone, Copy, Debug)]
pub struct DocumentPosition<'v> {
    /// The document's URI, as the editor wrote it.
    pub uri: &'v str,
    /// The position, in lines and units of the position encoding from 0.
    pub position: Position,
}

impl DocumentPosition<'_> {
    /// The place that params name, or `None` where one of them is missing or ill-typed.
    pub fn from_value(params: &Value) -> Option<DocumentPosition<'_>>
        ensures { option_map place_view result ≡ place_of (view params.now) }
    {
        let uri = document_uri(params)?;
        let position = position_in(params.get("position")?)?;
        Some(DocumentPosition { uri, position })
    }
}

/// The params of `textDocument/references` (Language Server Protocol 3.17, "ReferenceParams").
#[derive(Clone, Copy, Debug)]
pub struct ReferenceParams<'v> {
    /// Where the name stands.
    pub place: DocumentPosition<'v>,
    /// Whether the declaration is asked for too: not if `context` or its member is missing.
    pub include_declaration: bool,
}

impl ReferenceParams<'_> {
    /// The params, or `None` where one of them is ill-typed or, but for `context`, missing.
    pub fn from_value(params: &Value) -> Option<ReferenceParams<'_>>
        ensures { option_map reference_view result ≡ reference_of (view params.now) }
    {
        let place = DocumentPosition::from_value(params)?;
        let include_declaration = includes_in(params.get("context"))?;
        Some(ReferenceParams {
            place,
            include_declaration,
        })
    }
}

/// The params of `textDocument/rename` (Language Server Protocol 3.17, "RenameParams").
#[derive(Clone, Copy, Debug)]
pub struct RenameParams<'v> {
    /// Where the name stands.
    pub place: DocumentPosition<'v>,
    /// The name that is to stand in its place.
    pub new_name: &'v str,
}

impl RenameParams<'_> {
    /// The params, or `None` where one of them is missing or ill-typed.
    pub fn from_value(params: &Value) -> Option<RenameParams<'_>>
        ensures { option_map rename_view result ≡ rename_of (view params.now) }
    {
        let place = DocumentPosition::from_value(params)?;
        let new_name = text_member(params, "newName")?;
        Some(RenameParams { place, new_name })
    }
}

// A flag, which is false where it is missing.
fn flag_in(flag: Option<&Value>) -> Option<bool>
    ensures { result ≡ flag_in (option_map (λ v. view v.now) flag.entry) }
{
    match flag {
        Some(flag) => flag.as_bool(),
        None => Some(false),
    }
}

// The member `includeDeclaration` of a `context`.
fn includes_in(context: Option<&Value>) -> Option<bool>
    ensures { result ≡ includes_in (option_map (λ v. view v.now) context.entry) }
{
    match context {
        Some(context) if context.is_object() => flag_in(context.get("includeDeclaration")),
        Some(_) => None,
        None => Some(false),
    }
}
