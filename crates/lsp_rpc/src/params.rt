// The params of the methods.
ghost use Rattle.std.specs.Prelude.{◌≡◌, ◌≢◌, ℕ, List, IfOk, map, string_bytes, option_map, option_and_then, unwrap_or, codes};
ghost use Rattle.serde_json.specs.Data.{object, null};
ghost use Rattle.serde_json.specs.Find.{get_member, as_str, as_array};
ghost use Rattle.serde_json.specs.View.{view, members_view, items_view};
ghost use Rattle.lsp_rpc.specs.Body.{integer_member};
ghost use Rattle.doc_text.specs.Edits.{change_view};
ghost use Rattle.lsp_rpc.specs.Params.{uri_of, opened_of, opened_in, opened_view, position_in, range_in, change_in, changes_in, versioned_in, versioned_view, changed_of, changed_view};

use crate::body::{natural_member, take_member, text_member};
use doc_text::{Change, Position, Range};
use serde_json::{Map, Value};
use std::alloc::{AllocError, Global};

/// The URI of `textDocument`, if it is there and a string.
pub fn document_uri(params: &Value) -> Option<&str>
    ensures { option_map (λ s. s.now) result ≡ uri_of (view params.now) }
{
    text_member(params.get("textDocument")?, "uri")
}

/// The params of `textDocument/didOpen` (Language Server Protocol 3.17, "DidOpenTextDocumentParams").
#[derive(Debug, PartialEq, Drop)]
pub struct DidOpenParams {
    /// The document's URI, as the editor wrote it.
    pub uri: String,
    /// The document's version.
    pub version: i64,
    /// The whole text.
    pub text: String,
}

impl DidOpenParams {
    /// Moves the params out of their JSON, or answers `None` where one is missing or ill-typed.
    pub fn from_value(params: Value) -> Option<DidOpenParams>
        ensures { option_map opened_view result ≡ opened_of (view params) }
    {
        match take_member(params, "textDocument") {
            Value::Object(members) => opened_in(members),
            _ => None,
        }
    }
}

fn opened_in(mut members: Map<String, Value>) -> Option<DidOpenParams>
    ensures { option_map opened_view result ≡ opened_in (object (members_view members.entries)) }
{
    let uri = take_text(&mut members, "uri")?;
    let version = take_version(&mut members)?;
    let text = take_text(&mut members, "text")?;
    Some(DidOpenParams { uri, version, text })
}

fn take_text(members: &mut Map<String, Value>, name: &str) -> Option<String>
    ensures taken { option_map string_bytes result
        ≡ option_and_then as_str (get_member name.now (members_view members.old.entries)) }
    ensures others { (other : List ℕ) → other ≢ name.now
        → get_member other (members_view members.new.entries)
        ≡ get_member other (members_view members.old.entries) }
{
    match remove(members, name)? {
        Value::String(text) => Some(text),
        _ => None,
    }
}

fn take_version(members: &mut Map<String, Value>) -> Option<i64>
    ensures taken { result ≡ integer_member (codes "version") (object (members_view members.old.entries)) }
    ensures others { (other : List ℕ) → other ≢ codes "version"
        → get_member other (members_view members.new.entries)
        ≡ get_member other (members_view members.old.entries) }
{
    remove(members, "version")?.as_i64()
}

// Removes the member with this name, and leaves the others.
fn remove(members: &mut Map<String, Value>, name: &str) -> Option<Value>
    ensures removed { option_map view result
        ≡ get_member name.now (members_view members.old.entries) }
    ensures others { (other : List ℕ) → other ≢ name.now
        → get_member other (members_view members.new.entries)
        ≡ get_member other (members_view members.old.entries) }
{
    members.remove(name)
}

// ---- changes

/// `textDocument` with its version, as a change names it (Language Server Protocol 3.17,
/// "VersionedTextDocumentIdentifier").
#[derive(Debug, PartialEq, Drop)]
pub struct VersionedDocument {
    /// The document's URI, as the editor wrote it.
    pub uri: String,
    /// The version that the document has after the changes.
    pub version: i64,
}

/// The params of `textDocument/didChange` (Language Server Protocol 3.17, "DidChangeTextDocumentParams").
#[derive(Drop)]
pub struct DidChangeParams {
    /// Which document is changed, and its version then.
    pub document: VersionedDocument,
    /// The changes in order. Each counts in the text that those before it leave.
    pub changes: Vec<Change>,
}

impl DidChangeParams {
    /// Moves the params out of their JSON. `None` where one is missing or ill-typed; a change with a member `range`
    /// that is no range, `null` too, is ill-typed, and so are the params then. An error is want of memory.
    pub fn from_value(alloc: Global, params: Value) -> Result<Option<DidChangeParams>, AllocError>
        ensures { IfOk result (λ o. option_map changed_view o ≡ changed_of (view params)) }
    {
        match params {
            Value::Object(members) => changed_in(alloc, members),
            _ => Ok(None),
        }
    }
}

fn changed_in(
    alloc: Global,
    mut members: Map<String, Value>,
) -> Result<Option<DidChangeParams>, AllocError>
    ensures { IfOk result (λ o. option_map changed_view o ≡ changed_of (object (members_view members.entries))) }
{
    let Some(document) = take_versioned(&mut members) else {
        return Ok(None);
    };
    let Some(values) = take_array(&mut members, "contentChanges") else {
        return Ok(None);
    };
    let Some(changes) = changes_in(alloc, values)? else {
        return Ok(None);
    };
    Ok(Some(DidChangeParams { document, changes }))
}

fn take_versioned(members: &mut Map<String, Value>) -> Option<VersionedDocument>
    ensures taken { option_map versioned_view result
        ≡ versioned_in (unwrap_or (get_member (codes "textDocument") (members_view members.old.entries)) null) }
    ensures others { (other : List ℕ) → other ≢ codes "textDocument"
        → get_member other (members_view members.new.entries)
        ≡ get_member other (members_view members.old.entries) }
{
    match remove(members, "textDocument")? {
        Value::Object(document) => versioned_in(document),
        _ => None,
    }
}

fn versioned_in(mut members: Map<String, Value>) -> Option<VersionedDocument>
    ensures { option_map versioned_view result ≡ versioned_in (object (members_view members.entries)) }
{
    let uri = take_text(&mut members, "uri")?;
    let version = take_version(&mut members)?;
    Some(VersionedDocument { uri, version })
}

fn take_array(members: &mut Map<String, Value>, name: &str) -> Option<Vec<Value>>
    ensures { option_map (λ v. items_view v.items) result
        ≡ option_and_then as_array (get_member name.now (members_view members.old.entries)) }
{
    match remove(members, name)? {
        Value::Array(values) => Some(values),
        _ => None,
    }
}

fn changes_in(alloc: Global, values: Vec<Value>) -> Result<Option<Vec<Change>>, AllocError>
    ensures { IfOk result (λ o. option_map (λ v. map change_view v.items) o ≡ changes_in (items_view values.items)) }
{
    let mut changes = Vec::new(alloc);
    'changes: for value in values {
        let Some(change) = change_in(value) else {
            return Ok(None);
        };
        changes.push(change)?;
    }
    Ok(Some(changes))
}

fn change_in(value: Value) -> Option<Change>
    ensures { option_map change_view result ≡ change_in (view value) }
{
    match value {
        Value::Object(members) => change_with(members),
        _ => None,
    }
}

fn change_with(mut members: Map<String, Value>) -> Option<Change>
    ensures { option_map change_view result ≡ change_in (object (members_view members.entries)) }
{
    let range = match remove(&mut members, "range") {
        Some(range) => Some(range_in(&range)?),
        None => None,
    };
    let text = take_text(&mut members, "text")?;
    Some(Change { range, text })
}

pub(crate) fn position_in(value: &Value) -> Option<Position>
    ensures { result ≡ position_in (view value.now) }
{
    let line = natural_member(value, "line")?;
    let character = natural_member(value, "character")?;
    Some(Position { line, character })
}

fn range_in(value: &Value) -> Option<Range>
    ensures { result ≡ range_in (view value.now) }
{
    let start = position_in(value.get("start")?)?;
    let end = position_in(value.get("end")?)?;
    Some(Range { start, end })
}
