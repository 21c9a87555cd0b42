// The replies to requests, as the bodies of messages.
ghost use Rattle.std.specs.Prelude.{◌≡◌, [], OnOk, IfOk, option_map, map};
ghost use Rattle.serde_json.specs.Data.{null, number};
ghost use Rattle.serde_json.specs.Find.{of_integer};
ghost use Rattle.serde_json.specs.Written.{compact_text};
ghost use Rattle.lsp_rpc.specs.Message.{id_view};
ghost use Rattle.lsp_rpc.specs.Writing.{empty, Appends, Adds};
ghost use Rattle.lsp_rpc.specs.Diagnostic.{report_value, diagnostic_view};
ghost use Rattle.lsp_rpc.specs.Workspace.{workspace_value, document_view};
ghost use Rattle.lsp_rpc.specs.Location.{locations_value, all_locations};
ghost use Rattle.lsp_rpc.specs.WorkspaceEdit.{workspace_edit_value, document_ranges};
ghost use Rattle.lsp_rpc.specs.Symbol.{symbols_value, all_symbols};
ghost use Rattle.lsp_rpc.specs.Initialize.{initialize_result};
ghost use Rattle.lsp_rpc.specs.Reply as reply;

use crate::diagnostic::{Diagnostic, write_report};
use crate::error_code::ErrorCode;
use crate::id::Id;
use crate::initialize::write_initialize_result;
use crate::location::{DocumentRanges, write_locations};
use crate::symbol::{DocumentSymbols, write_symbols};
use crate::workspace::{DocumentReport, write_workspace};
use crate::workspace_edit::write_workspace_edit;
use doc_text::Encoding;
use json::Writer;
use std::alloc::{AllocError, Global};

/// The reply to `initialize`, which names the position encoding. The only error is out of memory.
pub fn initialize_reply(alloc: Global, id: &Id, encoding: Encoding) -> Result<Vec<u8>, AllocError>
    ensures { IfOk result (λ b. b.items
        ≡ compact_text (reply.result_reply (id_view id.now) (initialize_result encoding))) }
{
    let mut out = begin_result(alloc, id)?;
    write_initialize_result(&mut out, encoding)?;
    out.end_object()?;
    Ok(out.into_inner())
}

/// The reply that gives the diagnostics of a document, in order, as a full report. An error is want of memory.
pub fn report_reply(
    alloc: Global,
    id: &Id,
    diagnostics: &[Diagnostic<'_>],
) -> Result<Vec<u8>, AllocError>
    ensures { IfOk result (λ b. b.items
        ≡ compact_text (reply.result_reply (id_view id.now) (report_value (map diagnostic_view diagnostics.now)))) }
{
    let mut out = begin_result(alloc, id)?;
    write_report(&mut out, diagnostics)?;
    out.end_object()?;
    Ok(out.into_inner())
}

/// The reply that gives the diagnostics of all documents of a workspace, in order, as full reports. An error is want of memory.
pub fn workspace_reply(
    alloc: Global,
    id: &Id,
    reports: &[DocumentReport<'_>],
) -> Result<Vec<u8>, AllocError>
    ensures { IfOk result (λ b. b.items
        ≡ compact_text (reply.result_reply (id_view id.now) (workspace_value (map document_view reports.now)))) }
{
    let mut out = begin_result(alloc, id)?;
    write_workspace(&mut out, reports)?;
    out.end_object()?;
    Ok(out.into_inner())
}

/// The reply that gives places in documents, in order. An error is want of memory.
pub fn locations_reply(
    alloc: Global,
    id: &Id,
    places: &[DocumentRanges],
) -> Result<Vec<u8>, AllocError>
    ensures { IfOk result (λ b. b.items
        ≡ compact_text (reply.result_reply (id_view id.now) (locations_value (all_locations places.now)))) }
{
    let mut out = begin_result(alloc, id)?;
    write_locations(&mut out, places)?;
    out.end_object()?;
    Ok(out.into_inner())
}

/// The reply that gives the edits by which a text comes to stand in the place of some ranges of documents, each URI once, in the
/// order of bytes; documents with one URI share a list. An error is want of memory.
pub fn rename_reply(
    alloc: Global,
    id: &Id,
    documents: Vec<DocumentRanges>,
    new_text: &str,
) -> Result<Vec<u8>, AllocError>
    ensures { IfOk result (λ b. b.items
        ≡ compact_text (reply.result_reply (id_view id.now) (workspace_edit_value new_text.now (map document_ranges documents.items)))) }
{
    let mut out = begin_result(alloc, id)?;
    write_workspace_edit(alloc, &mut out, documents, new_text)?;
    out.end_object()?;
    Ok(out.into_inner())
}

/// The reply that gives declarations, in order. An error is want of memory.
pub fn symbols_reply(
    alloc: Global,
    id: &Id,
    symbols: &[DocumentSymbols<'_>],
) -> Result<Vec<u8>, AllocError>
    ensures { IfOk result (λ b. b.items
        ≡ compact_text (reply.result_reply (id_view id.now) (symbols_value (all_symbols symbols.now)))) }
{
    let mut out = begin_result(alloc, id)?;
    write_symbols(&mut out, symbols)?;
    out.end_object()?;
    Ok(out.into_inner())
}

/// The reply that says `null`, as to `shutdown`. An error is want of memory.
pub fn null_reply(alloc: Global, id: &Id) -> Result<Vec<u8>, AllocError>
    ensures { IfOk result (λ b. b.items
        ≡ compact_text (reply.result_reply (id_view id.now) null)) }
{
    let mut out = begin_result(alloc, id)?;
    write_null(&mut out)?;
    out.end_object()?;
    Ok(out.into_inner())
}

/// A reply up to its result.
fn begin_result(alloc: Global, id: &Id) -> Result<Writer, AllocError>
    ensures { IfOk result (λ out. Appends empty (reply.tokens_to_result (id_view id.now)) out) }
{
    let mut out = new_text(alloc);
    out.begin_object()?;
    out.key("id")?;
    write_id(&mut out, id)?;
    out.key("jsonrpc")?;
    out.string("2.0")?;
    out.key("result")?;
    Ok(out)
}

fn write_id(out: &mut Writer, id: &Id) -> Result<(), AllocError>
    ensures { OnOk result (Adds out.old (reply.id_value (id_view id.now)) out.new) }
{
    match id {
        Id::Number(number) => write_integer(out, *number)?,
        Id::Text(text) => out.string(text.as_str())?,
    }
    Ok(())
}

/// The reply that refuses a message, under its id, or under `null` where it has none that can be
/// repeated. An error is want of memory.
pub fn error_reply(alloc: Global, id: Option<&Id>, code: ErrorCode) -> Result<Vec<u8>, AllocError>
    ensures { IfOk result (λ b. b.items
        ≡ compact_text (reply.error_reply (option_map (λ i. id_view i.now) id.entry) code)) }
{
    let mut out = new_text(alloc);
    out.begin_object()?;
    out.key("error")?;
    write_error(&mut out, code)?;
    out.key("id")?;
    write_id_or_null(&mut out, id)?;
    out.key("jsonrpc")?;
    out.string("2.0")?;
    out.end_object()?;
    Ok(out.into_inner())
}

fn write_error(out: &mut Writer, code: ErrorCode) -> Result<(), AllocError>
    ensures { OnOk result (Adds out.old (reply.error_value code) out.new) }
{
    out.begin_object()?;
    out.key("code")?;
    write_error_number(out, code)?;
    out.key("message")?;
    out.string(code.message())?;
    out.end_object()?;
    Ok(())
}

fn write_error_number(out: &mut Writer, code: ErrorCode) -> Result<(), AllocError>
    ensures { OnOk result (Adds out.old (number (of_integer (reply.error_row code).0)) out.new) }
{
    write_integer(out, code.number())
}

fn write_id_or_null(out: &mut Writer, id: Option<&Id>) -> Result<(), AllocError>
    ensures { OnOk result (Adds out.old
        (reply.id_or_null (option_map (λ i. id_view i.now) id.entry)) out.new) }
{
    match id {
        Some(id) => write_id(out, id),
        None => write_null(out),
    }
}

fn write_integer(out: &mut Writer, value: i64) -> Result<(), AllocError>
    ensures { OnOk result (Adds out.old (number (of_integer value)) out.new) }
{
    out.i64(value)?;
    Ok(())
}

fn write_null(out: &mut Writer) -> Result<(), AllocError>
    ensures { OnOk result (Adds out.old null out.new) }
{
    out.null()?;
    Ok(())
}

// A writer of a new text.
pub(crate) fn new_text(alloc: Global) -> Writer
    ensures { Appends empty [] result }
{
    Writer::new(Vec::new(alloc))
}
