// A result of a document of SARIF.
ghost use Rattle.std.specs.Prelude.{◌≡◌, ◌++◌, string_bytes, IfOk, OnOk};
ghost use Rattle.lsp_rpc.specs.Writing.{Adds};
ghost use Rattle.check_lines.specs.Lines.{below, file_uri, region_value, artifact_value, location_value, level_word, message_value, result_value, sarif_text, sarif_item};

use crate::gnu_line::{is_error_message, push_below};
use crate::json_line::{Finding, ROOM, write_after};
use doc_text::Position;
use json::Writer;
use proto_decls::Problem;
use std::alloc::{AllocError, Global};
use workspace_uri::escape_path;

// The URI of a file with this path, or a reference to it from the current folder.
fn uri_of(alloc: Global, path: &[u8]) -> Result<String, AllocError>
    ensures { IfOk result (λ uri. string_bytes uri ≡ file_uri path.now) }
{
    let escaped = escape_path(alloc, path)?;
    if !path.starts_with(b"/") {
        return Ok(escaped);
    }
    let mut uri = String::from_str(alloc, "file://")?;
    uri.push_str(escaped.as_str())?;
    Ok(uri)
}

// The URI of the file at a path below a folder.
fn file_uri(alloc: Global, folder: &str, path: &str) -> Result<String, AllocError>
    ensures { IfOk result (λ uri. string_bytes uri ≡ file_uri (below folder.now path.now)) }
{
    let mut whole = Vec::with_capacity(alloc, ROOM)?;
    push_below(&mut whole, folder, path)?;
    uri_of(alloc, whole.as_slice())
}

fn level_word(message: Problem) -> &'static str
    ensures { result.now ≡ level_word message }
{
    if is_error_message(message) {
        "error"
    } else {
        "note"
    }
}

fn write_region(out: &mut Writer, start: Position, end: Position) -> Result<(), AllocError>
    ensures { OnOk result (Adds out.old (region_value start end) out.new) }
{
    out.begin_object()?;
    out.key("endColumn")?;
    write_after(out, end.character)?;
    out.key("endLine")?;
    write_after(out, end.line)?;
    out.key("startColumn")?;
    write_after(out, start.character)?;
    out.key("startLine")?;
    write_after(out, start.line)?;
    out.end_object()?;
    Ok(())
}

fn write_artifact(out: &mut Writer, uri: &str) -> Result<(), AllocError>
    ensures { OnOk result (Adds out.old (artifact_value uri.now) out.new) }
{
    out.begin_object()?;
    out.key("uri")?;
    out.string(uri)?;
    out.end_object()?;
    Ok(())
}

fn write_location(
    out: &mut Writer,
    uri: &str,
    start: Position,
    end: Position,
) -> Result<(), AllocError>
    ensures { OnOk result (Adds out.old (location_value uri.now start end) out.new) }
{
    out.begin_object()?;
    out.key("physicalLocation")?;
    out.begin_object()?;
    out.key("artifactLocation")?;
    write_artifact(out, uri)?;
    out.key("region")?;
    write_region(out, start, end)?;
    out.end_object()?;
    out.end_object()?;
    Ok(())
}

fn write_message(out: &mut Writer, text: &str) -> Result<(), AllocError>
    ensures { OnOk result (Adds out.old (message_value text.now) out.new) }
{
    out.begin_object()?;
    out.key("text")?;
    out.string(text)?;
    out.end_object()?;
    Ok(())
}

fn write_result(out: &mut Writer, uri: &str, finding: &Finding<'_>) -> Result<(), AllocError>
    ensures { OnOk result (Adds out.old (result_value uri.now finding.now.start finding.now.end finding.now.diag.message) out.new) }
{
    let message = finding.diag.message;
    out.begin_object()?;
    out.key("level")?;
    out.string(level_word(message))?;
    out.key("locations")?;
    out.begin_array()?;
    write_location(out, uri, finding.start, finding.end)?;
    out.end_array()?;
    out.key("message")?;
    write_message(out, message.text())?;
    out.key("ruleId")?;
    out.quoted_u64(message.code() as u64)?;
    out.end_object()?;
    Ok(())
}

// A text with the result of a diagnostic behind it.
fn with_result(text: Vec<u8>, uri: &str, finding: &Finding<'_>) -> Result<Vec<u8>, AllocError>
    ensures { IfOk result (λ whole. whole.items ≡ text.items ++ sarif_text uri.now finding.now.start finding.now.end finding.now.diag.message) }
{
    let mut out = Writer::new(text);
    write_result(&mut out, uri, finding)?;
    Ok(out.into_inner())
}

// Adds the result of a diagnostic, behind a comma.
pub fn push_sarif_item(
    alloc: Global,
    out: &mut Vec<u8>,
    finding: &Finding<'_>,
) -> Result<(), AllocError>
    ensures { OnOk result (out.new.items ≡ out.old.items ++ sarif_item finding.now.folder.now finding.now.path.now finding.now.start finding.now.end finding.now.diag.message) }
{
    let uri = file_uri(alloc, finding.folder, finding.path)?;
    let text = with_result(Vec::with_capacity(alloc, ROOM)?, uri.as_str(), finding)?;
    out.extend_from_slice(b",")?;
    out.extend_from_slice(text.as_slice())?;
    Ok(())
}
