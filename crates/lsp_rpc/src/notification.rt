// The notifications that the server sends, as the bodies of messages.
ghost use Rattle.std.specs.Prelude.{◌≡◌, OnOk, IfOk};
ghost use Rattle.serde_json.specs.Written.{compact_text};
ghost use Rattle.lsp_rpc.specs.Writing.{Appends, Adds};
ghost use Rattle.lsp_rpc.specs.Workspace.{document_view};
ghost use Rattle.lsp_rpc.specs.Notification.{published_value, publication_value, version_tokens};

use crate::diagnostic::write_items;
use crate::reply::new_text;
use crate::workspace::DocumentReport;
use json::Writer;
use std::alloc::{AllocError, Global};

/// The notification that publishes the diagnostics of a document, in order (Language Server Protocol 3.17, "PublishDiagnostics
/// Notification"). A missing version isn't written. The only error is out of memory.
pub fn publication(alloc: Global, report: &DocumentReport<'_>) -> Result<Vec<u8>, AllocError>
    ensures { IfOk result (λ b. b.items ≡ compact_text (publication_value (document_view report.now))) }
{
    let mut out = new_text(alloc);
    out.begin_object()?;
    out.key("jsonrpc")?;
    out.string("2.0")?;
    out.key("method")?;
    out.string("textDocument/publishDiagnostics")?;
    out.key("params")?;
    write_published(&mut out, report)?;
    out.end_object()?;
    Ok(out.into_inner())
}

fn write_published(out: &mut Writer, report: &DocumentReport<'_>) -> Result<(), AllocError>
    ensures { OnOk result (Adds out.old (published_value (document_view report.now)) out.new) }
{
    out.begin_object()?;
    out.key("diagnostics")?;
    write_items(out, report.diagnostics.as_slice())?;
    out.key("uri")?;
    out.string(report.uri.as_str())?;
    write_version(out, report.version)?;
    out.end_object()?;
    Ok(())
}

// Writes the version of a document, if it has one, as a member of an object.
fn write_version(out: &mut Writer, version: Option<i64>) -> Result<(), AllocError>
    ensures { OnOk result (Appends out.old (version_tokens version) out.new) }
{
    if let Some(version) = version {
        out.key("version")?;
        out.i64(version)?;
    }
    Ok(())
}
