// The diagnostics of all documents of a workspace, and how they are written.
ghost use Rattle.std.specs.Prelude.{◌≡◌, OnOk, map};
ghost use Rattle.serde_json.specs.Data.{array};
ghost use Rattle.serde_json.specs.View.{items_of};
ghost use Rattle.lsp_rpc.specs.Writing.{Adds};
ghost use Rattle.lsp_rpc.specs.Workspace.{version_value, document_value, document_view, workspace_value};

use crate::diagnostic::{Diagnostic, write_items};
use json::Writer;
use std::alloc::AllocError;

/// The diagnostics of a document of the workspace, in order.
#[derive(Debug, Drop)]
pub struct DocumentReport<'m> {
    /// What is wrong in the document, in order.
    pub diagnostics: Vec<Diagnostic<'m>>,
    /// The document's URI.
    pub uri: String,
    /// Its version, where it is open.
    pub version: Option<i64>,
}

fn write_version(out: &mut Writer, version: Option<i64>) -> Result<(), AllocError>
    ensures { OnOk result (Adds out.old (version_value version) out.new) }
{
    match version {
        Some(version) => out.i64(version)?,
        None => out.null()?,
    }
    Ok(())
}

fn write_document(out: &mut Writer, report: &DocumentReport<'_>) -> Result<(), AllocError>
    ensures { OnOk result (Adds out.old (document_value (document_view report.now)) out.new) }
{
    out.begin_object()?;
    out.key("items")?;
    write_items(out, report.diagnostics.as_slice())?;
    out.key("kind")?;
    out.string("full")?;
    out.key("uri")?;
    out.string(report.uri.as_str())?;
    out.key("version")?;
    write_version(out, report.version)?;
    out.end_object()?;
    Ok(())
}

fn write_documents(out: &mut Writer, reports: &[DocumentReport<'_>]) -> Result<(), AllocError>
    ensures { OnOk result (Adds out.old (array (items_of (map document_value (map document_view reports.now)))) out.new) }
{
    out.begin_array()?;
    'items: for report in reports {
        write_document(out, report)?;
    }
    out.end_array()?;
    Ok(())
}

// Writes the reports of all documents, in order.
pub fn write_workspace(out: &mut Writer, reports: &[DocumentReport<'_>]) -> Result<(), AllocError>
    ensures { OnOk result (Adds out.old (workspace_value (map document_view reports.now)) out.new) }
{
    out.begin_object()?;
    out.key("items")?;
    write_documents(out, reports)?;
    out.end_object()?;
    Ok(())
}
