// Diagnostics, and how they are written.
ghost use Rattle.std.specs.Prelude.{◌≡◌, OnOk, map};
ghost use Rattle.serde_json.specs.Data.{array};
ghost use Rattle.serde_json.specs.View.{items_of};
ghost use Rattle.lsp_rpc.specs.Writing.{Adds};
ghost use Rattle.lsp_rpc.specs.Diagnostic.{position_value, range_value, severity_number, diagnostic_value, diagnostic_view, report_value};

use doc_text::{Position, Range};
use json::Writer;
use std::alloc::AllocError;

/// How grave a diagnostic is (Language Server Protocol 3.17, "DiagnosticSeverity"). The protocol's other two grades,
/// 2 and 4, are never given.
#[derive(Clone, Copy, Debug, PartialEq, Eq)]
pub enum Severity {
    /// 1
    Error,
    /// 3
    Information,
}

impl Severity {
    fn number(self) -> u64
        ensures { result ≡ severity_number self }
    {
        match self {
            Severity::Error => 1,
            Severity::Information => 3,
        }
    }
}

/// A fault that was found in a document: where, in lines and units of the position encoding from 0, how grave it is, its
/// number and what it says.
#[derive(Clone, Copy, Debug)]
pub struct Diagnostic<'m> {
    /// Where it stands.
    pub range: Range,
    /// How grave it is.
    pub severity: Severity,
    /// Its number.
    pub code: u32,
    /// What it says.
    pub message: &'m str,
}

fn write_position(out: &mut Writer, position: Position) -> Result<(), AllocError>
    ensures { OnOk result (Adds out.old (position_value position) out.new) }
{
    out.begin_object()?;
    out.key("character")?;
    out.u64(position.character)?;
    out.key("line")?;
    out.u64(position.line)?;
    out.end_object()?;
    Ok(())
}

// Writes a range.
pub fn write_range(out: &mut Writer, range: Range) -> Result<(), AllocError>
    ensures { OnOk result (Adds out.old (range_value range) out.new) }
{
    out.begin_object()?;
    out.key("end")?;
    write_position(out, range.end)?;
    out.key("start")?;
    write_position(out, range.start)?;
    out.end_object()?;
    Ok(())
}

fn write_diagnostic(out: &mut Writer, diagnostic: &Diagnostic<'_>) -> Result<(), AllocError>
    ensures { OnOk result (Adds out.old (diagnostic_value (diagnostic_view diagnostic.now)) out.new) }
{
    out.begin_object()?;
    out.key("code")?;
    out.u64(diagnostic.code as u64)?;
    out.key("message")?;
    out.string(diagnostic.message)?;
    out.key("range")?;
    write_range(out, diagnostic.range)?;
    out.key("severity")?;
    out.u64(diagnostic.severity.number())?;
    out.key("source")?;
    out.string("protols")?;
    out.end_object()?;
    Ok(())
}

// Writes the diagnostics of a document, in order, as an array.
pub fn write_items(out: &mut Writer, diagnostics: &[Diagnostic<'_>]) -> Result<(), AllocError>
    ensures { OnOk result
        (Adds out.old (array (items_of (map diagnostic_value (map diagnostic_view diagnostics.now)))) out.new) }
{
    out.begin_array()?;
    'items: for diagnostic in diagnostics {
        write_diagnostic(out, diagnostic)?;
    }
    out.end_array()?;
    Ok(())
}

/// Writes the diagnostics of a document, in order, as a full report.
pub fn write_report(out: &mut Writer, diagnostics: &[Diagnostic<'_>]) -> Result<(), AllocError>
    ensures { OnOk result (Adds out.old (report_value (map diagnostic_view diagnostics.now)) out.new) }
{
    out.begin_object()?;
    out.key("items")?;
    write_items(out, diagnostics)?;
    out.key("kind")?;
    out.string("full")?;
    out.end_object()?;
    Ok(())
}
