// Diagnostics at their places.
ghost use Rattle.std.specs.Prelude.{◌≡◌, [], ◌∷◌, ◌++◌, IfOk, OnOk, map};
ghost use Rattle.lsp_rpc.specs.Diagnostic.{diagnostic_view};
ghost use Rattle.lsp_answers.specs.Diagnostics as spec;

use crate::ranges::ranges_of;
use doc_text::{Encoding, Range};
use lsp_rpc::{Diagnostic, Severity};
use proto_decls::Diag;
use std::alloc::{AllocError, Global};

fn severity_of(number: u32) -> Severity
    ensures { result ≡ spec.severity_of number }
{
    if number == 3 {
        Severity::Information
    } else {
        Severity::Error
    }
}

// Puts a diagnostic with this range at the end.
fn push_diagnostic(
    found: &mut Vec<Diagnostic<'static>>,
    diag: Diag,
    range: Range,
) -> Result<(), AllocError>
    ensures { OnOk result (map diagnostic_view found.new.items ≡ map diagnostic_view found.old.items ++ spec.diagnostic_in range diag.message ∷ []) }
{
    found.push(Diagnostic {
        range,
        severity: severity_of(diag.message.severity()),
        code: diag.message.code(),
        message: diag.message.text(),
    })?;
    Ok(())
}

// Some diagnostics of a text, which have these ranges.
fn with_ranges(
    alloc: Global,
    encoding: Encoding,
    text: &str,
    diags: &[Diag],
    ranges: &[Range],
) -> Result<Vec<Diagnostic<'static>>, AllocError>
    requires { ranges.now ≡ map (spec.diag_range encoding text.now) diags.now }
    ensures { IfOk result (λ found. map diagnostic_view found.items ≡ spec.placed encoding text.now diags.now) }
{
    let mut found = Vec::with_capacity(alloc, diags.len())?;
    for i in 0..diags.len() {
        push_diagnostic(&mut found, diags[i], ranges[i])?;
    }
    Ok(found)
}

// Where each diagnostic starts and ends.
fn parts_of(alloc: Global, diags: &[Diag]) -> Result<Vec<(usize, usize)>, AllocError>
    ensures { IfOk result (λ parts. parts.items ≡ map (λ d. (d.start, d.end)) diags.now) }
{
    let mut parts = Vec::with_capacity(alloc, diags.len())?;
    for diag in diags {
        parts.push((diag.start, diag.end))?;
    }
    Ok(parts)
}

// Some diagnostics of a text at their places.
pub fn placed(
    alloc: Global,
    encoding: Encoding,
    text: &str,
    diags: &[Diag],
) -> Result<Vec<Diagnostic<'static>>, AllocError>
    ensures { IfOk result (λ found. map diagnostic_view found.items ≡ spec.placed encoding text.now diags.now) }
{
    let parts = parts_of(alloc, diags)?;
    let ranges = ranges_of(alloc, encoding, text, parts.as_slice())?;
    let found = with_ranges(alloc, encoding, text, diags, ranges.as_slice())?;
    Ok(found)
}
