// Files whose declarations may have uses that aren't known.
ghost use Rattle.std.specs.Prelude.{◌≡◌, IfErr, IfOk, IsTrue};
ghost use Rattle.std.specs.List.{list_any};
ghost use Rattle.lsp_renames.specs.UnknownUses.{is_of_other, has_others, has_unknown_uses};

use import_graph::FileNo;
use lsp_queries::facts_in;
use proto_decls::SyntaxFact;
use std::alloc::AllocError;
use work_index::Analysis;

// Whether a file has a text that isn't proto3 and is read for what it declares.
fn is_of_other(analysis: &Analysis, file: FileNo) -> bool
    ensures { result ≡ is_of_other analysis.now file }
{
    match facts_in(analysis, file) {
        Some(facts) => matches!(facts.syntax, SyntaxFact::Other),
        None => false,
    }
}

// Whether any file has one.
fn has_others(analysis: &Analysis) -> bool
    ensures { result ≡ has_others analysis.now }
{
    for file in 0..analysis.file_count() {
        if is_of_other(analysis, file) {
            return true;
        }
    }
    false
}

// Whether one of these files has one.
fn any_of_other(analysis: &Analysis, files: &[FileNo]) -> bool
    ensures { result ≡ list_any (is_of_other analysis.now) files.now }
{
    files.iter().any(|file| is_of_other(analysis, *file))
}

// Whether what a file declares may have uses that aren't known: it has such a text itself, or a file has one that may use it. Takes memory
// only if any file has one.
pub fn has_unknown_uses(analysis: &Analysis, file: FileNo) -> Result<bool, AllocError>
    ensures value { IfOk result (λ unknown. unknown ≡ has_unknown_uses analysis.now file) }
    ensures memory { IfErr result (λ fault. IsTrue (has_others analysis.now)) }
{
    analysis.known();
    if !has_others(analysis) {
        return Ok(false);
    }
    if file >= analysis.file_count() {
        return Ok(false);
    }
    let seers = analysis.seen_by(file)?;
    Ok(any_of_other(analysis, seers.as_slice()))
}
