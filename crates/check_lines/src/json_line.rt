// A line that is a JSON object.
ghost use Rattle.std.specs.Prelude.{◌≡◌, ◌+◌, ◌++◌, decimal, IfOk, OnOk};
ghost use Rattle.json.specs.Token.{number};
ghost use Rattle.json.specs.Written.{Writes};
ghost use Rattle.lsp_rpc.specs.Writing.{Adds};
ghost use Rattle.check_lines.specs.Lines.{place_value, finding_value, json_text, json_line};

use crate::gnu_line::severity_word;
use doc_text::Position;
use itoa::Buffer;
use json::Writer;
use proto_decls::Diag;
use std::alloc::{AllocError, Global};

// How much room most lines need.
pub const ROOM: usize = 512;

// A diagnostic: the folder and the path of its file, where it begins and ends, and what it is.
#[derive(Clone, Copy)]
pub struct Finding<'a> {
    pub folder: &'a str,
    pub path: &'a str,
    pub start: Position,
    pub end: Position,
    pub diag: Diag,
}

// Writes the number after a count.
pub fn write_after(out: &mut Writer, count: u64) -> Result<(), AllocError>
    ensures { Writes result out.old out.new (number (decimal (count + 1))) }
{
    let mut digits = Buffer::new();
    out.number(digits.format(count as u128 + 1))
}

// Writes a place: its byte, and its line and column.
fn write_place(out: &mut Writer, byte: usize, position: Position) -> Result<(), AllocError>
    ensures { OnOk result (Adds out.old (place_value byte position) out.new) }
{
    out.begin_object()?;
    out.key("byte")?;
    out.u64(byte as u64)?;
    out.key("column")?;
    write_after(out, position.character)?;
    out.key("line")?;
    write_after(out, position.line)?;
    out.end_object()?;
    Ok(())
}

fn write_finding(out: &mut Writer, finding: &Finding<'_>) -> Result<(), AllocError>
    ensures { OnOk result (Adds out.old (finding_value finding.now.folder.now finding.now.path.now finding.now.start finding.now.end finding.now.diag) out.new) }
{
    let diag = finding.diag;
    out.begin_object()?;
    out.key("code")?;
    out.u64(diag.message.code() as u64)?;
    out.key("end")?;
    write_place(out, diag.end, finding.end)?;
    out.key("folder")?;
    out.string(finding.folder)?;
    out.key("message")?;
    out.string(diag.message.text())?;
    out.key("path")?;
    out.string(finding.path)?;
    out.key("severity")?;
    out.string(severity_word(diag.message))?;
    out.key("start")?;
    write_place(out, diag.start, finding.start)?;
    out.end_object()?;
    Ok(())
}

// A text with a diagnostic behind it.
fn with_finding(text: Vec<u8>, finding: &Finding<'_>) -> Result<Vec<u8>, AllocError>
    ensures { IfOk result (λ whole. whole.items ≡ text.items ++ json_text finding.now.folder.now finding.now.path.now finding.now.start finding.now.end finding.now.diag) }
{
    let mut out = Writer::new(text);
    write_finding(&mut out, finding)?;
    Ok(out.into_inner())
}

// Adds the line of a diagnostic.
pub fn push_json_line(
    alloc: Global,
    out: &mut Vec<u8>,
    finding: &Finding<'_>,
) -> Result<(), AllocError>
    ensures { OnOk result (out.new.items ≡ out.old.items ++ json_line finding.now.folder.now finding.now.path.now finding.now.start finding.now.end finding.now.diag) }
{
    // (a writer takes all the room that its text has)
    let text = with_finding(Vec::with_capacity(alloc, ROOM)?, finding)?;
    out.extend_from_slice(text.as_slice())?;
    out.extend_from_slice(b"\n")?;
    Ok(())
}
