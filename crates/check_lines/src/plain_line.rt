// A line with the path below its folder.
ghost use Rattle.std.specs.Prelude.{◌≡◌, ◌++◌, decimal, OnOk};
ghost use Rattle.check_lines.specs.Lines.{place_behind, words_of, line_at};

use doc_text::Position;
use itoa::Buffer;
use proto_decls::Problem;
use std::alloc::AllocError;

// Adds a number.
pub fn push_number(out: &mut Vec<u8>, number: u128) -> Result<(), AllocError>
    ensures { OnOk result (out.new.items ≡ out.old.items ++ decimal number) }
{
    let mut digits = Buffer::new();
    out.extend_from_slice(digits.format(number).as_bytes())?;
    Ok(())
}

// Adds where a diagnostic stands, behind the path of its file.
pub fn push_place(out: &mut Vec<u8>, place: Position) -> Result<(), AllocError>
    ensures { OnOk result (out.new.items ≡ out.old.items ++ place_behind place) }
{
    out.extend_from_slice(b":")?;
    push_number(out, place.line as u128 + 1)?;
    out.extend_from_slice(b":")?;
    push_number(out, place.character as u128 + 1)?;
    Ok(())
}

// Adds what a diagnostic says, and the line's end.
fn push_words(out: &mut Vec<u8>, message: Problem) -> Result<(), AllocError>
    ensures { OnOk result (out.new.items ≡ out.old.items ++ words_of message) }
{
    out.extend_from_slice(b": ")?;
    push_number(out, message.code() as u128)?;
    out.extend_from_slice(b" ")?;
    out.extend_from_slice(message.text().as_bytes())?;
    out.extend_from_slice(b"\n")?;
    Ok(())
}

// Adds the line of a diagnostic of a file at a position.
pub fn push_plain_line(
    out: &mut Vec<u8>,
    path: &str,
    place: Position,
    message: Problem,
) -> Result<(), AllocError>
    ensures { OnOk result (out.new.items ≡ out.old.items ++ line_at path.now place message) }
{
    out.extend_from_slice(path.as_bytes())?;
    push_place(out, place)?;
    push_words(out, message)?;
    Ok(())
}
