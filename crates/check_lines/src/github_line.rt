// A workflow command of GitHub's build service.
ghost use Rattle.std.specs.Prelude.{◌≡◌, ◌++◌, OnOk};
ghost use Rattle.std.specs.List.{flat_map};
ghost use Rattle.check_lines.specs.Lines.{below, escaped_byte, property_byte, command_word, github_file, github_place, github_words, github_line};

use crate::gnu_line::{is_error_message, push_below};
use crate::plain_line::push_number;
use doc_text::Position;
use proto_decls::Problem;
use std::alloc::{AllocError, Global};

// Adds a byte of a command's message.
fn push_escaped(out: &mut Vec<u8>, byte: u8) -> Result<(), AllocError>
    ensures { OnOk result (out.new.items ≡ out.old.items ++ escaped_byte byte) }
{
    match byte {
        b'%' => out.extend_from_slice(b"%25")?,
        b'\r' => out.extend_from_slice(b"%0D")?,
        b'\n' => out.extend_from_slice(b"%0A")?,
        _ => out.push(byte)?,
    }
    Ok(())
}

// Adds a byte of a property.
fn push_property_byte(out: &mut Vec<u8>, byte: u8) -> Result<(), AllocError>
    ensures { OnOk result (out.new.items ≡ out.old.items ++ property_byte byte) }
{
    match byte {
        b':' => out.extend_from_slice(b"%3A")?,
        b',' => out.extend_from_slice(b"%2C")?,
        _ => push_escaped(out, byte)?,
    }
    Ok(())
}

// Adds a command's message.
fn push_message(out: &mut Vec<u8>, text: &[u8]) -> Result<(), AllocError>
    ensures { OnOk result (out.new.items ≡ out.old.items ++ flat_map escaped_byte text.now) }
{
    for byte in text {
        push_escaped(out, *byte)?;
    }
    Ok(())
}

// Adds a property.
fn push_property(out: &mut Vec<u8>, text: &[u8]) -> Result<(), AllocError>
    ensures { OnOk result (out.new.items ≡ out.old.items ++ flat_map property_byte text.now) }
{
    for byte in text {
        push_property_byte(out, *byte)?;
    }
    Ok(())
}

fn command_word(message: Problem) -> &'static str
    ensures { result.now ≡ command_word message }
{
    if is_error_message(message) {
        "error"
    } else {
        "notice"
    }
}

// Adds a command, and of which file it speaks.
fn push_file(
    alloc: Global,
    out: &mut Vec<u8>,
    folder: &str,
    path: &str,
    message: Problem,
) -> Result<(), AllocError>
    ensures { OnOk result (out.new.items ≡ out.old.items ++ github_file folder.now path.now message) }
{
    let mut file = Vec::new(alloc);
    push_below(&mut file, folder, path)?;
    out.extend_from_slice(b"::")?;
    out.extend_from_slice(command_word(message).as_bytes())?;
    out.extend_from_slice(b" file=")?;
    push_property(out, file.as_slice())?;
    Ok(())
}

// Adds where a diagnostic stands.
fn push_github_place(out: &mut Vec<u8>, place: Position) -> Result<(), AllocError>
    ensures { OnOk result (out.new.items ≡ out.old.items ++ github_place place) }
{
    out.extend_from_slice(b",line=")?;
    push_number(out, place.line as u128 + 1)?;
    out.extend_from_slice(b",col=")?;
    push_number(out, place.character as u128 + 1)?;
    Ok(())
}

// Adds what a diagnostic says, and the line's end.
fn push_github_words(out: &mut Vec<u8>, message: Problem) -> Result<(), AllocError>
    ensures { OnOk result (out.new.items ≡ out.old.items ++ github_words message) }
{
    out.extend_from_slice(b"::")?;
    push_number(out, message.code() as u128)?;
    out.extend_from_slice(b" ")?;
    push_message(out, message.text().as_bytes())?;
    out.extend_from_slice(b"\n")?;
    Ok(())
}

// Adds the line of a diagnostic of a file at a position.
pub fn push_github_line(
    alloc: Global,
    out: &mut Vec<u8>,
    folder: &str,
    path: &str,
    found: (Position, Problem),
) -> Result<(), AllocError>
    ensures { OnOk result (out.new.items ≡ out.old.items ++ github_line folder.now path.now found.0 found.1) }
{
    let (place, message) = found;
    push_file(alloc, out, folder, path, message)?;
    push_github_place(out, place)?;
    push_github_words(out, message)?;
    Ok(())
}
