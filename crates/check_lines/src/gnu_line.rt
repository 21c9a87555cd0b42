// A line as compilers write it, to which editors jump.
ghost use Rattle.std.specs.Prelude.{◌≡◌, ◌++◌, OnOk};
ghost use Rattle.check_lines.specs.Lines.{needs_slash, below, is_error_message, severity_word, gnu_words, gnu_line};

use crate::plain_line::{push_number, push_place};
use doc_text::Position;
use proto_decls::Problem;
use std::alloc::AllocError;

fn needs_slash(folder: &str) -> bool
    ensures { result ≡ needs_slash folder.now }
{
    folder.len() != 0 && !folder.as_bytes().ends_with(b"/")
}

// Adds a path below a folder.
pub fn push_below(out: &mut Vec<u8>, folder: &str, path: &str) -> Result<(), AllocError>
    ensures { OnOk result (out.new.items ≡ out.old.items ++ below folder.now path.now) }
{
    out.extend_from_slice(folder.as_bytes())?;
    if needs_slash(folder) {
        out.extend_from_slice(b"/")?;
    }
    out.extend_from_slice(path.as_bytes())?;
    Ok(())
}

/// Whether a message is one of an error, and not of an information.
pub fn is_error_message(message: Problem) -> bool
    ensures { result ≡ is_error_message message }
{
    message.severity() == 1
}

pub fn severity_word(message: Problem) -> &'static str
    ensures { result.now ≡ severity_word message }
{
    if is_error_message(message) {
        "error"
    } else {
        "info"
    }
}

// Adds what a diagnostic says, and the line's end.
fn push_gnu_words(out: &mut Vec<u8>, message: Problem) -> Result<(), AllocError>
    ensures { OnOk result (out.new.items ≡ out.old.items ++ gnu_words message) }
{
    out.extend_from_slice(b": ")?;
    out.extend_from_slice(severity_word(message).as_bytes())?;
    out.extend_from_slice(b": ")?;
    out.extend_from_slice(message.text().as_bytes())?;
    out.extend_from_slice(b" [")?;
    push_number(out, message.code() as u128)?;
    out.extend_from_slice(b"]\n")?;
    Ok(())
}

// Adds the line of a diagnostic of a file at a position.
pub fn push_gnu_line(
    out: &mut Vec<u8>,
    folder: &str,
    path: &str,
    place: Position,
    message: Problem,
) -> Result<(), AllocError>
    ensures { OnOk result (out.new.items ≡ out.old.items ++ gnu_line folder.now path.now place message) }
{
    push_below(out, folder, path)?;
    push_place(out, place)?;
    push_gnu_words(out, message)?;
    Ok(())
}
