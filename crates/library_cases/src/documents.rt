// Positions, offsets and edits of a text. The fields are the encoding, the text, and then what is asked.
use crate::line::Line;
use crate::marks::plain;
use crate::words::{field, first_word, number};
use doc_text::{Change, Encoding, Position, Range, Text};
use std::alloc::{AllocError, Global};

fn text_of(alloc: Global, given: &str) -> Result<Text, AllocError> {
    Ok(Text::new(plain(alloc, field(given, 2))?))
}

fn encoding_of(given: &str) -> Encoding {
    match field(given, 1) {
        "utf-8" => Encoding::Utf8,
        "utf-32" => Encoding::Utf32,
        _ => Encoding::Utf16,
    }
}

fn position(line: &str, character: &str) -> Position {
    Position {
        line: number(line),
        character: number(character),
    }
}

// The offset of a position by the words of its line and its character.
fn write_offset(line: &mut Line, text: &Text, encoding: Encoding, words: &str) {
    let (row, character) = first_word(words);
    line.put_number(text.offset_of(position(row, character), encoding) as u64);
    line.put(" ");
}

/// Writes the offsets of positions.
pub fn write_offsets(alloc: Global, line: &mut Line, given: &str) -> Result<(), AllocError> {
    let text = text_of(alloc, given)?;
    for words in given.split(" :: ").skip(3) {
        write_offset(line, &text, encoding_of(given), words);
    }
    Ok(())
}

fn write_position(line: &mut Line, text: &Text, encoding: Encoding, word: &str) {
    let position = text.position_of(number(word) as usize, encoding);
    line.put_number(position.line);
    line.put(":");
    line.put_number(position.character);
    line.put(" ");
}

/// Writes the positions of offsets.
pub fn write_positions(alloc: Global, line: &mut Line, given: &str) -> Result<(), AllocError> {
    let text = text_of(alloc, given)?;
    for word in given.split(" :: ").skip(3) {
        write_position(line, &text, encoding_of(given), word);
    }
    Ok(())
}

// A range by the words of its two positions, and the text behind them.
fn range(words: &str) -> (Range, &str) {
    let (start_line, rest) = first_word(words);
    let (start_character, rest) = first_word(rest);
    let (end_line, rest) = first_word(rest);
    let (end_character, text) = first_word(rest);
    let range = Range {
        start: position(start_line, start_character),
        end: position(end_line, end_character),
    };
    (range, text)
}

// An edit: `all` and the new text, or the range's two positions and the new text.
fn change(alloc: Global, words: &str) -> Result<Change, AllocError> {
    let (range, text) = match words.strip_prefix("all ") {
        Some(text) => (None, text),
        None => {
            let (range, text) = range(words);
            (Some(range), text)
        }
    };
    let text = plain(alloc, text)?;
    Ok(Change { range, text })
}

fn write_edit(
    alloc: Global,
    line: &mut Line,
    text: &mut Text,
    encoding: Encoding,
    words: &str,
) -> Result<(), AllocError> {
    text.apply(change(alloc, words)?, encoding)?;
    line.put_shown(text.as_str());
    line.put(" :: ");
    Ok(())
}

/// Writes the whole text after each edit.
pub fn write_edits(alloc: Global, line: &mut Line, given: &str) -> Result<(), AllocError> {
    let mut text = text_of(alloc, given)?;
    for words in given.split(" :: ").skip(3) {
        write_edit(alloc, line, &mut text, encoding_of(given), words)?;
    }
    Ok(())
}
