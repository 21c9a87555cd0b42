// Positions of byte offsets, by a cursor that goes through a text character by character.
ghost use Rattle.std.specs.Prelude.{◌≡◌, ℕ, ◌+◌, ◌≤◌, ◌<◌, List, length, map, slice_index, IfOk};
ghost use Rattle.std.specs.List.Sorted.{IsNonDecreasing};
ghost use Rattle.doc_text.specs.Positions.{position_of};
ghost use Rattle.doc_text.specs.Bytes.{lead_len};
ghost use Rattle.doc_text.specs.Walks.{IsCursor};

use crate::scan::{ends_line, is_lf_or_cr, is_simple, lead_len, lead_units};
use crate::{Encoding, Position};
use std::alloc::{AllocError, Global};

// An offset between two characters, and its position.
#[derive(Clone, Copy, Debug, PartialEq, Eq)]
pub(crate) struct Cursor {
    pub(crate) at: usize,
    pub(crate) position: Position,
}

// A cursor at the front of a text.
pub(crate) fn front() -> Cursor
    ensures at { result.at ≡ 0 }
    ensures line { result.position.line ≡ 0 }
    ensures character { result.position.character ≡ 0 }
{
    Cursor {
        at: 0,
        position: Position {
            line: 0,
            character: 0,
        },
    }
}

// The cursor behind the character that it stands at.
fn step(text: &[u8], cursor: Cursor, encoding: Encoding) -> Cursor
    requires inside { cursor.at < length text.now }
    requires cursor { IsCursor encoding text.now cursor }
    ensures at { result.at ≡ cursor.at + lead_len (slice_index text.now cursor.at) }
    ensures cursor { IsCursor encoding text.now result }
{
    let lead = text[cursor.at];
    let Position { line, character } = cursor.position;
    // A shortcut to the same answer, measured to be 3 times as fast.
    if is_simple(lead) {
        return Cursor {
            at: cursor.at + 1,
            position: Position {
                line,
                character: character + 1,
            },
        };
    }
    let position = if ends_line(text, cursor.at) {
        Position {
            line: line + 1,
            character: 0,
        }
    } else if is_lf_or_cr(lead) {
        cursor.position
    } else {
        Position {
            line,
            character: character + lead_units(encoding, lead),
        }
    };
    Cursor {
        at: cursor.at + lead_len(lead),
        position,
    }
}

// The cursor behind the last character that ends at or before an offset.
pub(crate) fn advance(text: &[u8], from: Cursor, offset: usize, encoding: Encoding) -> Cursor
    requires before { from.at ≤ offset }
    requires cursor { IsCursor encoding text.now from }
    ensures before { result.at ≤ offset }
    ensures cursor { IsCursor encoding text.now result }
    ensures position { result.position ≡ position_of encoding text.now offset }
{
    let mut cursor = from;
    while cursor.at < text.len() && lead_len(text[cursor.at]) <= offset - cursor.at {
        cursor = step(text, cursor, encoding);
    }
    cursor
}

// The position of an offset.
pub(crate) fn position_of(text: &str, offset: usize, encoding: Encoding) -> Position
    ensures { result ≡ position_of encoding text.now offset }
{
    advance(text.as_bytes(), front(), offset, encoding).position
}

// The positions of offsets that ascend, in one pass.
fn positions_in_turn(
    alloc: Global,
    text: &str,
    offsets: &[usize],
    encoding: Encoding,
) -> Result<Vec<Position>, AllocError>
    requires { IsNonDecreasing offsets.now }
    ensures { IfOk result (λ positions. positions.items ≡ map (position_of encoding text.now) offsets.now) }
{
    let bytes = text.as_bytes();
    let mut cursor = front();
    let mut positions = Vec::with_capacity(alloc, offsets.len())?;
    for offset in offsets {
        cursor = advance(bytes, cursor, *offset, encoding);
        positions.push(cursor.position)?;
    }
    Ok(positions)
}

// The position of an offset, one of those whose positions are known or another.
fn known_position(
    text: &str,
    offset: usize,
    encoding: Encoding,
    offsets: &[usize],
    positions: &[Position],
) -> Position
    requires { positions.now ≡ map (position_of encoding text.now) offsets.now }
    ensures { result ≡ position_of encoding text.now offset }
{
    match offsets.binary_search(&offset) {
        Ok(at) => positions[at],
        Err(_) => position_of(text, offset, encoding),
    }
}

/// The positions of many byte offsets of a text, each as [`Text::position_of`](crate::Text::position_of) answers it, in
/// the order of the offsets. The text is read once. Offsets that don't ascend are sorted first. An error is want of
/// memory.
pub fn positions_of(
    alloc: Global,
    text: &str,
    offsets: &[usize],
    encoding: Encoding,
) -> Result<Vec<Position>, AllocError>
    ensures { IfOk result (λ positions. positions.items ≡ map (position_of encoding text.now) offsets.now) }
{
    if offsets.is_sorted() {
        return positions_in_turn(alloc, text, offsets, encoding);
    }
    let mut sorted = Vec::from_slice(alloc, offsets)?;
    sorted.sort_unstable();
    let known = positions_in_turn(alloc, text, sorted.as_slice(), encoding)?;
    let mut positions = Vec::with_capacity(alloc, offsets.len())?;
    for offset in offsets {
        positions.push(known_position(
            text,
            *offset,
            encoding,
            sorted.as_slice(),
            known.as_slice(),
        ))?;
    }
    Ok(positions)
}
