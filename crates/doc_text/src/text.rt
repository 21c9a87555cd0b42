// The text of a document (Language Server Protocol 3.17, "Text Documents").
ghost use Rattle.std.specs.Prelude.{◌≡◌, ℕ, ◌≤◌, List, length, map, IsCharBoundary, IfOk, OnOk, OnErr, IsOk, None};
ghost use Rattle.std.specs.String.{string_bytes};

use crate::{Change, Encoding, Position, cursor, scan};
use std::alloc::{AllocError, Global};
use std::marker::Model;

/// A text, which contracts see as the list of its bytes. Its lines end with `\n`, with `\r\n` or with `\r`; the
/// last one has no end, and is empty in a text that ends with a line end, or is empty.
#[derive(Drop)]
pub struct Text {
    text: String,
}

impl Model for Text {
    ghost Value = { List ℕ };

    ghost view = { λ t. string_bytes t.text };
}

impl Text {
    ghost use Rattle.doc_text.specs.Positions.{offset_of, position_of};
    ghost use Rattle.doc_text.specs.Edits.{edited};

    /// A document with this text. Takes no memory.
    pub fn new(text: String) -> Text
        ensures { result ≡ string_bytes text }
    {
        Text { text }
    }

    /// The whole text.
    pub fn as_str(&self) -> &str
        ensures { result.now ≡ self.now }
    {
        self.text.as_str()
    }

    /// The whole text, which is moved out. Takes no memory.
    pub fn into_string(self) -> String
        ensures { string_bytes result ≡ self }
    {
        let Text { text: whole } = self;
        whole
    }

    /// The byte offset of a position, from 0 to the text's length, between two characters. A character past the
    /// line's length means the line's end, before its line end; a line past the last one means the text's end;
    /// a place inside a character goes back to the character's start. Takes no memory, and reads the text once,
    /// up to the position.
    pub fn offset_of(&self, position: Position, encoding: Encoding) -> usize
        ensures value { result ≡ offset_of encoding position self.now }
        ensures boundary { IsCharBoundary self.now result }
    {
        scan::offset_of(self.as_str(), position, encoding)
    }

    /// The position of a byte offset: its line, and the units of the line's characters that end at or before it.
    /// An offset inside a character has the position of the character's start, one inside a line end that of the
    /// line's end, and one past the text that of the text's end. Takes no memory, and reads the text once, up to
    /// the offset.
    pub fn position_of(&self, offset: usize, encoding: Encoding) -> Position
        ensures { result ≡ position_of encoding self.now offset }
    {
        cursor::position_of(self.as_str(), offset, encoding)
    }

    /// The positions of many byte offsets, as [`positions_of`](crate::positions_of) answers them of the whole text.
    pub fn positions_of(
        &self,
        alloc: Global,
        offsets: &[usize],
        encoding: Encoding,
    ) -> Result<Vec<Position>, AllocError>
        ensures { IfOk result (λ positions. positions.items ≡ map (position_of encoding self.now) offsets.now) }
    {
        cursor::positions_of(alloc, self.as_str(), offsets, encoding)
    }

    /// Replaces the bytes between the offsets of a range's two positions, the lesser offset first, by the change's
    /// text; without a range it replaces the whole text. Positions count in the text as it stands before the
    /// change. An error is want of memory, and leaves the text as it was.
    pub fn apply(&mut self, change: Change, encoding: Encoding) -> Result<(), AllocError>
        ensures ok { OnOk result (self.new ≡ edited encoding change self.old) }
        ensures err { OnErr result (self.new ≡ self.old) }
        // A whole text moves in, and takes no memory.
        ensures whole { change.range ≡ None → IsOk result }
    {
        let Change { range, text } = change;
        match range {
            None => {
                self.text = text;
                Ok(())
            }
            Some(range) => {
                let start = scan::offset_of(self.as_str(), range.start, encoding);
                let end = scan::offset_of(self.as_str(), range.end, encoding);
                self.text
                    .replace_range(start.min(end)..start.max(end), text.as_str())
            }
        }
    }
}
