// The positions of a text's offsets, one after the other.
use crate::cursor::{Cursor, advance, front};
use crate::{Encoding, Position};
use std::marker::Model;

/// Where the positions of a text's offsets are found, one after the other: for an offset behind the last one the text is read on
/// from there, for another one from its front. Contracts see the text and the encoding.
#[derive(Drop)]
pub struct Walk<'a> {
    text: &'a str,
    encoding: Encoding,
    cursor: Cursor,
}

impl<'a> Model for Walk<'a> {
    ghost use Rattle.std.specs.Prelude.{IsUtf8};
    ghost use Rattle.doc_text.specs.Walks.{IsCursor, Walked};

    ghost Value = { Walked };

    ghost view = { λ w. record { encoding = w.encoding; text = w.text.now } };

    ghost invariant = { λ w. IsCursor w.encoding w.text.now w.cursor };
}

impl<'a> Walk<'a> {
    ghost use Rattle.std.specs.Prelude.{◌≡◌};
    ghost use Rattle.doc_text.specs.Positions.{position_of};

    /// A walk that begins at the front of a text.
    pub fn new(text: &'a str, encoding: Encoding) -> Walk<'a>
        ensures { result ≡ record { encoding = encoding; text = text.now } }
    {
        Walk {
            text,
            encoding,
            cursor: front(),
        }
    }

    /// The position of an offset, as [`Text::position_of`](crate::Text::position_of) answers it.
    pub fn position_of(&mut self, offset: usize) -> Position
        ensures position { result ≡ position_of self.old.encoding self.old.text offset }
        ensures same { self.new ≡ self.old }
    {
        let from = if self.cursor.at <= offset {
            self.cursor
        } else {
            front()
        };
        self.cursor = advance(self.text.as_bytes(), from, offset, self.encoding);
        self.cursor.position
    }
}
