// How a device does, and what it moved.
ghost use Rattle.std.specs.Prelude.{◌<◌};

use library_cases::{Line, first_word, number, plain};
use lsp_frame::{MemSink, MemSource};
use std::alloc::{AllocError, Global};

/// How often a device is interrupted first, whether it fails behind its bytes or answers 0, and the sizes of pieces that it is
/// tried with.
#[derive(Clone, Copy)]
pub struct Settings<'a> {
    interruptions: u64,
    fails: bool,
    pub sizes: &'a str,
}

impl<'a> Settings<'a> {
    /// The settings by their words: the interruptions, `fails` or `ends`, and the sizes.
    pub fn of(words: &'a str) -> Settings<'a> {
        let (interruptions, rest) = first_word(words);
        let (behind, sizes) = first_word(rest);
        Settings {
            interruptions: number(interruptions),
            fails: behind == "fails",
            sizes,
        }
    }

    /// A source of these bytes.
    pub fn source(&self, size: &str, bytes: Vec<u8>) -> MemSource {
        MemSource::new(bytes, piece(size), self.interruptions, self.fails)
    }

    /// A sink with so much room.
    pub fn sink(&self, alloc: Global, size: &str, room: &str) -> Result<MemSink, AllocError> {
        let room = number(room) as usize;
        MemSink::new(alloc, room, piece(size), self.interruptions, !self.fails)
    }
}

// The size of a piece, one byte at least.
fn piece(size: &str) -> usize
    ensures { 0 < result }
{
    let piece = number(size) as usize;
    if piece == 0 { 1 } else { piece }
}

/// Writes bytes as a field.
pub fn put_bytes(line: &mut Line, bytes: &[u8]) {
    match str::from_utf8(bytes) {
        Ok(text) => line.put_shown(text),
        Err(_) => line.put("no UTF-8"),
    }
}

/// The bytes of a field.
pub fn bytes_of(alloc: Global, field: &str) -> Result<Vec<u8>, AllocError> {
    let text = plain(alloc, field)?;
    Vec::from_slice(alloc, text.as_bytes())
}
