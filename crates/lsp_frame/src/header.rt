// What a header part says of the body's length.
ghost use Rattle.std.specs.Prelude.{◌≡◌, ◌↔◌, IsTrue, codes, if◌then◌else◌, ◌≤◌, ◌+◌, length};
ghost use Rattle.std.specs.Str.{str_eq_ignore_ascii_case};
ghost use Rattle.std.specs.Str.Parse.{digits_value};
ghost use Rattle.std.specs.List.{position};
ghost use Rattle.lsp_frame.specs.Header.{without_first_spaces, without_last_spaces, is_length, field_length, content_length, header_lines, last_length, body_length, is_colon};
ghost use Rattle.lsp_frame.specs.Steps.{EndsLine, up_to_empty};

use crate::fault::FrameFault;

// The longest body, in bytes.
const MAX_BODY: u64 = 67_108_864;

// The bytes without the spaces before them.
fn without_first_spaces(bytes: &[u8]) -> &[u8]
    ensures { result.now ≡ without_first_spaces bytes.now }
{
    let mut rest = bytes;
    while let [b' ', others @ ..] = rest {
        rest = others;
    }
    rest
}

// The bytes without the spaces after them.
fn without_last_spaces(bytes: &[u8]) -> &[u8]
    ensures { result.now ≡ without_last_spaces bytes.now }
{
    let mut rest = bytes;
    while let [others @ .., b' '] = rest {
        rest = others;
    }
    rest
}

// The number that 1 to 10 decimal digits write.
fn number_of(value: &[u8]) -> Option<u64>
    ensures { result ≡ (if is_length value.now then Some (digits_value 10 value.now) else None) }
{
    if value.is_empty() || value.len() > 10 {
        return None;
    }
    let mut number = 0;
    for b in value {
        if !b.is_ascii_digit() {
            return None;
        }
        number = 10 * number + u64::from(b - b'0');
    }
    Some(number)
}

// The place of the first colon.
fn colon_of(line: &[u8]) -> Option<usize>
    ensures { result ≡ position is_colon line.now }
{
    line.iter().position(|b| *b == b':')
}

fn is_content_length(name: &[u8]) -> bool
    ensures { result ≡ str_eq_ignore_ascii_case name.now (codes "Content-Length") }
{
    name.eq_ignore_ascii_case(b"Content-Length")
}

// The length that a field gives, if it is a `Content-Length`.
fn field_length(name: &[u8], value: &[u8]) -> Result<Option<u64>, FrameFault>
    ensures { result ≡ field_length name.now value.now }
{
    if !is_content_length(name) {
        return Ok(None);
    }
    match number_of(value) {
        Some(number) => Ok(Some(number)),
        None => Err(FrameFault::BadLength),
    }
}

// The `Content-Length` of a header line, if it is one.
fn content_length(line: &[u8]) -> Result<Option<u64>, FrameFault>
    ensures { result ≡ content_length line.now }
{
    match colon_of(line) {
        None | Some(0) => Err(FrameFault::BadHeader),
        Some(colon) => {
            let value = without_first_spaces(&line[colon + 1..]);
            field_length(&line[..colon], without_last_spaces(value))
        }
    }
}

// The two bytes are `\r\n`.
fn is_line_end(first: u8, second: u8) -> bool
    ensures { IsTrue result ↔ ((first ≡ 13) × (second ≡ 10)) }
{
    first == b'\r' && second == b'\n'
}

// The place of the first `\r\n`.
fn first_line_end(bytes: &[u8]) -> Option<usize>
    ensures { EndsLine bytes.now result }
{
    for i in 1..bytes.len() {
        if is_line_end(bytes[i - 1], bytes[i]) {
            return Some(i - 1);
        }
    }
    None
}

// The first line, and what stands behind its end.
fn first_line(bytes: &[u8]) -> (&[u8], &[u8])
    ensures shorter { length result.0.now + length result.1.now ≤ length bytes.now }
    ensures lines { header_lines bytes.now ≡ up_to_empty result.0.now (header_lines result.1.now) }
{
    match first_line_end(bytes) {
        Some(end) => (&bytes[..end], &bytes[end + 2..]),
        None => (bytes, &bytes[bytes.len()..]),
    }
}

// The last length that the lines of a header part give.
fn last_length(header: &[u8]) -> Result<Option<u64>, FrameFault>
    ensures { result ≡ last_length (header_lines header.now) }
{
    let mut rest = header;
    let mut found = None;
    'lines: loop {
        let (line, others) = first_line(rest);
        if line.is_empty() {
            return Ok(found);
        }
        found = content_length(line)?.or(found);
        rest = others;
    }
}

// The length of the body that a header part announces.
pub(crate) fn body_length(header: &[u8]) -> Result<u64, FrameFault>
    ensures { result ≡ body_length header.now }
{
    match last_length(header)? {
        None => Err(FrameFault::NoLength),
        Some(length) => {
            if length > MAX_BODY {
                Err(FrameFault::BodyTooLong)
            } else {
                Ok(length)
            }
        }
    }
}
