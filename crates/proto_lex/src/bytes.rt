// Classes of bytes: what a byte can begin, and which bytes go on with a name or a character.
ghost use Rattle.std.specs.Prelude.{◌≡◌, ◌≤◌, length};
ghost use Rattle.std.specs.List.{prefix_len};
ghost use Rattle.proto_lex.specs.Bytes.{class_of, is_name_byte, is_continuation};

/// What a byte can begin.
#[derive(Clone, Copy, Debug, PartialEq, Eq)]
pub enum Class {
    Letter,
    Digit,
    Quote,
    Space,
    Symbol,
    Other,
}

// What each byte can begin: 1 a name, 2 a number, 3 a string, 4 whitespace, 5 a symbol, 0 none of them.
static CLASSES: [u8; 256] = *b"\
    00000000044444000000000000000000\
    40300003550555552222222222555550\
    01111111111111111111111111150501\
    01111111111111111111111111150500\
    00000000000000000000000000000000\
    00000000000000000000000000000000\
    00000000000000000000000000000000\
    00000000000000000000000000000000";

/// What a byte can begin.
pub fn class_of(byte: u8) -> Class
    ensures { result ≡ class_of byte }
{
    match CLASSES[byte as usize] {
        b'1' => Class::Letter,
        b'2' => Class::Digit,
        b'3' => Class::Quote,
        b'4' => Class::Space,
        b'5' => Class::Symbol,
        _ => Class::Other,
    }
}

/// Whether a name goes on with the byte.
pub fn is_name_byte(byte: u8) -> bool
    ensures { result ≡ is_name_byte byte }
{
    match class_of(byte) {
        Class::Letter | Class::Digit => true,
        _ => false,
    }
}

/// Whether a character past ASCII goes on with the byte.
#[tactic(auto, unfolding(crate::specs::Bytes::is_continuation))]
fn is_continuation(byte: u8) -> bool
    ensures { result ≡ is_continuation byte }
{
    byte >= 0x80 && byte < 0xC0
}

/// How many bytes at the front go on with a name.
pub fn name_len(bytes: &[u8]) -> usize
    ensures len { result ≡ prefix_len is_name_byte bytes.now }
    ensures in_range { result ≤ length bytes.now }
{
    let mut len = 0;
    while len < bytes.len() && is_name_byte(bytes[len]) {
        len += 1;
    }
    len
}

/// How many bytes at the front go on with a character.
pub fn continuation_len(bytes: &[u8]) -> usize
    ensures len { result ≡ prefix_len is_continuation bytes.now }
    ensures in_range { result ≤ length bytes.now }
{
    let mut len = 0;
    while len < bytes.len() && is_continuation(bytes[len]) {
        len += 1;
    }
    len
}
