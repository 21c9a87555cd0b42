// Numbers: the run of bytes that begins as a number does, and which kind of number it is.
ghost use Rattle.std.specs.Prelude.{◌≡◌, ◌<◌, ◌==◌, length, position, IfSome};
ghost use Rattle.std.specs.List.{list_all};
ghost use Rattle.std.specs.Char.{is_ascii_digit, is_ascii_hexdigit};
ghost use Rattle.std.specs.Str.{byte};
ghost use Rattle.proto_lex.specs.Scanner.{IsLongestFront, IsFront};
ghost use Rattle.proto_lex.specs.Numbers.{is_sign, is_exponent_mark, is_octal, is_hex, is_digits, is_int, is_point, is_exponent, is_float, number_kind, continues_run, IsRunRest, BeginsWithNumber};

use crate::bytes::is_name_byte;
use crate::front::Front;
use crate::token::{Kind, Reason};

#[tactic(auto, unfolding(crate::specs::Numbers::is_sign))]
fn is_sign(byte: u8) -> bool
    ensures { result ≡ is_sign byte }
{
    byte == b'+' || byte == b'-'
}

#[tactic(auto, unfolding(crate::specs::Numbers::is_exponent_mark))]
fn is_exponent_mark(byte: u8) -> bool
    ensures { result ≡ is_exponent_mark byte }
{
    byte == b'e' || byte == b'E'
}

#[tactic(auto, unfolding(crate::specs::Numbers::is_octal))]
fn is_octal(byte: u8) -> bool
    ensures { result ≡ is_octal byte }
{
    byte.is_ascii_digit() && byte < b'8'
}

/// Whether the bytes begin as a hexadecimal number does.
#[tactic(auto, unfolding(crate::specs::Numbers::is_hex, crate::specs::Numbers::is_hex_mark))]
fn is_hex(bytes: &[u8]) -> bool
    ensures { result ≡ is_hex bytes.now }
{
    bytes.len() > 1 && bytes[0] == b'0' && (bytes[1] == b'x' || bytes[1] == b'X')
}

fn all_digits(bytes: &[u8]) -> bool
    ensures { result ≡ list_all is_ascii_digit bytes.now }
{
    bytes.iter().all(|byte| byte.is_ascii_digit())
}

fn all_octal(bytes: &[u8]) -> bool
    ensures { result ≡ list_all is_octal bytes.now }
{
    bytes.iter().all(|byte| is_octal(*byte))
}

fn all_hex(bytes: &[u8]) -> bool
    ensures { result ≡ list_all is_ascii_hexdigit bytes.now }
{
    bytes.iter().all(|byte| byte.is_ascii_hexdigit())
}

fn find_dot(bytes: &[u8]) -> Option<usize>
    ensures place { result ≡ position (λ b. b == byte ".") bytes.now }
    ensures in_range { IfSome result (λ i. i < length bytes.now) }
{
    bytes.iter().position(|byte| *byte == b'.')
}

fn find_exponent(bytes: &[u8]) -> Option<usize>
    ensures place { result ≡ position is_exponent_mark bytes.now }
    ensures in_range { IfSome result (λ i. i < length bytes.now) }
{
    bytes.iter().position(|byte| is_exponent_mark(*byte))
}

#[tactic(auto, unfolding(crate::specs::Numbers::is_digits))]
fn is_digits(bytes: &[u8]) -> bool
    ensures { result ≡ is_digits bytes.now }
{
    !bytes.is_empty() && all_digits(bytes)
}

#[tactic(auto, unfolding(crate::specs::Numbers::is_int))]
fn is_int(run: &[u8]) -> bool
    requires { 0 < length run.now }
    ensures { result ≡ is_int run.now }
{
    if is_hex(run) {
        run.len() > 2 && all_hex(&run[2..])
    } else if run[0] == b'0' {
        all_octal(&run[1..])
    } else {
        is_digits(run)
    }
}

#[tactic(auto, unfolding(crate::specs::Numbers::is_point, crate::specs::Numbers::is_point_at))]
fn is_point(bytes: &[u8]) -> bool
    ensures { result ≡ is_point bytes.now }
{
    match find_dot(bytes) {
        Some(dot) => bytes.len() > 1 && all_digits(&bytes[..dot]) && all_digits(&bytes[dot + 1..]),
        None => false,
    }
}

#[tactic(auto, unfolding(crate::specs::Numbers::is_exponent))]
fn is_exponent(bytes: &[u8]) -> bool
    ensures { result ≡ is_exponent bytes.now }
{
    if !bytes.is_empty() && is_sign(bytes[0]) {
        is_digits(&bytes[1..])
    } else {
        is_digits(bytes)
    }
}

#[tactic(auto, unfolding(crate::specs::Numbers::is_float, crate::specs::Numbers::is_float_at))]
fn is_float(run: &[u8]) -> bool
    ensures { result ≡ is_float run.now }
{
    match find_exponent(run) {
        Some(mark) => {
            let mantissa = &run[..mark];
            (is_point(mantissa) || is_digits(mantissa)) && is_exponent(&run[mark + 1..])
        }
        None => is_point(run),
    }
}

/// Which kind of number a run of bytes is.
#[tactic(auto, unfolding(crate::specs::Numbers::number_kind))]
fn number_kind(run: &[u8]) -> Kind
    requires { 0 < length run.now }
    ensures { result ≡ number_kind run.now }
{
    if is_int(run) {
        Kind::Int
    } else if is_float(run) {
        Kind::Float
    } else {
        Kind::Bad(Reason::Number)
    }
}

#[tactic(auto, unfolding(crate::specs::Numbers::continues_run))]
fn continues_run(hex: bool, before: u8, byte: u8) -> bool
    ensures { result ≡ continues_run hex before byte }
{
    is_name_byte(byte) || byte == b'.' || (is_sign(byte) && is_exponent_mark(before) && !hex)
}

/// How many bytes go on with a number whose first byte is `first`.
fn run_len(bytes: &[u8], hex: bool, first: u8) -> usize
    ensures { IsLongestFront (Unit {0}) (λ _. IsRunRest hex first) bytes.now result tt }
{
    let mut before = first;
    let mut len = 0;
    while len < bytes.len() && continues_run(hex, before, bytes[len]) {
        before = bytes[len];
        len += 1;
    }
    len
}

/// The number at the front.
pub fn number(rest: &[u8]) -> Front
    requires { BeginsWithNumber rest.now }
    ensures { IsFront rest.now result }
{
    let len = 1 + run_len(&rest[1..], is_hex(rest), rest[0]);
    Front::Token(number_kind(&rest[..len]), len)
}
