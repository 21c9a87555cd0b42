// The numbers of fields and of enum values.

ghost use Rattle.std.specs.Prelude.{◌≡◌, ◌≤◌, ℕ, min};
ghost use Rattle.proto_decls.specs.Numbers as spec;

use proto_decls::{Numbering, text_at};
use proto_tree::{Number, Span};

// A value that is too large for every count. All greater ones are taken as this one.
const TOO_LARGE: u64 = 4_294_967_296;

fn digit(byte: u8) -> u8
    ensures { result ≡ spec.digit byte }
{
    if byte <= 57 {
        byte.saturating_sub(48)
    } else if byte <= 70 {
        byte.saturating_sub(55)
    } else {
        byte.saturating_sub(87)
    }
}

fn spelled(base: u64, digits: &[u8]) -> u64
    requires low { 1 ≤ base }
    requires high { base ≤ 16 }
    ensures { result ≡ min (spec.spelled base digits.now) TOO_LARGE }
{
    let mut value: u64 = 0;
    'digits: for byte in digits {
        value = (value * base + u64::from(digit(*byte))).min(TOO_LARGE);
    }
    value
}

fn int_value(digits: &[u8]) -> u64
    ensures { result ≡ min (spec.int_value digits.now) TOO_LARGE }
{
    let first = digits.first().copied().unwrap_or(0);
    let second = digits.get(1).copied().unwrap_or(0);
    if first != b'0' {
        spelled(10, digits)
    } else if second == b'x' || second == b'X' {
        spelled(16, digits.get(2..).unwrap_or(&[]))
    } else {
        spelled(8, digits)
    }
}

fn field_value(is_negative: bool, value: u64) -> Option<u32>
    ensures { (v : ℕ) → value ≡ min v TOO_LARGE → result ≡ spec.field_value is_negative v }
{
    if !is_negative && 1 <= value && value <= 536_870_911 {
        Some(value as u32)
    } else {
        None
    }
}

fn enum_value(is_negative: bool, value: u64) -> Option<u32>
    ensures { (v : ℕ) → value ≡ min v TOO_LARGE → result ≡ spec.enum_value is_negative v }
{
    if is_negative {
        if value <= 2_147_483_648 {
            Some(2_147_483_648 - value as u32)
        } else {
            None
        }
    } else if value <= 2_147_483_647 {
        Some(2_147_483_648 + value as u32)
    } else {
        None
    }
}

// The value of a number in its count, or nothing where it is out of range.
pub fn value_of(numbering: Numbering, text: &str, number: Number) -> Option<u32>
    ensures { result ≡ spec.value_of numbering text.now number }
{
    let value = int_value(text_at(text, number.digits).as_bytes());
    match numbering {
        Numbering::Fields => field_value(number.is_negative, value),
        Numbering::Values => enum_value(number.is_negative, value),
    }
}

// A number without a minus.
pub fn plain(span: Span) -> Number
    ensures { result ≡ spec.plain span }
{
    Number {
        span,
        is_negative: false,
        digits: span,
    }
}

// The greatest number, `max`.
pub fn greatest(numbering: Numbering) -> u32
    ensures { result ≡ spec.greatest numbering }
{
    match numbering {
        Numbering::Fields => 536_870_911,
        Numbering::Values => 4_294_967_295,
    }
}

// The number 0 of an enum, in the count of its values.
pub const ZERO_VALUE: u32 = 2_147_483_648;
