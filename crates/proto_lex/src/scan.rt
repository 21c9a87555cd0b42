// The scanner's step: what stands at the front of a text.
ghost use Rattle.std.specs.Prelude.{◌≡◌, ◌<◌, length, slice_index};
ghost use Rattle.std.specs.Str.{byte};
ghost use Rattle.proto_lex.specs.Scanner.{IsFront, BeginsWithSymbol};

use crate::bytes::{Class, class_of, continuation_len, name_len};
use crate::comment::slash;
use crate::front::Front;
use crate::number::number;
use crate::string::string_end;
use crate::token::{Kind, Reason};

/// The number or symbol at the front, which is a dot.
fn dot(rest: &[u8]) -> Front
    requires some { 0 < length rest.now }
    requires first { slice_index rest.now 0 ≡ byte "." }
    ensures { IsFront rest.now result }
{
    if rest.len() == 1 {
        return Front::Token(Kind::Symbol, 1);
    }
    match class_of(rest[1]) {
        Class::Digit => number(rest),
        _ => Front::Token(Kind::Symbol, 1),
    }
}

/// The comment, number or symbol at the front.
fn symbol(rest: &[u8]) -> Front
    requires { BeginsWithSymbol rest.now }
    ensures { IsFront rest.now result }
{
    match rest[0] {
        b'/' => slash(rest),
        b'.' => dot(rest),
        _ => Front::Token(Kind::Symbol, 1),
    }
}

/// The trivia or the token at the front.
pub fn front(rest: &[u8]) -> Front
    requires { 0 < length rest.now }
    ensures { IsFront rest.now result }
{
    let first = rest[0];
    let tail = &rest[1..];
    match class_of(first) {
        Class::Space => Front::Trivia(1),
        Class::Letter => Front::Token(Kind::Ident, 1 + name_len(tail)),
        Class::Digit => number(rest),
        Class::Symbol => symbol(rest),
        Class::Quote => {
            let (len, closed) = string_end(tail, first);
            let kind = if closed {
                Kind::Str
            } else {
                Kind::Bad(Reason::String)
            };
            Front::Token(kind, 1 + len)
        }
        Class::Other => {
            let len = if first < 0x80 {
                0
            } else {
                continuation_len(tail)
            };
            Front::Token(Kind::Bad(Reason::Character), 1 + len)
        }
    }
}
