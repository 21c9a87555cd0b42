// Comments, and the slash that begins none.
ghost use Rattle.std.specs.Prelude.{◌≡◌, ◌<◌, ◌≤◌, ◌==◌, Bool, false, length, slice_index};
ghost use Rattle.std.specs.List.{position_or_len};
ghost use Rattle.std.specs.Str.{byte};
ghost use Rattle.proto_lex.specs.Forms.{IsCommentRest};
ghost use Rattle.proto_lex.specs.Scanner.{IsLongestFront, IsFront};

use crate::front::Front;
use crate::token::{Kind, Reason};

/// Where a block comment ends, in the bytes after its `/*`, and whether a `*/` closes it there.
fn comment_end(bytes: &[u8]) -> (usize, bool)
    ensures ends { IsLongestFront Bool IsCommentRest bytes.now result.0 result.1 }
    ensures whole { result.1 ≡ false → result.0 ≡ length bytes.now }
{
    let mut at = 0;
    while at + 1 < bytes.len() {
        if bytes[at] == b'*' && bytes[at + 1] == b'/' {
            return (at + 2, true);
        }
        at += 1;
    }
    (bytes.len(), false)
}

/// How many bytes stand before the first line feed, or all of them.
fn line_len(bytes: &[u8]) -> usize
    ensures len { result ≡ position_or_len (λ x. x == byte "\n") bytes.now }
    ensures in_range { result ≤ length bytes.now }
{
    let mut len = 0;
    while len < bytes.len() && bytes[len] != b'\n' {
        len += 1;
    }
    len
}

/// The comment or symbol at the front, which is a slash.
pub fn slash(rest: &[u8]) -> Front
    requires some { 0 < length rest.now }
    requires first { slice_index rest.now 0 ≡ byte "/" }
    ensures { IsFront rest.now result }
{
    if rest.len() == 1 {
        return Front::Token(Kind::Symbol, 1);
    }
    match rest[1] {
        b'/' => Front::Trivia(2 + line_len(&rest[2..])),
        b'*' => {
            let (len, closed) = comment_end(&rest[2..]);
            if closed {
                Front::Trivia(2 + len)
            } else {
                Front::Token(Kind::Bad(Reason::Comment), 2 + len)
            }
        }
        _ => Front::Token(Kind::Symbol, 1),
    }
}
