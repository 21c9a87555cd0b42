// The tokens of a text one by one.
ghost use Rattle.std.specs.Prelude.{◌≡◌, ◌<◌, ◌≤◌, [], ◌∷◌, length, IfSome, MatchOption};
ghost use Rattle.proto_lex.specs.Rest.{tokens_after};
ghost use Rattle.proto_lex.specs.Tokens.{tokens};

use crate::front::Front;
use crate::scan::front;
use crate::token::Token;

/// The byte offset from which on the tokens of a text stand: behind a byte order mark, if one is at the front.
///
/// Takes the text's bytes, no memory, and the same time for any text.
pub fn first_offset(text: &[u8]) -> usize
    ensures within { result ≤ length text.now }
    ensures value { tokens text.now ≡ tokens_after text.now result }
{
    if text.starts_with(b"\xEF\xBB\xBF") {
        3
    } else {
        0
    }
}

/// The first token of a text from a byte offset on, if any stands there.
///
/// Takes the text's bytes, and an offset up to their end. From `first_offset` on, and then from each token's end on,
/// it gives the tokens that `lex` lists, bad ones included, and at last none. Takes no memory, and time in proportion
/// to the bytes up to the token's end.
pub fn next_token(text: &[u8], from: usize) -> Option<Token>
    requires { from ≤ length text.now }
    ensures order { IfSome result (λ t. (from ≤ t.start) × (t.start < t.«end») × (t.«end» ≤ length text.now)) }
    ensures value { MatchOption result (tokens_after text.now from ≡ []) (λ t. tokens_after text.now from ≡ t ∷ tokens_after text.now t.«end») }
{
    let mut at = from;
    while at < text.len() {
        match front(&text[at..]) {
            Front::Trivia(len) => at += len,
            Front::Token(kind, len) => {
                return Some(Token {
                    kind,
                    start: at,
                    end: at + len,
                });
            }
        }
    }
    None
}
