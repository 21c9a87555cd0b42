// The lexer: a text's tokens in order.
ghost use Rattle.std.specs.Prelude.{◌≡◌, IfOk};
ghost use Rattle.proto_lex.specs.Tokens.{tokens};

use crate::front::Front;
use crate::scan::front;
use crate::token::Token;
use std::alloc::{AllocError, Global};

/// The tokens of a text, in the order in which they stand.
///
/// Takes any text and gives all its tokens, bad ones included: a byte order mark at the front and trivia (whitespace
/// and comments) are skipped, and elsewhere the longest front that is a token is taken, as the language's lexical
/// elements say. Takes time and memory in proportion to the text's bytes.
///
/// # Errors
///
/// `AllocError` where the list of tokens can't grow. The text stays as it is, so the call may be made again.
pub fn lex(alloc: Global, text: &str) -> Result<Vec<Token>, AllocError>
    ensures { IfOk result (λ ts. ts.items ≡ tokens text.now) }
{
    let bytes = text.as_bytes();
    let mut tokens = Vec::new(alloc);
    let mut at = if bytes.starts_with(b"\xEF\xBB\xBF") {
        3
    } else {
        0
    };
    while at < bytes.len() {
        match front(&bytes[at..]) {
            Front::Trivia(len) => at += len,
            Front::Token(kind, len) => {
                tokens.push(Token {
                    kind,
                    start: at,
                    end: at + len,
                })?;
                at += len;
            }
        }
    }
    Ok(tokens)
}
