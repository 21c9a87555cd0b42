// What a lexer finds at the front of a text.
use crate::token::Kind;

/// What stands at the front of a text, and how many bytes it takes.
#[derive(Clone, Copy, Debug, PartialEq, Eq)]
pub enum Front {
    /// Whitespace or a comment.
    Trivia(usize),
    Token(Kind, usize),
}
