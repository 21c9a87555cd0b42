// Tokens of texts.
use crate::line::Line;
use crate::marks::plain;
use proto_lex::{Kind, Reason, Token, lex};
use std::alloc::{AllocError, Global};
use std::mem::size_of;

/// Whether a token takes at most 24 bytes.
pub fn write_size(line: &mut Line) {
    line.put_bool(size_of::<Token>() <= 24);
}

/// A kind and the offsets of each token of a text.
pub fn write_tokens(alloc: Global, line: &mut Line, field: &str) -> Result<(), AllocError> {
    let text = plain(alloc, field)?;
    write_all(alloc, line, text.as_str())
}

fn write_all(alloc: Global, line: &mut Line, text: &str) -> Result<(), AllocError> {
    for token in &lex(alloc, text)? {
        write_token(line, *token);
    }
    Ok(())
}

fn write_token(line: &mut Line, token: Token) {
    line.put(kind(token.kind));
    line.put(" ");
    line.put_number(token.start as u64);
    line.put("-");
    line.put_number(token.end as u64);
    line.put(", ");
}

fn kind(kind: Kind) -> &'static str {
    match kind {
        Kind::Ident => "Ident",
        Kind::Int => "Int",
        Kind::Float => "Float",
        Kind::Str => "Str",
        Kind::Symbol => "Symbol",
        Kind::Bad(Reason::Character) => "Bad(Character)",
        Kind::Bad(Reason::Number) => "Bad(Number)",
        Kind::Bad(Reason::String) => "Bad(String)",
        Kind::Bad(Reason::Comment) => "Bad(Comment)",
    }
}
