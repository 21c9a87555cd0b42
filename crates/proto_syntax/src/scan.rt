// The terminals of a text's tokens.

ghost use Rattle.std.specs.Prelude.{◌≡◌, ◌≤◌, ◌<◌, ◌∷◌, [], ◌++◌, ◌==◌, length, unwrap_or, All, IfOk, OnOk};
ghost use Rattle.std.specs.List.{list_any};
ghost use Rattle.std.specs.Map.{lookup};
ghost use Rattle.std.specs.Str.{bytes_eq};
ghost use Rattle.proto_lex.specs.Tokens.{tokens};
ghost use Rattle.proto_tree.specs.Lexeme as spec;
ghost use Rattle.proto_tree.specs.Read as tree;
ghost use Rattle.proto_tree.specs.declared.lexeme.Terminal.TheVariants as w;

use proto_lex::{Kind, Token, first_offset, next_token};
use proto_tree::{Fault, Lexeme, Span, SyntaxProblem, Terminal};
use sqlite_items::Items;
use std::alloc::{AllocError, Global};

// Whether a name is this word.
pub fn is(name: &[u8], terminal: &str) -> bool
    ensures { result ≡ bytes_eq name.now terminal.now }
{
    name == terminal.as_bytes()
}

#[tactic(auto, unfolding(proto_tree::specs::Lexeme::keyword))]
fn keyword(name: &[u8]) -> Terminal
    ensures { result ≡ spec.keyword name.now }
{
    if is(name, "message") {
        Terminal::Message
    } else if is(name, "enum") {
        Terminal::Enum
    } else if is(name, "service") {
        Terminal::Service
    } else if is(name, "oneof") {
        Terminal::Oneof
    } else if is(name, "extend") {
        Terminal::Extend
    } else if is(name, "rpc") {
        Terminal::Rpc
    } else if is(name, "syntax") {
        Terminal::Syntax
    } else if is(name, "import") {
        Terminal::Import
    } else if is(name, "package") {
        Terminal::Package
    } else if is(name, "option") {
        Terminal::Option
    } else if is(name, "reserved") {
        Terminal::Reserved
    } else {
        inner_keyword(name)
    }
}

// A terminal that stands inside a statement.
fn inner_keyword(name: &[u8]) -> Terminal
    ensures { result ≡ unwrap_or (lookup (bytes_eq name.now) spec.inner_words) w.Name }
{
    if is(name, "weak") {
        Terminal::Weak
    } else if is(name, "public") {
        Terminal::Public
    } else if is(name, "repeated") {
        Terminal::Repeated
    } else if is(name, "optional") {
        Terminal::Optional
    } else if is(name, "map") {
        Terminal::Map
    } else if is(name, "stream") {
        Terminal::Stream
    } else if is(name, "returns") {
        Terminal::Returns
    } else if is(name, "to") {
        Terminal::To
    } else if is(name, "max") {
        Terminal::Max
    } else {
        Terminal::Name
    }
}

fn symbol(byte: u8) -> Terminal
    ensures { result ≡ spec.symbol byte }
{
    match byte {
        b'{' => Terminal::OpenBrace,
        b'}' => Terminal::CloseBrace,
        b'(' => Terminal::OpenParen,
        b')' => Terminal::CloseParen,
        b'[' => Terminal::OpenBracket,
        b']' => Terminal::CloseBracket,
        b'<' => Terminal::Less,
        b'>' => Terminal::Greater,
        b';' => Terminal::Semicolon,
        b',' => Terminal::Comma,
        b'=' => Terminal::Equals,
        b'.' => Terminal::Dot,
        b':' => Terminal::Colon,
        b'+' => Terminal::Plus,
        b'-' => Terminal::Minus,
        _ => Terminal::Slash,
    }
}

fn has_backslash(text: &[u8]) -> bool
    ensures { result ≡ list_any (λ b. b == 92) text.now }
{
    text.iter().any(|b| *b == b'\\')
}

fn string_terminal(text: &[u8]) -> Terminal
    ensures { result ≡ spec.string_terminal text.now }
{
    if has_backslash(text) {
        Terminal::EscapedText
    } else {
        Terminal::PlainText
    }
}

fn terminal_of(kind: Kind, text: &[u8]) -> Terminal
    ensures { result ≡ spec.terminal_of kind text.now }
{
    match kind {
        Kind::Ident => keyword(text),
        Kind::Int => Terminal::Int,
        Kind::Float => Terminal::Float,
        Kind::Str => string_terminal(text),
        Kind::Symbol => symbol(text.first().copied().unwrap_or(0)),
        Kind::Bad(_) => Terminal::Slash,
    }
}

fn span_of_token(token: Token) -> Span
    ensures { result ≡ spec.span_of_token token }
{
    Span {
        start: token.start,
        end: token.end,
    }
}

fn lexeme_of(text: &[u8], token: Token) -> Lexeme
    requires { spec.IsWithin (length text.now) token }
    ensures { result ≡ spec.lexeme_of text.now token }
{
    Lexeme {
        terminal: terminal_of(token.kind, &text[token.start..token.end]),
        span: span_of_token(token),
    }
}

fn take_token(
    text: &[u8],
    token: Token,
    found: &mut Vec<Lexeme>,
    faults: &mut Items<Fault>,
) -> Result<(), AllocError>
    requires { spec.IsWithin (length text.now) token }
    ensures lexemes { OnOk result (found.new.items ≡ found.old.items ++ spec.lexemes text.now (token ∷ [])) }
    ensures faults { OnOk result (faults.new ≡ faults.old ++ tree.bad_tokens (token ∷ [])) }
{
    if let Kind::Bad(reason) = token.kind {
        faults.push(Fault {
            problem: SyntaxProblem::BadToken(reason),
            span: span_of_token(token),
        })?;
    } else {
        found.push(lexeme_of(text, token))?;
    }
    Ok(())
}

// The lexemes of a text. The bad tokens become faults.
pub fn lexemes(
    alloc: Global,
    text: &[u8],
    tokens: &[Token],
    faults: &mut Items<Fault>,
) -> Result<Vec<Lexeme>, AllocError>
    requires { All (spec.IsWithin (length text.now)) tokens.now }
    ensures lexemes { IfOk result (λ found. found.items ≡ spec.lexemes text.now tokens.now) }
    ensures faults { OnOk result (faults.new ≡ faults.old ++ tree.bad_tokens tokens.now) }
{
    let mut found = Vec::with_capacity(alloc, tokens.len())?;
    'tokens: for token in tokens {
        take_token(text, *token, &mut found, faults)?;
    }
    Ok(found)
}

// The lexemes of a text and of all its tokens, which are taken one by one. The bad ones become faults.
pub fn text_lexemes(
    alloc: Global,
    text: &[u8],
    faults: &mut Items<Fault>,
) -> Result<Vec<Lexeme>, AllocError>
    ensures lexemes { IfOk result (λ found. found.items ≡ spec.lexemes text.now (tokens text.now)) }
    ensures faults { OnOk result (faults.new ≡ faults.old ++ tree.bad_tokens (tokens text.now)) }
{
    let mut found = Vec::new(alloc);
    let mut at = first_offset(text);
    while let Some(token) = next_token(text, at) {
        take_token(text, token, &mut found, faults)?;
        at = token.end;
    }
    Ok(found)
}
