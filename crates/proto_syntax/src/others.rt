// The tokens of a text that isn't proto3, as they are read.

ghost use Rattle.std.specs.Prelude.{◌≡◌, ◌++◌, ◌∷◌, List, length, map, All, IfOk, OnOk};
ghost use Rattle.proto_lex.specs.Tokens.{tokens};
ghost use Rattle.proto_tree.specs.Others as spec;
ghost use Rattle.proto_tree.specs.declared.lexeme.Lexeme.{Lexeme};
ghost use Rattle.proto_tree.specs.Read.{bad_tokens};

use crate::scan::{is, text_lexemes};
use proto_lex::ordered_tokens;
use proto_tree::{Fault, Lexeme, Terminal};
use sqlite_items::Items;
use std::alloc::{AllocError, Global};

#[tactic(auto, unfolding(proto_tree::specs::Others::other_word))]
fn other_word(name: &[u8]) -> Terminal
    ensures { result ≡ spec.other_word name.now }
{
    if is(name, "required") {
        Terminal::Optional
    } else if is(name, "group") {
        Terminal::Group
    } else if is(name, "export") {
        Terminal::Visibility
    } else if is(name, "local") {
        Terminal::Visibility
    } else {
        Terminal::Name
    }
}

fn other_terminal(terminal: Terminal, name: &[u8]) -> Terminal
    ensures { result ≡ spec.other_terminal terminal name.now }
{
    match terminal {
        Terminal::Name => other_word(name),
        _ => terminal,
    }
}

fn other_lexeme(text: &[u8], lexeme: Lexeme) -> Lexeme
    requires { spec.LiesIn (length text.now) lexeme }
    ensures { result ≡ spec.other_lexeme text.now lexeme }
{
    let name = &text[lexeme.span.start..lexeme.span.end];
    Lexeme {
        terminal: other_terminal(lexeme.terminal, name),
        span: lexeme.span,
    }
}

// The tokens, read with the words that are names to proto3.
fn with_other_words(
    alloc: Global,
    text: &[u8],
    lexemes: Vec<Lexeme>,
) -> Result<Vec<Lexeme>, AllocError>
    requires { All (spec.LiesIn (length text.now)) lexemes.items }
    ensures { IfOk result (λ found. found.items ≡ map (spec.other_lexeme text.now) lexemes.items) }
{
    let mut found = Vec::with_capacity(alloc, lexemes.len())?;
    'lexemes: for lexeme in lexemes.as_slice() {
        found.push(other_lexeme(text, *lexeme))?;
    }
    Ok(found)
}

// Whether a group begins here, as far as its `=`.
fn begins_group(ts: &[Lexeme]) -> bool
    ensures { result ≡ spec.begins_group ts.now }
{
    match ts {
        [first, second, third, ..] => {
            first.is(Terminal::Group)
                && second.terminal.is_identifier()
                && third.is(Terminal::Equals)
        }
        _ => false,
    }
}

// Whether a message or an enum with a name begins here.
fn begins_named(ts: &[Lexeme]) -> bool
    ensures { result ≡ spec.begins_named ts.now }
{
    match ts {
        [first, second, ..] => {
            (first.is(Terminal::Message) || first.is(Terminal::Enum))
                && second.terminal.is_identifier()
        }
        _ => false,
    }
}

// Whether the token before these is left out.
fn is_left_out(lexeme: Lexeme, rest: &[Lexeme]) -> bool
    ensures { result ≡ spec.is_left_out lexeme rest.now }
{
    (lexeme.terminal.is_label() && begins_group(rest))
        || (lexeme.is(Terminal::Visibility) && begins_named(rest))
}

// The first of these tokens as it is read.
fn as_read(ts: &[Lexeme], first: Lexeme) -> Lexeme
    ensures { (rest : List Lexeme) → ts.now ≡ first ∷ rest → result ≡ record { terminal = spec.read_terminal first rest; span = first.span } }
{
    if first.is(Terminal::Group) && !begins_group(ts) {
        Lexeme {
            terminal: Terminal::Name,
            span: first.span,
        }
    } else {
        first
    }
}

// The tokens as they are read, without those that are left out.
fn kept(alloc: Global, lexemes: &[Lexeme]) -> Result<Vec<Lexeme>, AllocError>
    ensures { IfOk result (λ found. found.items ≡ spec.kept lexemes.now) }
{
    let mut found = Vec::with_capacity(alloc, lexemes.len())?;
    let mut rest = lexemes;
    'lexemes: while let [first, more @ ..] = rest {
        if !is_left_out(*first, more) {
            found.push(as_read(rest, *first))?;
        }
        rest = more;
    }
    Ok(found)
}

// What the grammar reads of a text that isn't proto3. The bad tokens become faults.
pub fn other_lexemes(
    alloc: Global,
    text: &[u8],
    faults: &mut Items<Fault>,
) -> Result<Vec<Lexeme>, AllocError>
    ensures lexemes { IfOk result (λ found. found.items ≡ spec.other_lexemes text.now) }
    ensures faults { OnOk result (faults.new ≡ faults.old ++ bad_tokens (tokens text.now)) }
{
    ordered_tokens();
    let lexemes = text_lexemes(alloc, text, faults)?;
    let lexemes = with_other_words(alloc, text, lexemes)?;
    kept(alloc, lexemes.as_slice())
}
