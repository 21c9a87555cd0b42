// Cuts the tokens of a body into items.

ghost use Rattle.std.specs.Prelude.{◌≡◌, ℕ, IsTrue, ◌<◌, ◌≤◌, ◌∷◌, length, take, drop, if◌then◌else◌};
ghost use Rattle.proto_tree.specs.Lexeme as lexeme;
ghost use Rattle.proto_tree.specs.Cut as spec;

use crate::skips::Matched;
use proto_tree::{Body, Lexeme, Terminal};

pub fn ends_in(terminal: Terminal, item: &[Lexeme]) -> bool
    ensures { result ≡ spec.ends_in terminal item.now }
{
    match item.last() {
        Some(last) => last.is(terminal),
        None => false,
    }
}

fn begins_block(body: Body, item: &[Lexeme]) -> bool
    ensures { result ≡ spec.begins_block body item.now }
{
    match item.first() {
        Some(first) => body != Body::Enum && first.terminal.is_block_word(),
        None => false,
    }
}

// Whether the item is a whole statement or block. The flag says whether the item's braces are in pairs.
fn is_finished(body: Body, item: &[Lexeme], is_at_depth_0: bool) -> bool
    requires { is_at_depth_0 ≡ spec.is_at_depth_0 item.now }
    ensures { result ≡ spec.is_finished body item.now }
{
    is_at_depth_0
        && (ends_in(Terminal::Semicolon, item)
            || (begins_block(body, item) && ends_in(Terminal::CloseBrace, item)))
}

pub fn is_stray(body: Body, item: &[Lexeme]) -> bool
    ensures { result ≡ spec.is_stray body item.now }
{
    match item {
        [only] => body == Body::File && only.is(Terminal::CloseBrace),
        _ => false,
    }
}

fn is_cut_off(body: Body, item: &[Lexeme], rest: &[Lexeme], is_at_depth_0: bool) -> bool
    requires { is_at_depth_0 ≡ spec.is_at_depth_0 item.now }
    ensures { result ≡ spec.is_cut_off body item.now rest.now }
{
    match rest.first() {
        Some(next) => body == Body::File && next.is(Terminal::CloseBrace) && is_at_depth_0,
        None => true,
    }
}

// Whether the item ends where the rest begins.
fn ends(
    body: Body,
    item: &[Lexeme],
    rest: &[Lexeme],
    is_at_depth_0: bool,
    is_finished: bool,
) -> bool
    requires depth { is_at_depth_0 ≡ spec.is_at_depth_0 item.now }
    requires finished { is_finished ≡ spec.is_finished body item.now }
    ensures { result ≡ spec.ends body item.now rest.now }
{
    is_finished || is_stray(body, item) || is_cut_off(body, item, rest, is_at_depth_0)
}

// The first item of a body.
#[derive(Clone, Copy, Debug, PartialEq, Eq)]
pub struct Cut {
    // How many tokens it has.
    pub len: usize,
    // Whether it is a whole statement or block.
    pub is_finished: bool,
}

fn counted(token: Lexeme, terminal: Terminal) -> usize
    ensures value { result ≡ (if lexeme.is terminal token then 1 else 0) }
    ensures small { result ≤ 1 }
{
    if token.is(terminal) { 1 } else { 0 }
}

fn is_quiet(ts: &[Lexeme]) -> bool
    ensures { result ≡ spec.is_quiet ts.now }
{
    match ts {
        [first, second, ..] => first.terminal.is_plain() && !second.is(Terminal::CloseBrace),
        _ => false,
    }
}

// How many of the first tokens end nothing and open nothing, whatever came before.
fn quiet_run(ts: &[Lexeme]) -> usize
    requires { 0 < length ts.now }
    ensures within { result < length ts.now }
    ensures quiet { (k : ℕ) → k < result → IsTrue (spec.is_quiet (drop k ts.now)) }
{
    let mut run = 0;
    'tokens: while is_quiet(&ts[run..]) {
        run += 1;
    }
    run
}

// The first item of the tokens. What stands between braces is skipped.
pub fn next_item(body: Body, rest: Matched<'_>) -> Cut
    requires { 0 < length rest.tokens.now }
    ensures some { 0 < result.len }
    ensures within { result.len ≤ length rest.entry.tokens.now }
    ensures first { spec.items body rest.entry.tokens.now ≡ take result.len rest.entry.tokens.now ∷ spec.items body (drop result.len rest.entry.tokens.now) }
    ensures finished { result.is_finished ≡ spec.is_finished body (take result.len rest.entry.tokens.now) }
{
    let ts = rest.tokens;
    let mut opened = 0usize;
    let mut closed = 0usize;
    let mut end = 0;
    'places: loop {
        let run = quiet_run(&ts[end..]);
        if 0 < run {
            end += run;
            continue;
        }
        if closed <= opened && ts[end].is(Terminal::OpenBrace) {
            // Nothing ends inside braces.
            let inner = rest.skip_at(end).min(ts.len() - end);
            if inner == ts.len() - end {
                return Cut {
                    len: ts.len(),
                    is_finished: false,
                };
            }
            opened += 1;
            end += inner;
            continue;
        }
        opened += counted(ts[end], Terminal::OpenBrace);
        closed += counted(ts[end], Terminal::CloseBrace);
        end += 1;
        let is_at_depth_0 = opened == closed;
        let is_finished = is_finished(body, &ts[..end], is_at_depth_0);
        if ends(body, &ts[..end], &ts[end..], is_at_depth_0, is_finished) {
            return Cut {
                len: end,
                is_finished,
            };
        }
    }
}
