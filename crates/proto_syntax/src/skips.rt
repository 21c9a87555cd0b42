// Matches the braces of a text, so that what stands between them can be skipped.
ghost use Rattle.std.specs.Prelude.{◌≡◌, ◌<◌, ◌≤◌, ◌-◌, IsTrue, IfOk, length, take, drop, slice_index_or};
ghost use Rattle.proto_tree.specs.Cut as cut;
ghost use Rattle.std.proofs.Props.{props};
ghost use Rattle.proto_syntax.specs.Skips as spec;
ghost use Rattle.proto_tree.specs.declared.lexeme.Terminal.TheVariants as w;

use proto_tree::{Lexeme, Terminal};
use std::alloc::{AllocError, Global};

// Tokens, and for each of the first of them how many may be skipped from there on if it is an opening brace. With no
// such numbers the tokens are looked through.
#[derive(Clone, Copy)]
pub struct Matched<'a> {
    pub tokens: &'a [Lexeme],
    pub skips: &'a [usize],
    ghost matched: { spec.AreSkips tokens.now skips.now } by { Prim.hlevel props },
}

impl<'a> Matched<'a> {
    ghost use Rattle.proto_syntax.specs.Skips as spec;
    ghost use Rattle.proto_tree.specs.Cut as cut;
    ghost use Rattle.proto_tree.specs.declared.lexeme.Terminal.TheVariants as w;

    // How many tokens may be skipped from the opening brace at the place on.
    pub fn skip_at(self, at: usize) -> usize
        requires within { at < length self.tokens.now }
        requires opens { IsTrue (cut.begins w.OpenBrace (drop at self.tokens.now)) }
        ensures { spec.IsSkip (drop at self.entry.tokens.now) result }
    {
        match self.skips.get(at) {
            Some(known) => *known,
            None => skip(&self.tokens[at..], &[]),
        }
    }

    // The first tokens, so many of them, and the others.
    pub fn split_at(self, len: usize) -> (Matched<'a>, Matched<'a>)
        requires { len ≤ length self.tokens.now }
        ensures first { result.0.tokens.now ≡ take len self.entry.tokens.now }
        ensures others { result.1.tokens.now ≡ drop len self.entry.tokens.now }
    {
        let (tokens, other_tokens) = self.tokens.split_at(len);
        let (skips, other_skips) = self.skips.split_at(len.min(self.skips.len()));
        (
            Matched { tokens, skips },
            Matched {
                tokens: other_tokens,
                skips: other_skips,
            },
        )
    }
}

// What is known of a place, or else that an opening brace may itself be skipped.
fn known_skip(skips: &[usize], at: usize) -> usize
    ensures { result ≡ slice_index_or skips.now at 1 }
{
    match skips.get(at) {
        Some(known) => *known,
        None => 1,
    }
}

// How many tokens stand inside the brace that begins them, itself included: up to its closing one, or all. The skips
// are those of the tokens behind it, as far as they are known.
fn skip(ts: &[Lexeme], skips: &[usize]) -> usize
    requires some { 0 < length ts.now }
    requires opens { IsTrue (cut.begins w.OpenBrace ts.now) }
    requires skips { spec.AreSkips (drop 1 ts.now) skips.now }
    ensures skip { spec.IsSkip ts.now result }
    ensures within { result ≤ length ts.now }
{
    let mut depth = 1usize;
    let mut end = 1usize;
    'places: while end < ts.len() {
        if ts[end].is(Terminal::OpenBrace) {
            let inner = known_skip(skips, end - 1).min(ts.len() - end);
            if inner == ts.len() - end {
                return ts.len();
            }
            depth += 1;
            end += inner;
        } else if !ts[end].is(Terminal::CloseBrace) {
            end += 1;
        } else if depth == 1 {
            return end;
        } else {
            depth -= 1;
            end += 1;
        }
    }
    end
}

// For each token, how many tokens may be skipped from there on if it is an opening brace.
pub fn skips(alloc: Global, ts: &[Lexeme]) -> Result<Vec<usize>, AllocError>
    ensures skips { IfOk result (λ found. spec.AreSkips ts.now found.items) }
    ensures all { IfOk result (λ found. length found.items ≡ length ts.now) }
{
    let mut found = vec![in alloc; 1usize; ts.len()]?;
    let mut at = ts.len();
    'places: while 0 < at {
        at -= 1;
        if ts[at].is(Terminal::OpenBrace) {
            found[at] = skip(&ts[at..], &found.as_slice()[at + 1..]);
        }
    }
    Ok(found)
}
