// Which pairs of neighbouring bytes stand in texts.
ghost use Rattle.std.specs.Prelude.{◌≡◌, ◌≤◌, ◌<◌, ◌-◌, ◌↔◌, true, false, List, ℕ, length, IsTrue, slice_index, slice_index_or, slice_set};
ghost use Rattle.proto_decls.specs.BytePairs.{kind_of, HasPairs};
ghost use Rattle.proto_decls.specs.Text.{joined};

use crate::full_name::NameParts;
use std::alloc::{AllocError, Global};
use std::marker::Model;

// How many kinds of pairs are told apart.
const KINDS: usize = 1024;

// The kind of a pair, without regard to the case of ASCII letters.
fn kind_of(first: u8, second: u8) -> usize
    ensures value { result ≡ kind_of first second }
    ensures within { result < 1024 }
{
    let first = usize::from(first.to_ascii_lowercase());
    let second = usize::from(second.to_ascii_lowercase());
    (first * 32 + second) % KINDS
}

// How many bytes at the front of two texts are the same.
fn common_len(a: &[u8], b: &[u8]) -> usize
    ensures within_a { result ≤ length a.now }
    ensures within_b { result ≤ length b.now }
    ensures same { (i : ℕ) → i < result → slice_index a.now i ≡ slice_index b.now i }
{
    let mut at = 0;
    while at < a.len() && at < b.len() && a[at] == b[at] {
        at += 1;
    }
    at
}

// For each kind of pairs, whether one was seen. Contracts see them as a list.
#[derive(Debug, Drop)]
pub struct BytePairs {
    seen: Vec<bool>,
}

impl Model for BytePairs {
    ghost use Rattle.std.specs.Prelude.{◌≡◌, List, Bool, length};

    ghost Value = { List Bool };

    ghost view = { λ p. p.seen.items };

    ghost invariant = { λ p. length p.seen.items ≡ 1024 };
}

impl BytePairs {
    // No pair.
    pub fn none(alloc: Global) -> Result<BytePairs, AllocError> {
        Ok(BytePairs {
            seen: vec![in alloc; false; KINDS]?,
        })
    }

    fn add(&mut self, first: u8, second: u8)
        ensures value { self.new ≡ slice_set self.old (kind_of first second) true }
        ensures within { kind_of first second < length self.old }
    {
        self.seen[kind_of(first, second)] = true;
    }

    // Adds the pairs of a text, where those of the text before it were added. Looks at no pair of the front that both share.
    pub fn add_text(&mut self, before: &[u8], text: &[u8])
        requires { HasPairs self.old before.now }
        ensures added { HasPairs self.new text.now }
        ensures kept { (other : List ℕ) → HasPairs self.old other → HasPairs self.new other }
    {
        let start = common_len(before, text).max(1);
        for next in start..text.len() {
            self.add(text[next - 1], text[next]);
        }
    }

    // Adds the pairs of a full name, where those of the scope of the name before it were added. Where the scope is the same, its pairs
    // aren't added again.
    pub fn add_name(&mut self, before: &[u8], name: NameParts<'_>)
        requires { HasPairs self.old before.now }
        ensures scope { HasPairs self.new name.entry.scope.now }
        ensures added { HasPairs self.new (joined name.entry.scope.now name.entry.last.now) }
        ensures kept { (other : List ℕ) → HasPairs self.old other → HasPairs self.new other }
    {
        self.add_scope(before, name.scope);
        self.add_text(&[], name.last);
        if !name.scope.is_empty() {
            self.add_dot(name);
        }
    }

    // Adds the pairs of a scope, where those of the scope before it were added.
    fn add_scope(&mut self, before: &[u8], scope: &[u8])
        requires { HasPairs self.old before.now }
        ensures added { HasPairs self.new scope.now }
        ensures kept { (other : List ℕ) → HasPairs self.old other → HasPairs self.new other }
    {
        if scope != before {
            self.add_text(before, scope);
        }
    }

    // Adds the pairs of the dot between the parts of a full name.
    fn add_dot(&mut self, name: NameParts<'_>)
        requires { 0 < length name.scope.now }
        ensures end { slice_index_or self.new (kind_of (slice_index name.entry.scope.now (length name.entry.scope.now - 1)) 46) false ≡ true }
        ensures start { 0 < length name.entry.last.now → slice_index_or self.new (kind_of 46 (slice_index name.entry.last.now 0)) false ≡ true }
        ensures kept { (other : List ℕ) → HasPairs self.old other → HasPairs self.new other }
    {
        self.add(name.scope[name.scope.len() - 1], b'.');
        if !name.last.is_empty() {
            self.add(b'.', name.last[0]);
        }
    }

    // Whether each pair of a text is of a kind that was seen.
    pub fn have(&self, text: &str) -> bool
        ensures { IsTrue result ↔ HasPairs self.now text.now }
    {
        let bytes = text.as_bytes();
        for next in 1..bytes.len() {
            if !self.seen[kind_of(bytes[next - 1], bytes[next])] {
                return false;
            }
        }
        true
    }
}
