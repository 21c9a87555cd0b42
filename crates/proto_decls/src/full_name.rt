// Full names, which share the texts of their scopes.
ghost use Rattle.std.specs.Prelude.{◌≡◌, ◌≢◌, ◌<◌, ◌≤◌, ◌&&◌, ◌∷◌, ℕ, List, false, true, length, drop, slice_index_or, bytes_eq, nat_eq, string_bytes, ◌++◌, IfOk, OnOk, MatchOption};
ghost use Rattle.std.specs.Cmp.Lexicographic.{slice_cmp};
ghost use Rattle.std.specs.List.{slice_get, starts_with};
ghost use Rattle.std.specs.Ordering.{nat_cmp};
ghost use Rattle.proto_decls.specs.FullNames as spec;
ghost use Rattle.proto_decls.specs.FullNames.{dot, has_dot, hash_of_parts, last_of, scope_of};
ghost use Rattle.proto_decls.specs.Text.{joined};

use crate::name::Name;
use crate::text::{joined, joined_text};
use std::alloc::{AllocError, AllocFailed, Global};
use std::cmp::Ordering;
use std::hash::{FoldHasher, Hasher};
use std::marker::Model;
use std::sync::Arc;

// The text of a scope's full name, and a hasher that has read it.
#[derive(Drop)]
struct ScopeText {
    text: String,
    hasher: FoldHasher,
}

impl Model for ScopeText {
    ghost use Rattle.std.specs.Prelude.{◌≡◌, List, ℕ, string_bytes};
    ghost use Rattle.std.specs.Hash.FoldHasher.{initial, write};

    ghost Value = { List ℕ };

    ghost view = { λ s. string_bytes s.text };

    ghost invariant = { λ s. s.hasher ≡ write initial (string_bytes s.text) };
}

/// The full name of a package, a message or a service, which the full names of all that is declared there share; empty outside any
/// package. Contracts see it as its bytes in UTF-8.
#[derive(Drop)]
pub struct ScopeName {
    shared: Arc<ScopeText>,
}

impl Model for ScopeName {
    ghost use Rattle.std.specs.Prelude.{List, ℕ};

    ghost Value = { List ℕ };

    ghost view = { λ s. s.shared.value };
}

impl ScopeName {
    /// The scope with this full name. An `Err` comes only where memory was refused.
    pub fn of(alloc: Global, text: &str) -> Result<ScopeName, AllocError>
        ensures { IfOk result (λ s. s ≡ text.now) }
    {
        ScopeName::with_text(alloc, String::from_str(alloc, text)?)
    }

    // The scope with this full name, a text that the caller gives away.
    fn with_text(alloc: Global, text: String) -> Result<ScopeName, AllocError>
        ensures { IfOk result (λ s. s ≡ string_bytes text) }
    {
        let mut hasher = FoldHasher::default();
        hasher.write(text.as_bytes());
        match Arc::new(alloc, ScopeText { text, hasher }) {
            Ok(shared) => Ok(ScopeName { shared }),
            Err(AllocFailed { .. }) => Err(AllocError),
        }
    }

    /// The full name as a text. Takes no memory.
    pub fn as_str(&self) -> &str
        ensures { result.now ≡ self.now }
    {
        self.shared.text.as_str()
    }

    /// The same scope once more, shared. Takes no memory. An `Err` comes only where it is shared 2 to the power of 63 times.
    pub fn another(&self) -> Result<ScopeName, AllocError>
        ensures { IfOk result (λ s. s ≡ self.now) }
    {
        Ok(ScopeName {
            shared: Arc::try_clone(&self.shared)?,
        })
    }
}

/// A full name in two parts, in UTF-8: the name is the two with a dot between them, or the last part alone where the scope is empty.
/// Mostly it is split at its last dot, and only then equal names have equal parts.
#[derive(Clone, Copy)]
pub struct NameParts<'a> {
    /// What stands before the last part, without the dot.
    pub scope: &'a [u8],
    /// The last part.
    pub last: &'a [u8],
}

/// The full name of a declaration. Contracts see it as its bytes in UTF-8. Its last component is its own, and the text of its scope is
/// shared with the other names there.
#[derive(Drop)]
pub struct FullName {
    scope: ScopeName,
    last: Name,
}

impl Model for FullName {
    ghost use Rattle.std.specs.Prelude.{◌≡◌, List, ℕ};
    ghost use Rattle.proto_decls.specs.FullNames.{last_of, scope_of};
    ghost use Rattle.proto_decls.specs.Text.{joined};

    ghost Value = { List ℕ };

    ghost view = { λ n. joined n.scope n.last };

    ghost invariant = { λ n. (n.scope ≡ scope_of (joined n.scope n.last)) × (n.last ≡ last_of (joined n.scope n.last)) };
}

// Where the last dot of a full name stands.
fn last_dot(name: &[u8]) -> Option<usize>
    ensures { MatchOption result (has_dot name.now ≡ false) (λ at. (at < length name.now) × (slice_index_or name.now at 0 ≡ dot) × ((k : ℕ) → at < k → k < length name.now → slice_index_or name.now k 0 ≢ dot)) }
{
    let mut at = name.len();
    while at > 0 {
        at -= 1;
        if name[at] == b'.' {
            return Some(at);
        }
    }
    None
}

/// A full name, split at its last dot. A dot at its front stays in the last component.
pub fn split_name(name: &[u8]) -> NameParts<'_>
    ensures scope { result.scope.now ≡ scope_of name.now }
    ensures last { result.last.now ≡ last_of name.now }
{
    match last_dot(name) {
        None => NameParts {
            scope: &[],
            last: name,
        },
        Some(at) => {
            if at == 0 {
                return NameParts {
                    scope: &[],
                    last: name,
                };
            }
            NameParts {
                scope: &name[..at],
                last: &name[at + 1..],
            }
        }
    }
}

// What stands between a scope and a name in it.
const DOT: &[u8] = b".";

// What stands behind these bytes in a text that begins with them, else `None`.
fn strip_prefix<'t>(text: &'t [u8], front: &[u8]) -> Option<&'t [u8]>
    ensures { MatchOption result (starts_with nat_eq text.now front.now ≡ false) (λ rest. (starts_with nat_eq text.now front.now ≡ true) × (rest.now ≡ drop (length front.now) text.now)) }
{
    if text.starts_with(front) {
        Some(&text[front.len()..])
    } else {
        None
    }
}

// What stands behind a dot and these bytes in a text that begins with both, else `None`.
fn strip_dotted<'t>(text: &'t [u8], last: &[u8]) -> Option<&'t [u8]>
    ensures { MatchOption result (starts_with nat_eq text.now (dot ∷ last.now) ≡ false) (λ rest. (starts_with nat_eq text.now (dot ∷ last.now) ≡ true) × (rest.now ≡ drop (length (dot ∷ last.now)) text.now)) }
{
    match strip_prefix(text, DOT) {
        Some(rest) => strip_prefix(rest, last),
        None => None,
    }
}

impl NameParts<'_> {
    /// What a hasher answers that has read the scope, then the last part: the hash of the full name, if it is split at its last dot.
    pub fn hash(self) -> u64
        ensures { result ≡ hash_of_parts self.entry.scope.now self.entry.last.now }
    {
        let mut hasher = FoldHasher::default();
        hasher.write(self.scope);
        hasher.write(self.last);
        hasher.finish()
    }

    /// Whether both parts of two names are the same: whether the names are, if they are split at their last dots.
    pub fn equals(self, other: NameParts<'_>) -> bool
        ensures { result ≡ (bytes_eq self.entry.last.now other.entry.last.now && bytes_eq self.entry.scope.now other.entry.scope.now) }
    {
        self.last == other.last && self.scope == other.scope
    }

    // The byte of the full name at a place, counted from 0.
    fn byte_at(self, place: usize) -> Option<u8>
        ensures { result ≡ slice_get (joined self.entry.scope.now self.entry.last.now) place }
    {
        if self.scope.is_empty() {
            return self.last.get(place).copied();
        }
        if place < self.scope.len() {
            return Some(self.scope[place]);
        }
        if place == self.scope.len() {
            return Some(b'.');
        }
        self.last.get(place - self.scope.len() - 1).copied()
    }

    /// How two full names compare: by the bytes of each, with the dot between its parts.
    pub fn compare(self, other: NameParts<'_>) -> Ordering
        ensures { result ≡ slice_cmp nat_cmp (joined self.entry.scope.now self.entry.last.now) (joined other.entry.scope.now other.entry.last.now) }
    {
        let common = self.scope.len().min(other.scope.len());
        match self.scope[..common].cmp(&other.scope[..common]) {
            Ordering::Equal => compare_from(self.scope, self.last, other, common),
            different => different,
        }
    }

    /// What stands behind the full name in a text that begins with it, be it a dot or not; `None` if the text doesn't. A text that is too
    /// short for that isn't read.
    pub fn strip_from<'t>(self, text: &'t [u8]) -> Option<&'t [u8]>
        ensures { MatchOption result (starts_with nat_eq text.now (joined self.entry.scope.now self.entry.last.now) ≡ false) (λ rest. (starts_with nat_eq text.now (joined self.entry.scope.now self.entry.last.now) ≡ true) × (rest.now ≡ drop (length (joined self.entry.scope.now self.entry.last.now)) text.now)) }
    {
        if self.scope.is_empty() {
            return strip_prefix(text, self.last);
        }
        if text.len() <= self.scope.len() {
            return None;
        }
        match strip_prefix(text, self.scope) {
            Some(rest) => strip_dotted(rest, self.last),
            None => None,
        }
    }
}

// How what stands in two full names from a place on compares, byte by byte. The one is given by its scope and its last component.
fn compare_from(scope: &[u8], last: &[u8], other: NameParts<'_>, from: usize) -> Ordering
    ensures { result ≡ slice_cmp nat_cmp (drop from (joined scope.now last.now)) (drop from (joined other.entry.scope.now other.entry.last.now)) }
{
    let name = NameParts { scope, last };
    let end = scope.len() + 1 + last.len();
    let mut at = from;
    while at < end {
        let (byte, other_byte) = (name.byte_at(at), other.byte_at(at));
        if byte != other_byte {
            return byte.cmp(&other_byte);
        }
        at += 1;
    }
    name.byte_at(at).cmp(&other.byte_at(at))
}

/// The hash of a full name, or of any other text. Equal texts have equal hashes.
pub fn hash_of(text: &[u8]) -> u64
    ensures { result ≡ spec.hash_of text.now }
{
    split_name(text).hash()
}

// The full name with these parts.
fn of_parts(alloc: Global, scope: &str, last: &str) -> Result<FullName, AllocError>
    requires scope { scope.now ≡ scope_of (joined scope.now last.now) }
    requires last { last.now ≡ last_of (joined scope.now last.now) }
    ensures { IfOk result (λ n. n ≡ joined scope.now last.now) }
{
    Ok(FullName {
        scope: ScopeName::of(alloc, scope)?,
        last: Name::with_text(alloc, last)?,
    })
}

impl FullName {
    /// The full name with this text, which shares nothing. An `Err` comes only where memory was refused.
    pub fn of(alloc: Global, text: &str) -> Result<FullName, AllocError>
        ensures { IfOk result (λ n. n ≡ text.now) }
    {
        match text.rsplit_once('.') {
            Some((scope, last)) if !scope.is_empty() => of_parts(alloc, scope, last),
            _ => of_parts(alloc, "", text),
        }
    }

    /// The full name of what is declared in a scope by a name. It shares the scope's text, unless the name has a dot, which no identifier
    /// has. An `Err` comes only where memory was refused, or where the scope is shared 2 to the power of 63 times.
    pub fn in_scope(alloc: Global, scope: &ScopeName, name: &str) -> Result<FullName, AllocError>
        ensures { IfOk result (λ n. n ≡ joined scope.now name.now) }
    {
        if name.as_bytes().contains(&b'.') {
            return FullName::of(alloc, joined(alloc, scope.as_str(), name)?.as_str());
        }
        Ok(FullName {
            scope: scope.another()?,
            last: Name::with_text(alloc, name)?,
        })
    }

    /// The name, split at its last dot. Takes no memory.
    pub fn parts(&self) -> NameParts<'_>
        ensures scope { result.scope.now ≡ scope_of self.now }
        ensures last { result.last.now ≡ last_of self.now }
    {
        NameParts {
            scope: self.scope.as_str().as_bytes(),
            last: self.last.as_str().as_bytes(),
        }
    }

    /// What stands before the last component, without the dot. Takes no memory.
    pub fn scope(&self) -> &str
        ensures { result.now ≡ scope_of self.now }
    {
        self.scope.as_str()
    }

    /// The last component. Takes no memory.
    pub fn last(&self) -> &str
        ensures { result.now ≡ last_of self.now }
    {
        self.last.as_str()
    }

    /// The hash of the name. Takes time for the last component alone. Equal names have equal hashes.
    pub fn hash(&self) -> u64
        ensures { result ≡ spec.hash_of self.now }
    {
        let mut hasher = self.scope.shared.hasher;
        hasher.write(self.last.as_str().as_bytes());
        hasher.finish()
    }

    /// Whether two names are the same.
    pub fn equals(&self, other: &FullName) -> bool
        ensures { result ≡ bytes_eq self.now other.now }
    {
        self.parts().equals(other.parts())
    }

    /// The name as one text, in memory of just its size. An `Err` comes only where memory was refused.
    pub fn to_text(&self, alloc: Global) -> Result<String, AllocError>
        ensures { IfOk result (λ text. string_bytes text ≡ self.now) }
    {
        joined_text(alloc, self.scope.as_str(), self.last.as_str())
    }

    /// Writes the name behind a text. An `Err` comes only where memory was refused.
    pub fn write_to(&self, text: &mut String) -> Result<(), AllocError>
        ensures { OnOk result (string_bytes text.new ≡ string_bytes text.old ++ self.now) }
    {
        let scope = self.scope.as_str();
        if !scope.is_empty() {
            text.push_str(scope)?;
            text.push('.')?;
        }
        text.push_str(self.last.as_str())
    }

    /// The scope of what is declared in what has this name. An `Err` comes only where memory was refused.
    pub fn to_scope(&self, alloc: Global) -> Result<ScopeName, AllocError>
        ensures { IfOk result (λ s. s ≡ self.now) }
    {
        ScopeName::with_text(alloc, self.to_text(alloc)?)
    }

    /// An equal name, which shares the scope's text. An `Err` comes only where memory was refused, or where the scope is shared 2 to the power
    /// of 63 times.
    pub fn copy(&self, alloc: Global) -> Result<FullName, AllocError>
        ensures { IfOk result (λ n. n ≡ self.now) }
    {
        Ok(FullName {
            scope: self.scope.another()?,
            last: self.last.copy(alloc)?,
        })
    }
}
