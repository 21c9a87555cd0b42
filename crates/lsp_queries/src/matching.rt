// Names that contain a query.
ghost use Rattle.std.specs.Prelude.{◌≡◌, ◌≤◌, length, IfOk};
ghost use Rattle.lsp_queries.specs.Matching.{begins, contains};

use memchr::{memchr2, memmem};
use std::alloc::{AllocError, Global};

// How long a query may be that is compared in place.
const SHORT: usize = 64;

// Whether a text begins with the query.
fn begins(text: &[u8], query: &[u8]) -> bool
    ensures { result ≡ begins query.now text.now }
{
    query.len() <= text.len() && text[..query.len()].eq_ignore_ascii_case(query)
}

// Whether a text contains the query, which is compared wherever its first byte stands, in either case.
fn contains_short(text: &[u8], query: &[u8]) -> bool
    ensures { result ≡ contains query.now text.now }
{
    let [first, ..] = query else {
        return true;
    };
    let lower = first.to_ascii_lowercase();
    let upper = first.to_ascii_uppercase();
    let mut start = 0;
    'text: while let Some(skipped) = memchr2(lower, upper, &text[start..]) {
        start += skipped;
        if begins(&text[start..], query) {
            return true;
        }
        start += 1;
    }
    false
}

// Whether a text contains the query: both are copied in lower case, and searched in linear time.
fn contains_long(alloc: Global, text: &[u8], query: &[u8]) -> Result<bool, AllocError>
    ensures { IfOk result (λ found. found ≡ contains query.now text.now) }
{
    let text = text.to_ascii_lowercase(alloc)?;
    let query = query.to_ascii_lowercase(alloc)?;
    Ok(memmem::find(text.as_slice(), query.as_slice()).is_some())
}

// Whether a name contains the query, without regard to the case of ASCII letters. Only a long name is copied, and only for a
// long query. An `Err` comes only where memory was refused.
pub fn contains(alloc: Global, name: &str, query: &str) -> Result<bool, AllocError>
    ensures { IfOk result (λ found. found ≡ contains query.now name.now) }
{
    if query.len() <= SHORT || name.len() < query.len() {
        return Ok(contains_short(name.as_bytes(), query.as_bytes()));
    }
    contains_long(alloc, name.as_bytes(), query.as_bytes())
}
