// Sets of the numbers and texts met so far.

ghost use Rattle.std.specs.Prelude.{◌≡◌, ◌||◌, ℕ, List, IfOk, OnOk, true, false, Option, Some, None, string_bytes};
ghost use Rattle.std.specs.BTreeSet.{contains, contains_text};
ghost use Rattle.std.specs.Ordering.{nat_cmp};
ghost use Rattle.std.specs.Str.{bytes_eq};
ghost use Rattle.proto_decls.specs.Checks as checks;
ghost use Rattle.proto_facts.specs.Seen as spec;

use proto_decls::FullName;
use std::alloc::{AllocError, Global};
use std::collections::BTreeSet;

// Adds a number, and answers whether it was there.
pub fn note_value(seen: &mut BTreeSet<u32>, value: Option<u32>) -> Result<bool, AllocError>
    ensures found { IfOk result (λ found. found ≡ spec.has seen.old value) }
    ensures more { OnOk result ((q : ℕ) → contains nat_cmp seen.new q ≡ (checks.is_value q value || contains nat_cmp seen.old q)) }
{
    match value {
        Some(value) => Ok(!seen.insert(value)?),
        None => Ok(false),
    }
}

// Adds a text, and answers whether it was there.
pub fn note_text(alloc: Global, seen: &mut BTreeSet<String>, text: &str) -> Result<bool, AllocError>
    ensures found { IfOk result (λ found. found ≡ contains_text seen.old text.now) }
    ensures more { OnOk result ((q : List ℕ) → contains_text seen.new q ≡ (bytes_eq text.now q || contains_text seen.old q)) }
{
    let text = String::from_str(alloc, text)?;
    Ok(!seen.insert(text)?)
}

// Adds a name, and answers whether an equal one was there. The set only borrows it.
pub fn note_name<'a>(seen: &mut BTreeSet<&'a str>, name: &'a str) -> Result<bool, AllocError>
    ensures found { IfOk result (λ found. found ≡ spec.has_name seen.old name.now) }
    ensures more { OnOk result ((q : List ℕ) → spec.has_name seen.new q ≡ (bytes_eq name.now q || spec.has_name seen.old q)) }
{
    Ok(!seen.insert(name)?)
}

// Adds a full name, and answers whether an equal one was there. The set only borrows its last component and its scope, and compares
// the texts of two names only where their hashes are equal: many names may have one long scope.
pub fn note_full_name<'a>(
    seen: &mut BTreeSet<(u64, &'a str, &'a str)>,
    name: &'a FullName,
) -> Result<bool, AllocError>
    ensures found { IfOk result (λ found. found ≡ spec.has_full_name seen.old name.now) }
    ensures more { OnOk result ((q : List ℕ) → spec.has_full_name seen.new q ≡ (bytes_eq name.now q || spec.has_full_name seen.old q)) }
{
    Ok(!seen.insert((name.hash(), name.last(), name.scope()))?)
}
