// Diagnostics, and lists of them in order.
ghost use Rattle.std.specs.Prelude.{◌≡◌, IfOk, IsTrue};
ghost use Rattle.std.specs.List.Sorted.{IsStrictlySortedBy};
ghost use Rattle.proto_decls.specs.Order as spec;

use crate::problem::Problem;
use sqlite_items::Items;
use std::alloc::{AllocError, Global};

/// What is wrong at a place of a text: from the byte at `start` up to the byte at `end`, which is the first behind it.
/// Offsets count the text's bytes from 0.
#[derive(Clone, Copy, Debug, PartialEq, Eq, PartialOrd, Ord)]
pub struct Diag {
    /// The first byte.
    pub start: usize,
    /// The first byte behind it.
    pub end: usize,
    /// What is wrong there.
    pub message: Problem,
}

/// The diagnostics, each once, by start, end, number and words. An `Err` comes only where memory was refused.
pub fn in_order(alloc: Global, found: &[Diag]) -> Result<Items<Diag>, AllocError>
    ensures { IfOk result (λ d. d ≡ spec.in_order found.now) }
{
    let mut diags = Vec::from_slice(alloc, found)?;
    diags.sort()?;
    diags.dedup();
    Ok(Items::from_vec(diags))
}

// Whether each diagnostic comes before the next one.
fn rises(diags: &[Diag]) -> bool
    ensures { IsTrue result → IsStrictlySortedBy spec.order diags.now }
{
    diags.is_sorted_by(|a, b| a.cmp(b).is_lt())
}

/// The same diagnostics as `in_order` answers, from a list that the caller gives away. Where each diagnostic comes before
/// the next one, the answer is that list, and nothing is copied. An `Err` comes only where memory was refused.
pub fn put_in_order(alloc: Global, found: Items<Diag>) -> Result<Items<Diag>, AllocError>
    ensures { IfOk result (λ d. d ≡ spec.in_order found) }
{
    if rises(found.as_slice()) {
        Ok(found)
    } else {
        in_order(alloc, found.as_slice())
    }
}
