// Declarations of a file that a change leaves as they were.
ghost use Rattle.std.specs.Prelude.{◌≡◌, ◌≤◌, ◌<◌, ◌+◌, ℕ, length, slice_index_or};
ghost use Rattle.proto_decls.specs.declared.fact.Decl.{Decl};
ghost use Rattle.proto_names.specs.Outlines.{declared};
ghost use Rattle.proto_names.specs.Replaced.{AreKept};

use crate::outline::is_alike;
use proto_decls::Decl;

// How many declarations at the front and at the back say the same to other files before and after a change, at the same numbers.
#[derive(Clone, Copy)]
pub struct Kept {
    pub front: usize,
    pub back: usize,
}

// How many of them at the front say the same.
fn alike_at_front(before: &[Decl], after: &[Decl]) -> usize
    ensures within { (result ≤ length before.now) × (result ≤ length after.now) }
    ensures alike { (n : ℕ) (d : Decl) → n < result → declared (slice_index_or before.now n d) ≡ declared (slice_index_or after.now n d) }
{
    let end = before.len().min(after.len());
    let mut front = 0;
    while front < end && is_alike(&before[front], &after[front]) {
        front += 1;
    }
    front
}

// From which one on all say the same, of equally many. Those before a number aren't asked.
fn start_of_back(before: &[Decl], after: &[Decl], front: usize) -> usize
    requires within { front ≤ length before.now }
    requires as_many { length before.now ≡ length after.now }
    ensures within { (front ≤ result) × (result ≤ length before.now) }
    ensures alike { (n : ℕ) (d : Decl) → result ≤ n → n < length before.now → declared (slice_index_or before.now n d) ≡ declared (slice_index_or after.now n d) }
{
    let mut start = before.len();
    while start > front && is_alike(&before[start - 1], &after[start - 1]) {
        start -= 1;
    }
    start
}

// Those that a change keeps. At the back they keep their numbers only where there are as many as before.
pub fn kept_of(before: &[Decl], after: &[Decl]) -> Kept
    ensures { AreKept before.now after.now result.front result.back }
{
    let front = alike_at_front(before, after);
    let back = if before.len() == after.len() {
        before.len() - start_of_back(before, after, front)
    } else {
        0
    };
    Kept { front, back }
}
