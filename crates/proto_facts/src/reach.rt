// Reserved numbers, ready to be asked by one number after the other.

ghost use Rattle.std.specs.Prelude.{◌≡◌, ◌+◌, ◌<◌, ℕ, List, IfOk, OnOk, IsTrue, ◌++◌, Some, length, map, take, slice_index, nat_lt, nat_le};
ghost use Rattle.std.specs.List.{list_any, filter_map};
ghost use Rattle.proto_decls.specs.declared.problem.Problem.TheVariants as m;
ghost use Rattle.std.specs.List.Sorted.{IsNonDecreasingBy};
ghost use Rattle.proto_facts.specs.Reach as spec;
ghost use Rattle.proto_decls.specs.Checks as checks;
ghost use Rattle.proto_decls.specs.declared.part.Interval.{Interval};

use crate::checks::{add, diag_if};
use proto_decls::{Diag, Interval, Member, Problem};
use sqlite_items::Items;
use std::alloc::{AllocError, Global};

// So many intervals are looked at one by one; more are put in order first.
pub const FEW: usize = 8;

// The bounds of an interval.
#[derive(Clone, Copy, Debug, PartialEq, Eq, PartialOrd, Ord)]
pub struct Reach {
    pub low: u32,
    pub high: u32,
}

fn reaches(alloc: Global, good: &[Interval]) -> Result<Vec<Reach>, AllocError>
    ensures { IfOk result (λ v. v.items ≡ map spec.reach_of good.now) }
{
    let mut found = Vec::with_capacity(alloc, good.len())?;
    for interval in good {
        found.push(Reach {
            low: interval.low,
            high: interval.high,
        })?;
    }
    Ok(found)
}

// For each place, the end of what the intervals up to there reach.
pub fn ends(alloc: Global, sorted: &[Reach]) -> Result<Vec<u64>, AllocError>
    ensures { IfOk result (λ v. spec.AreEnds sorted.now v.items) }
{
    let mut found = Vec::new(alloc);
    let mut end: u64 = 0;
    'sorted: for reach in sorted {
        end = end.max(u64::from(reach.high) + 1);
        found.push(end)?;
    }
    Ok(found)
}

// Whether one of the intervals begins at or below `high` and ends at or above `low`.
pub fn is_between(sorted: &[Reach], ends: &[u64], high: u32, low: u32) -> bool
    requires order { IsNonDecreasingBy (λ r. r.low) sorted.now }
    requires ends { spec.AreEnds sorted.now ends.now }
    ensures { result ≡ list_any (spec.between high low) sorted.now }
{
    let past = sorted.partition_point(|reach| reach.low <= high);
    past > 0 && u64::from(low) < ends[past - 1]
}

// The intervals by their lower bounds.
pub fn sorted_reaches(alloc: Global, good: &[Interval]) -> Result<Vec<Reach>, AllocError>
    ensures order { IfOk result (λ v. IsNonDecreasingBy (λ r. r.low) v.items) }
    ensures same { IfOk result (λ v. (n : ℕ) → list_any (spec.holds n) v.items ≡ list_any (checks.lies_in (Some n)) good.now) }
    ensures meets { IfOk result (λ v. (r : Interval) → list_any (spec.between r.high r.low) v.items ≡ list_any (checks.overlap r) good.now) }
{
    let mut found = reaches(alloc, good)?;
    found.sort_by_key(|reach| reach.low)?;
    Ok(found)
}

// Whether each of the intervals begins behind those before it.
fn rise(sorted: &[Reach]) -> bool
    ensures { IsTrue result → spec.Rise 0 sorted.now }
{
    let mut end: u64 = 0;
    'sorted: for reach in sorted {
        if u64::from(reach.low) < end {
            return false;
        }
        end = end.max(u64::from(reach.high) + 1);
    }
    true
}

// Whether no two of the intervals share a number, as far as one look at each in order tells.
pub fn are_apart(alloc: Global, good: &[Interval]) -> Result<bool, AllocError>
    ensures { IfOk result (λ apart. IsTrue apart → spec.AreApart good.now) }
{
    let mut sorted = reaches(alloc, good)?;
    sorted.sort_by_key(|reach| reach.low)?;
    Ok(rise(sorted.as_slice()))
}

fn number_reserved(sorted: &[Reach], ends: &[u64], member: Member) -> Option<Diag>
    requires order { IsNonDecreasingBy (λ r. r.low) sorted.now }
    requires ends { spec.AreEnds sorted.now ends.now }
    ensures { result ≡ checks.diag_if (spec.is_held member.value sorted.now) m.NumberReserved member.number }
{
    let held = match member.value {
        Some(value) => is_between(sorted, ends, value, value),
        None => false,
    };
    diag_if(held, Problem::NumberReserved, member.number)
}

fn lies_in(value: Option<u32>, interval: Interval) -> bool
    ensures { result ≡ checks.lies_in value interval }
{
    match value {
        Some(value) => interval.low <= value && value <= interval.high,
        None => false,
    }
}

fn is_in(good: &[Interval], value: Option<u32>) -> bool
    ensures { result ≡ list_any (checks.lies_in value) good.now }
{
    good.iter().any(|interval| lies_in(value, *interval))
}

fn number_in(good: &[Interval], member: Member) -> Option<Diag>
    ensures { result ≡ checks.number_reserved good.now member }
{
    let is_reserved = is_in(good, member.value);
    diag_if(is_reserved, Problem::NumberReserved, member.number)
}

// Adds the members whose numbers are reserved, by a look at each interval.
fn add_number_in(
    good: &[Interval],
    members: &[Member],
    diags: &mut Items<Diag>,
) -> Result<(), AllocError>
    ensures { OnOk result (diags.new ≡ diags.old ++ filter_map (checks.number_reserved good.now) members.now) }
{
    'asked: for member in members {
        add(number_in(good, *member), diags)?;
    }
    Ok(())
}

// Adds the members whose numbers are reserved, by the intervals in order.
fn add_number_held(
    alloc: Global,
    good: &[Interval],
    members: &[Member],
    diags: &mut Items<Diag>,
) -> Result<(), AllocError>
    ensures { OnOk result (diags.new ≡ diags.old ++ filter_map (checks.number_reserved good.now) members.now) }
{
    let sorted = sorted_reaches(alloc, good)?;
    let ends = ends(alloc, sorted.as_slice())?;
    'members: for member in members {
        add(
            number_reserved(sorted.as_slice(), ends.as_slice(), *member),
            diags,
        )?;
    }
    Ok(())
}

// Adds the members whose numbers are reserved.
pub fn add_number_reserved(
    alloc: Global,
    good: &[Interval],
    members: &[Member],
    diags: &mut Items<Diag>,
) -> Result<(), AllocError>
    ensures { OnOk result (diags.new ≡ diags.old ++ filter_map (checks.number_reserved good.now) members.now) }
{
    if good.len() <= FEW {
        add_number_in(good, members, diags)
    } else {
        add_number_held(alloc, good, members, diags)
    }
}
