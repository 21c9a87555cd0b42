// Reserved ranges that share a number with an earlier one.
ghost use Rattle.std.specs.Prelude.{◌≡◌, ◌++◌, ◌||◌, [], IfOk, OnOk, length};
ghost use Rattle.std.specs.List.{list_any};
ghost use Rattle.std.specs.List.Sorted.{IsNonDecreasingBy};
ghost use Rattle.proto_facts.specs.Reach as spec;
ghost use Rattle.proto_decls.specs.Checks as checks;

use crate::checks::{add, diag_if};
use crate::reach::{FEW, Reach, are_apart, ends, is_between, sorted_reaches};
use proto_decls::{Diag, Interval, Problem};
use sqlite_items::Items;
use std::alloc::{AllocError, Global};

// Whether an interval shares a number with one of the sorted ones, or is met already.
fn meets(sorted: &[Reach], ends: &[u64], interval: Interval, met: bool) -> bool
    requires order { IsNonDecreasingBy (λ r. r.low) sorted.now }
    requires ends { spec.AreEnds sorted.now ends.now }
    ensures { result ≡ (list_any (spec.between interval.high interval.low) sorted.now || met) }
{
    is_between(sorted, ends, interval.high, interval.low) || met
}

// Adds for each interval whether it shares a number with one before all of them, or is met already.
fn add_met_also(
    alloc: Global,
    before: &[Interval],
    good: &[Interval],
    met: &[bool],
    found: &mut Vec<bool>,
) -> Result<(), AllocError>
    requires { length met.now ≡ length good.now }
    ensures { OnOk result (found.new.items ≡ found.old.items ++ spec.met_also before.now good.now met.now) }
{
    let sorted = sorted_reaches(alloc, before)?;
    let ends = ends(alloc, sorted.as_slice())?;
    'good: for (i, interval) in good.iter().enumerate() {
        let late = met[i];
        found.push(meets(sorted.as_slice(), ends.as_slice(), *interval, late))?;
    }
    Ok(())
}

fn overlap(interval: Interval, earlier: Interval) -> bool
    ensures { result ≡ checks.overlap interval earlier }
{
    interval.low <= earlier.high && earlier.low <= interval.high
}

fn overlaps_one(before: &[Interval], interval: Interval) -> bool
    ensures { result ≡ list_any (checks.overlap interval) before.now }
{
    before.iter().any(|earlier| overlap(interval, *earlier))
}

// For each interval, whether it shares a number with one of those before it, by a look at each pair.
fn met_by_pairs(alloc: Global, good: &[Interval]) -> Result<Vec<bool>, AllocError>
    ensures { IfOk result (λ v. v.items ≡ spec.met_after [] good.now) }
{
    let mut found = Vec::with_capacity(alloc, good.len())?;
    'good: for (i, interval) in good.iter().enumerate() {
        let again = overlaps_one(&good[..i], *interval);
        found.push(again)?;
    }
    Ok(found)
}

// For each interval, whether it shares a number with one of those before it. Of many each half is looked at by itself, and
// then the second half against the first.
fn met_before(alloc: Global, good: &[Interval]) -> Result<Vec<bool>, AllocError>
    ensures { IfOk result (λ v. v.items ≡ spec.met_after [] good.now) }
{
    if good.len() <= FEW {
        return met_by_pairs(alloc, good);
    }
    let (front, back) = good.split_at(good.len() / 2);
    let mut found = met_before(alloc, front)?;
    let later = met_before(alloc, back)?;
    add_met_also(alloc, front, back, later.as_slice(), &mut found)?;
    Ok(found)
}

// Adds the ranges that are met by an earlier one.
fn add_met(good: &[Interval], met: &[bool], diags: &mut Items<Diag>) -> Result<(), AllocError>
    requires { met.now ≡ spec.met_after [] good.now }
    ensures { OnOk result (diags.new ≡ diags.old ++ checks.judged checks.range_twice good.now) }
{
    'good: for (i, interval) in good.iter().enumerate() {
        let again = met[i];
        add(diag_if(again, Problem::ReservedTwice, interval.span), diags)?;
    }
    Ok(())
}

// Adds the ranges that share a number with an earlier one, by halves.
fn add_by_halves(
    alloc: Global,
    good: &[Interval],
    diags: &mut Items<Diag>,
) -> Result<(), AllocError>
    ensures { OnOk result (diags.new ≡ diags.old ++ checks.judged checks.range_twice good.now) }
{
    let met = met_before(alloc, good)?;
    add_met(good, met.as_slice(), diags)
}

fn range_twice(before: &[Interval], interval: Interval) -> Option<Diag>
    ensures { result ≡ checks.range_twice before.now interval }
{
    let again = overlaps_one(before, interval);
    diag_if(again, Problem::ReservedTwice, interval.span)
}

// Adds the ranges that share a number with an earlier one, by a look at each pair.
fn add_overlaps(good: &[Interval], diags: &mut Items<Diag>) -> Result<(), AllocError>
    ensures { OnOk result (diags.new ≡ diags.old ++ checks.judged checks.range_twice good.now) }
{
    'good: for (i, interval) in good.iter().enumerate() {
        add(range_twice(&good[..i], *interval), diags)?;
    }
    Ok(())
}

// Adds the ranges that share a number with an earlier one.
pub fn add_range_twice(
    alloc: Global,
    good: &[Interval],
    diags: &mut Items<Diag>,
) -> Result<(), AllocError>
    ensures { OnOk result (diags.new ≡ diags.old ++ checks.judged checks.range_twice good.now) }
{
    if good.len() <= FEW {
        add_overlaps(good, diags)
    } else if are_apart(alloc, good)? {
        Ok(())
    } else {
        add_by_halves(alloc, good, diags)
    }
}
