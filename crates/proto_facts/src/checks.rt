// What is wrong in the body of a message, an enum or an extend block.

ghost use Rattle.std.specs.Prelude.{◌≡◌, ◌++◌, ◌∷◌, [], IfOk, IfSome, OnOk, filter, map, not, is_some, IsTrue, ◌↔◌};
ghost use Rattle.std.specs.List.{list_any, flat_map, filter_map};
ghost use Rattle.std.specs.Option.{option_to_list};
ghost use Rattle.std.specs.Str.{bytes_eq};
ghost use Rattle.proto_tree.specs.declared.node.Node.{out-Node};
ghost use Rattle.proto_decls.specs.Diags as diags;
ghost use Rattle.proto_decls.specs.Members as body;
ghost use Rattle.proto_decls.specs.Numbers as numbers;
ghost use Rattle.proto_decls.specs.Checks as spec;
ghost use Rattle.std.specs.Prelude.{List};
ghost use Rattle.proto_decls.specs.declared.part.ReservedName.{ReservedName};
ghost use Rattle.proto_decls.specs.declared.part.Numbering.{Numbering};
ghost use Rattle.proto_facts.specs.Seen as spec_seen;

use crate::members::ranges_in;
use crate::numbers::value_of;
use crate::seen::{note_text, note_value};
use proto_decls::{Diag, Interval, Member, Numbering, Problem, ReservedName, text_at};
use proto_tree::{Node, Number, RangeEnd, ReservedRange, Span};
use sqlite_items::Items;
use std::alloc::{AllocError, Global};
use std::collections::BTreeSet;

pub fn diag(message: Problem, span: Span) -> Diag
    ensures { result ≡ diags.diag message span }
{
    Diag {
        start: span.start,
        end: span.end,
        message,
    }
}

pub fn diag_if(wrong: bool, message: Problem, span: Span) -> Option<Diag>
    ensures { result ≡ spec.diag_if wrong message span }
{
    if wrong {
        Some(diag(message, span))
    } else {
        None
    }
}

pub fn add(found: Option<Diag>, diags: &mut Items<Diag>) -> Result<(), AllocError>
    ensures { OnOk result (diags.new ≡ diags.old ++ option_to_list found) }
{
    match found {
        Some(diag) => diags.push(diag),
        None => Ok(()),
    }
}

fn out_of_range(numbering: Numbering) -> Problem
    ensures { result ≡ spec.out_of_range numbering }
{
    match numbering {
        Numbering::Fields => Problem::NumberOutOfRange,
        Numbering::Values => Problem::EnumNumberOutOfRange,
    }
}

fn used_twice(numbering: Numbering) -> Problem
    ensures { result ≡ spec.used_twice numbering }
{
    match numbering {
        Numbering::Fields => Problem::NumberUsedTwice,
        Numbering::Values => Problem::EnumNumberUsedTwice,
    }
}

fn member_out_of_range(numbering: Numbering, member: Member) -> Option<Diag>
    ensures { result ≡ spec.member_out_of_range numbering member }
{
    diag_if(
        member.value.is_none(),
        out_of_range(numbering),
        member.number,
    )
}

// Adds the members whose numbers are out of range.
pub fn add_out_of_range(
    numbering: Numbering,
    members: &[Member],
    diags: &mut Items<Diag>,
) -> Result<(), AllocError>
    ensures { OnOk result (diags.new ≡ diags.old ++ filter_map (spec.member_out_of_range numbering) members.now) }
{
    'members: for member in members {
        add(member_out_of_range(numbering, *member), diags)?;
    }
    Ok(())
}

fn is_kept_free(value: Option<u32>) -> bool
    ensures { result ≡ spec.is_kept_free value }
{
    match value {
        Some(value) => 19000 <= value && value <= 19999,
        None => false,
    }
}

fn kept_free(member: Member) -> Option<Diag>
    ensures { result ≡ spec.kept_free member }
{
    diag_if(
        is_kept_free(member.value),
        Problem::NumberKeptFree,
        member.number,
    )
}

// Adds the fields whose numbers are kept free.
pub fn add_kept_free(members: &[Member], diags: &mut Items<Diag>) -> Result<(), AllocError>
    ensures { OnOk result (diags.new ≡ diags.old ++ filter_map spec.kept_free members.now) }
{
    'members: for member in members {
        add(kept_free(*member), diags)?;
    }
    Ok(())
}

fn bound_out_of_range(numbering: Numbering, text: &str, bound: Number) -> Option<Diag>
    ensures { result ≡ spec.bound_out_of_range numbering text.now bound }
{
    diag_if(
        value_of(numbering, text, bound).is_none(),
        out_of_range(numbering),
        bound.span,
    )
}

pub fn runs_forwards(interval: Interval) -> bool
    ensures { result ≡ spec.runs_forwards interval }
{
    interval.low <= interval.high
}

fn backwards(interval: Interval) -> Option<Diag>
    ensures { result ≡ spec.backwards interval }
{
    diag_if(
        !runs_forwards(interval),
        Problem::RangeBackwards,
        interval.span,
    )
}

// Adds the ranges that run backwards.
pub fn add_backwards(intervals: &[Interval], diags: &mut Items<Diag>) -> Result<(), AllocError>
    ensures { OnOk result (diags.new ≡ diags.old ++ filter_map spec.backwards intervals.now) }
{
    'intervals: for interval in intervals {
        add(backwards(*interval), diags)?;
    }
    Ok(())
}

// Adds labels that may not stand where they do.
pub fn add_labels(labels: &[Span], diags: &mut Items<Diag>) -> Result<(), AllocError>
    ensures { OnOk result (diags.new ≡ diags.old ++ spec.label_diags labels.now) }
{
    'labels: for label in labels {
        diags.push(diag(Problem::LabelNotAllowed, *label))?;
    }
    Ok(())
}

// One above a number that is not below `least`; `least` where there is no number.
fn next_least(least: u64, value: Option<u32>) -> Option<u64>
    ensures { IfSome result (λ next. spec_seen.Rises least value next) }
{
    match value {
        Some(value) => {
            let value = u64::from(value);
            if least <= value {
                Some(value + 1)
            } else {
                None
            }
        }
        None => Some(least),
    }
}

// Whether each number is greater than those before it, so that none is there twice.
fn ascend(members: &[Member]) -> bool
    ensures { IsTrue result → (numbering : Numbering) → spec.judged (spec.number_used numbering) members.now ≡ [] }
{
    let mut least = 0;
    'members: for member in members {
        let Some(next) = next_least(least, member.value) else {
            return false;
        };
        least = next;
    }
    true
}

// Adds the members whose number an earlier one has, by a set of the numbers met.
fn add_number_used(
    alloc: Global,
    numbering: Numbering,
    members: &[Member],
    diags: &mut Items<Diag>,
) -> Result<(), AllocError>
    ensures { OnOk result (diags.new ≡ diags.old ++ spec.judged (spec.number_used numbering) members.now) }
{
    let mut seen = BTreeSet::new(alloc);
    'members: for member in members {
        let again = note_value(&mut seen, member.value)?;
        add(diag_if(again, used_twice(numbering), member.number), diags)?;
    }
    Ok(())
}

// Adds the members whose number an earlier one has. Numbers that ascend need no set.
pub fn add_used_twice(
    alloc: Global,
    numbering: Numbering,
    members: &[Member],
    diags: &mut Items<Diag>,
) -> Result<(), AllocError>
    ensures { OnOk result (diags.new ≡ diags.old ++ spec.judged (spec.number_used numbering) members.now) }
{
    if ascend(members) {
        Ok(())
    } else {
        add_number_used(alloc, numbering, members, diags)
    }
}

// Adds the reserved names that stand there before. The names met are left in the set.
pub fn add_name_twice(
    alloc: Global,
    names: &[ReservedName],
    seen: &mut BTreeSet<String>,
    diags: &mut Items<Diag>,
) -> Result<(), AllocError>
    requires { spec_seen.IsNew seen.old }
    ensures added { OnOk result (diags.new ≡ diags.old ++ spec.judged spec.name_twice names.now) }
    ensures seen { OnOk result (spec_seen.AreNames names.now seen.new) }
{
    'names: for name in names {
        let again = note_text(alloc, seen, name.text.as_str())?;
        add(diag_if(again, Problem::ReservedTwice, name.span), diags)?;
    }
    Ok(())
}

fn name_reserved(text: &str, reserved: &BTreeSet<String>, member: Member) -> Option<Diag>
    ensures { (names : List ReservedName) → spec_seen.AreNames names reserved.now → result ≡ spec.name_reserved text.now names member }
{
    diag_if(
        reserved.contains(text_at(text, member.name)),
        Problem::NameReserved,
        member.name,
    )
}

// Adds the members whose names are reserved.
pub fn add_name_reserved(
    text: &str,
    reserved: &BTreeSet<String>,
    members: &[Member],
    diags: &mut Items<Diag>,
) -> Result<(), AllocError>
    ensures { OnOk result ((names : List ReservedName) → spec_seen.AreNames names reserved.now → diags.new ≡ diags.old ++ filter_map (spec.name_reserved text.now names) members.now) }
{
    'members: for member in members {
        add(name_reserved(text, reserved, *member), diags)?;
    }
    Ok(())
}

fn add_bounds_in(
    numbering: Numbering,
    text: &str,
    range: ReservedRange,
    diags: &mut Items<Diag>,
) -> Result<(), AllocError>
    ensures { OnOk result (diags.new ≡ diags.old ++ filter_map (spec.bound_out_of_range numbering text.now) (body.bounds range)) }
{
    add(bound_out_of_range(numbering, text, range.low), diags)?;
    match range.high {
        RangeEnd::Number(high) => add(bound_out_of_range(numbering, text, high), diags),
        _ => Ok(()),
    }
}

fn add_bounds_of(
    numbering: Numbering,
    text: &str,
    ranges: &[ReservedRange],
    diags: &mut Items<Diag>,
) -> Result<(), AllocError>
    ensures { OnOk result (diags.new ≡ diags.old ++ filter_map (spec.bound_out_of_range numbering text.now) (flat_map body.bounds ranges.now)) }
{
    'each: for range in ranges {
        add_bounds_in(numbering, text, *range, diags)?;
    }
    Ok(())
}

// Adds the bounds of reserved ranges that are out of range.
pub fn add_bounds(
    numbering: Numbering,
    text: &str,
    items: &[Node],
    diags: &mut Items<Diag>,
) -> Result<(), AllocError>
    ensures { OnOk result (diags.new ≡ diags.old ++ spec.bound_diags numbering text.now items.now) }
{
    'items: for node in items {
        add_bounds_of(numbering, text, ranges_in(node), diags)?;
    }
    Ok(())
}
