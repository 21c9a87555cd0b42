// What is wrong in each statement that has a body, or is a map field.

ghost use Rattle.std.specs.Prelude.{◌≡◌, ◌++◌, [], ◌∷◌, OnOk, IfOk, length, filter, List, if◌then◌else◌};
ghost use Rattle.std.specs.List.{flat_map};
ghost use Rattle.proto_tree.specs.declared.node.Node.{out-Node};
ghost use Rattle.proto_decls.specs.Members as body;
ghost use Rattle.proto_decls.specs.Checks as spec;

use crate::checks::{
    add_backwards, add_bounds, add_kept_free, add_labels, add_name_reserved, add_name_twice,
    add_out_of_range, add_used_twice, diag, runs_forwards,
};
use crate::members::{
    add_fields, add_intervals, add_names, add_plain_fields, add_values, allows_alias, is, labels,
};
use crate::numbers::ZERO_VALUE;
use crate::overlaps::add_range_twice;
use crate::reach::add_number_reserved;
use crate::text::Source;
use proto_decls::{Diag, Interval, Member, Numbering, Problem, text_at};
use proto_tree::{MapField, Node, Span, TypeName};
use sqlite_items::Items;
use std::alloc::{AllocError, Global};
use std::collections::BTreeSet;

fn good_intervals(alloc: Global, found: &[Interval]) -> Result<Vec<Interval>, AllocError>
    ensures { IfOk result (λ v. v.items ≡ filter spec.runs_forwards found.now) }
{
    let mut good = Vec::with_capacity(alloc, found.len())?;
    for interval in found {
        if runs_forwards(*interval) {
            good.push(*interval)?;
        }
    }
    Ok(good)
}

// Adds what is wrong with the reserved numbers, and with the members by them.
fn add_interval_diags(
    alloc: Global,
    found: &[Interval],
    members: &[Member],
    diags: &mut Items<Diag>,
) -> Result<(), AllocError>
    ensures { OnOk result (diags.new ≡ diags.old ++ spec.interval_diags members.now found.now) }
{
    let good = good_intervals(alloc, found)?;
    add_number_reserved(alloc, good.as_slice(), members, diags)?;
    add_backwards(found, diags)?;
    add_range_twice(alloc, good.as_slice(), diags)
}

// Adds what is wrong with the reserved names, and with the members by them.
fn add_name_diags(
    source: Source<'_>,
    items: &[Node],
    members: &[Member],
    diags: &mut Items<Diag>,
) -> Result<(), AllocError>
    ensures { OnOk result (diags.new ≡ diags.old ++ spec.name_diags source.entry.text.now members.now (body.names source.entry.text.now items.now)) }
{
    let mut names = Items::new(source.alloc);
    add_names(source.alloc, source.text, items, &mut names)?;
    if names.is_empty() {
        return Ok(());
    }
    let mut seen = BTreeSet::new(source.alloc);
    add_name_twice(source.alloc, names.as_slice(), &mut seen, diags)?;
    add_name_reserved(source.text, &seen, members, diags)
}

// Adds what is wrong with what a body reserves, and with the members by it.
fn add_reserved_diags(
    source: Source<'_>,
    numbering: Numbering,
    items: &[Node],
    members: &[Member],
    diags: &mut Items<Diag>,
) -> Result<(), AllocError>
    ensures { OnOk result (diags.new ≡ diags.old ++ spec.reserved_diags numbering source.entry.text.now members.now items.now) }
{
    add_bounds(numbering, source.text, items, diags)?;
    let mut found = Items::new(source.alloc);
    add_intervals(numbering, source.text, items, &mut found)?;
    add_interval_diags(source.alloc, found.as_slice(), members, diags)?;
    add_name_diags(source, items, members, diags)
}

fn add_later_labels(items: &[Node], diags: &mut Items<Diag>) -> Result<(), AllocError>
    ensures { OnOk result (diags.new ≡ diags.old ++ spec.label_diags (flat_map body.later_labels items.now)) }
{
    'items: for node in items {
        let found = labels(node);
        add_labels(found.get(1..).unwrap_or(&[]), diags)?;
    }
    Ok(())
}

fn add_all_labels(items: &[Node], diags: &mut Items<Diag>) -> Result<(), AllocError>
    ensures { OnOk result (diags.new ≡ diags.old ++ spec.label_diags (flat_map body.labels items.now)) }
{
    'items: for node in items {
        add_labels(labels(node), diags)?;
    }
    Ok(())
}

// An empty list, with room for a member for each statement.
fn room_for(alloc: Global, items: &[Node]) -> Result<Items<Member>, AllocError>
    ensures { IfOk result (λ members. members ≡ []) }
{
    Ok(Items::from_vec(Vec::with_capacity(alloc, items.len())?))
}

fn add_message_diags(
    source: Source<'_>,
    items: &[Node],
    diags: &mut Items<Diag>,
) -> Result<(), AllocError>
    ensures { OnOk result (diags.new ≡ diags.old ++ spec.message_diags source.entry.text.now items.now) }
{
    let mut members = room_for(source.alloc, items)?;
    add_fields(source.text, items, &mut members)?;
    add_out_of_range(Numbering::Fields, members.as_slice(), diags)?;
    add_kept_free(members.as_slice(), diags)?;
    add_used_twice(source.alloc, Numbering::Fields, members.as_slice(), diags)?;
    add_reserved_diags(source, Numbering::Fields, items, members.as_slice(), diags)?;
    add_later_labels(items, diags)
}

fn add_extend_diags(
    source: Source<'_>,
    items: &[Node],
    diags: &mut Items<Diag>,
) -> Result<(), AllocError>
    ensures { OnOk result (diags.new ≡ diags.old ++ spec.extend_diags source.entry.text.now items.now) }
{
    let mut members = room_for(source.alloc, items)?;
    add_plain_fields(source.text, items, &mut members)?;
    add_out_of_range(Numbering::Fields, members.as_slice(), diags)?;
    add_kept_free(members.as_slice(), diags)?;
    add_later_labels(items, diags)
}

fn is_zero(value: Option<u32>) -> bool
    ensures { result ≡ spec.is_zero value }
{
    match value {
        Some(value) => value == ZERO_VALUE,
        None => false,
    }
}

fn add_first(name: Span, values: &[Member], diags: &mut Items<Diag>) -> Result<(), AllocError>
    ensures { OnOk result (diags.new ≡ diags.old ++ spec.first_diags name values.now) }
{
    match values {
        [] => diags.push(diag(Problem::FirstNotZero, name)),
        [first, ..] => {
            if is_zero(first.value) {
                Ok(())
            } else {
                diags.push(diag(Problem::FirstNotZero, first.number))
            }
        }
    }
}

fn add_alias_diags(
    alloc: Global,
    may: bool,
    values: &[Member],
    diags: &mut Items<Diag>,
) -> Result<(), AllocError>
    ensures { OnOk result (diags.new ≡ diags.old ++ spec.alias_diags may values.now) }
{
    if may {
        Ok(())
    } else {
        add_used_twice(alloc, Numbering::Values, values, diags)
    }
}

fn add_enum_diags(
    source: Source<'_>,
    name: Span,
    items: &[Node],
    diags: &mut Items<Diag>,
) -> Result<(), AllocError>
    ensures { OnOk result (diags.new ≡ diags.old ++ spec.enum_diags source.entry.text.now name items.now) }
{
    let mut values = room_for(source.alloc, items)?;
    add_values(source.text, items, &mut values)?;
    add_first(name, values.as_slice(), diags)?;
    add_out_of_range(Numbering::Values, values.as_slice(), diags)?;
    let may = allows_alias(source.text, items);
    add_alias_diags(source.alloc, may, values.as_slice(), diags)?;
    add_reserved_diags(source, Numbering::Values, items, values.as_slice(), diags)
}

fn is_key_word(word: &str) -> bool
    ensures { result ≡ spec.is_key_word word.now }
{
    is(word, "int32")
        || is(word, "int64")
        || is(word, "uint32")
        || is(word, "uint64")
        || is(word, "sint32")
        || is(word, "sint64")
        || is(word, "fixed32")
        || is(word, "fixed64")
        || is(word, "sfixed32")
        || is(word, "sfixed64")
        || is(word, "bool")
        || is(word, "string")
}

fn is_map_key(text: &str, key: &TypeName) -> bool
    ensures { result ≡ spec.is_map_key text.now key.now }
{
    is_key_word(text_at(text, key.span))
}

fn add_key(text: &str, field: &MapField, diags: &mut Items<Diag>) -> Result<(), AllocError>
    ensures { OnOk result (diags.new ≡ diags.old ++ spec.key_diags text.now field.now) }
{
    if is_map_key(text, &field.key) {
        Ok(())
    } else {
        diags.push(diag(Problem::MapKey, field.key.span))
    }
}

fn add_map_diags(text: &str, field: &MapField, diags: &mut Items<Diag>) -> Result<(), AllocError>
    ensures { OnOk result (diags.new ≡ diags.old ++ spec.map_diags text.now field.now) }
{
    add_key(text, field, diags)?;
    add_labels(field.labels.as_slice(), diags)
}

// Adds what is wrong in a statement itself, without the statements inside it.
pub fn add_statement_diags(
    source: Source<'_>,
    node: &Node,
    diags: &mut Items<Diag>,
) -> Result<(), AllocError>
    ensures { OnOk result (diags.new ≡ diags.old ++ spec.statement_diags source.entry.text.now node.now) }
{
    match node {
        Node::Message { items, .. } => add_message_diags(source, items.get().as_slice(), diags),
        Node::EnumDef { name, items, .. } => {
            add_enum_diags(source, *name, items.get().as_slice(), diags)
        }
        Node::Extend { items, .. } => add_extend_diags(source, items.get().as_slice(), diags),
        Node::Oneof { items, .. } => add_all_labels(items.get().as_slice(), diags),
        Node::MapField(field) => add_map_diags(source.text, field.get(), diags),
        _ => Ok(()),
    }
}
