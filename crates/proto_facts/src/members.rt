// What the body of a message, an enum or an extend block holds.

ghost use Rattle.std.specs.Prelude.{◌≡◌, ◌++◌, IfOk, OnOk, map};
ghost use Rattle.std.specs.List.{list_any, flat_map, filter_map};
ghost use Rattle.std.specs.Option.{option_to_list};
ghost use Rattle.std.specs.Str.{bytes_eq};
ghost use Rattle.proto_tree.specs.declared.node.Node.{out-Node};
ghost use Rattle.proto_decls.specs.Members as spec;

use crate::numbers::{greatest, plain, value_of};
use crate::text::literal_text;
use proto_decls::{Interval, Member, Numbering, ReservedName, text_at};
use proto_tree::{Literal, Node, Number, RangeEnd, ReservedList, ReservedRange, Span};
use sqlite_items::Items;
use std::alloc::{AllocError, Global};

// The labels of a plain field.
pub fn labels(node: &Node) -> &[Span]
    ensures { result.now ≡ spec.labels node.now }
{
    match node {
        Node::Field(field) => field.get().labels.as_slice(),
        _ => &[],
    }
}

fn member(numbering: Numbering, text: &str, name: Span, number: Number) -> Member
    ensures { result ≡ spec.member text.now numbering name number }
{
    Member {
        name,
        number: number.span,
        value: value_of(numbering, text, number),
    }
}

fn add_plain_field(text: &str, node: &Node, found: &mut Items<Member>) -> Result<(), AllocError>
    ensures { OnOk result (found.new ≡ found.old ++ spec.plain_field_of text.now (out-Node node.now)) }
{
    match node {
        Node::Field(field) => {
            let field = field.get();
            found.push(member(Numbering::Fields, text, field.name, plain(field.number)))
        }
        _ => Ok(()),
    }
}

// Adds the plain fields of a body.
pub fn add_plain_fields(
    text: &str,
    items: &[Node],
    found: &mut Items<Member>,
) -> Result<(), AllocError>
    ensures { OnOk result (found.new ≡ found.old ++ spec.plain_fields text.now items.now) }
{
    'items: for node in items {
        add_plain_field(text, node, found)?;
    }
    Ok(())
}

fn add_field(text: &str, node: &Node, found: &mut Items<Member>) -> Result<(), AllocError>
    ensures { OnOk result (found.new ≡ found.old ++ spec.fields_of text.now (out-Node node.now)) }
{
    match node {
        Node::Field(_) => add_plain_field(text, node, found),
        Node::MapField(field) => {
            let field = field.get();
            found.push(member(Numbering::Fields, text, field.name, plain(field.number)))
        }
        Node::Oneof { items, .. } => add_plain_fields(text, items.get().as_slice(), found),
        _ => Ok(()),
    }
}

// Adds the fields of a message, those of its oneofs included.
pub fn add_fields(text: &str, items: &[Node], found: &mut Items<Member>) -> Result<(), AllocError>
    ensures { OnOk result (found.new ≡ found.old ++ spec.fields text.now items.now) }
{
    'items: for node in items {
        add_field(text, node, found)?;
    }
    Ok(())
}

fn add_value(text: &str, node: &Node, found: &mut Items<Member>) -> Result<(), AllocError>
    ensures { OnOk result (found.new ≡ found.old ++ spec.value_in text.now (out-Node node.now)) }
{
    match node {
        Node::Value { name, number, .. } => {
            found.push(member(Numbering::Values, text, *name, *number.get()))
        }
        _ => Ok(()),
    }
}

// Adds the values of an enum.
pub fn add_values(text: &str, items: &[Node], found: &mut Items<Member>) -> Result<(), AllocError>
    ensures { OnOk result (found.new ≡ found.old ++ spec.values text.now items.now) }
{
    'items: for node in items {
        add_value(text, node, found)?;
    }
    Ok(())
}

pub fn is(name: &str, word: &str) -> bool
    ensures { result ≡ bytes_eq name.now word.now }
{
    name == word
}

fn is_alias_option(text: &str, node: &Node) -> bool
    ensures { result ≡ spec.is_alias_option text.now (out-Node node.now) }
{
    match node {
        Node::OptionDef { name, value, .. } => {
            is(text_at(text, *name), "allow_alias") && is(text_at(text, *value.get()), "true")
        }
        _ => false,
    }
}

// Whether an enum has `option allow_alias = true;`.
pub fn allows_alias(text: &str, items: &[Node]) -> bool
    ensures { result ≡ spec.allows_alias text.now items.now }
{
    items.iter().any(|node| is_alias_option(text, node))
}

pub fn ranges_in(node: &Node) -> &[ReservedRange]
    ensures { result.now ≡ spec.ranges_in (out-Node node.now) }
{
    match node {
        Node::Reserved { list, .. } => match list.get() {
            ReservedList::Ranges(ranges) => ranges.as_slice(),
            ReservedList::Names(_) => &[],
        },
        _ => &[],
    }
}

pub fn names_in(node: &Node) -> &[Literal]
    ensures { result.now ≡ spec.names_in (out-Node node.now) }
{
    match node {
        Node::Reserved { list, .. } => match list.get() {
            ReservedList::Names(names) => names.as_slice(),
            ReservedList::Ranges(_) => &[],
        },
        _ => &[],
    }
}

fn end_of(low: Number, high: RangeEnd) -> usize
    ensures { result ≡ spec.end_of low high }
{
    match high {
        RangeEnd::Same => low.span.end,
        RangeEnd::Number(number) => number.span.end,
        RangeEnd::Max(span) => span.end,
    }
}

fn range_span(range: ReservedRange) -> Span
    ensures { result ≡ spec.range_span range }
{
    Span {
        start: range.low.span.start,
        end: end_of(range.low, range.high),
    }
}

fn high_value(numbering: Numbering, text: &str, low: Number, high: RangeEnd) -> Option<u32>
    ensures { result ≡ spec.high_value numbering text.now low high }
{
    match high {
        RangeEnd::Same => value_of(numbering, text, low),
        RangeEnd::Number(number) => value_of(numbering, text, number),
        RangeEnd::Max(_) => Some(greatest(numbering)),
    }
}

fn interval_of(span: Span, low: Option<u32>, high: Option<u32>) -> Option<Interval>
    ensures { result ≡ spec.interval_of span low high }
{
    match low {
        Some(low) => match high {
            Some(high) => Some(Interval { span, low, high }),
            None => None,
        },
        None => None,
    }
}

// The numbers of a range, where both bounds are in range.
fn interval(numbering: Numbering, text: &str, range: ReservedRange) -> Option<Interval>
    ensures { result ≡ spec.interval numbering text.now range }
{
    interval_of(
        range_span(range),
        value_of(numbering, text, range.low),
        high_value(numbering, text, range.low, range.high),
    )
}

fn add_interval(
    numbering: Numbering,
    text: &str,
    range: ReservedRange,
    found: &mut Items<Interval>,
) -> Result<(), AllocError>
    ensures { OnOk result (found.new ≡ found.old ++ option_to_list (spec.interval numbering text.now range)) }
{
    match interval(numbering, text, range) {
        Some(interval) => found.push(interval),
        None => Ok(()),
    }
}

fn add_intervals_in(
    numbering: Numbering,
    text: &str,
    ranges: &[ReservedRange],
    found: &mut Items<Interval>,
) -> Result<(), AllocError>
    ensures { OnOk result (found.new ≡ found.old ++ filter_map (spec.interval numbering text.now) ranges.now) }
{
    'each: for range in ranges {
        add_interval(numbering, text, *range, found)?;
    }
    Ok(())
}

// Adds the reserved ranges of a body whose bounds are in range.
pub fn add_intervals(
    numbering: Numbering,
    text: &str,
    items: &[Node],
    found: &mut Items<Interval>,
) -> Result<(), AllocError>
    ensures { OnOk result (found.new ≡ found.old ++ spec.intervals numbering text.now items.now) }
{
    'items: for node in items {
        add_intervals_in(numbering, text, ranges_in(node), found)?;
    }
    Ok(())
}

fn add_names_of(
    alloc: Global,
    text: &str,
    names: &[Literal],
    found: &mut Items<ReservedName>,
) -> Result<(), AllocError>
    ensures { OnOk result (found.new ≡ found.old ++ map (spec.reserved_name text.now) names.now) }
{
    'each: for name in names {
        found.push(ReservedName {
            text: literal_text(alloc, text, name)?,
            span: name.span,
        })?;
    }
    Ok(())
}

// Adds the reserved names of a body.
pub fn add_names(
    alloc: Global,
    text: &str,
    items: &[Node],
    found: &mut Items<ReservedName>,
) -> Result<(), AllocError>
    ensures { OnOk result (found.new ≡ found.old ++ spec.names text.now items.now) }
{
    'items: for node in items {
        add_names_of(alloc, text, names_in(node), found)?;
    }
    Ok(())
}
