// The forms of statements. The first terminal of an item and the body that it stands in choose the form. The rarer forms
// aren't inlined: what they keep would make each statement dearer.

ghost use Rattle.std.specs.Prelude.{◌≡◌, ◌≤◌, IfOk, length};
ghost use Rattle.proto_tree.specs.Forms as spec;
ghost use Rattle.proto_syntax.specs.Reads.{Reads};

use crate::cut::ends_in;
use crate::headers::rpc_header;
use crate::parts::{TokenReader, Unread, between, is_content, last_of, room_for_one, span_of};
use proto_tree::{
    Body, Field, Header, Lexeme, Literal, MapField, Node, RangeEnd, ReservedList, ReservedRange,
    Span, Spans, Terminal,
};
use sqlite_items::{Boxed, Items};
use std::alloc::{AllocError, Global};

// ---- fields

#[tactic(auto, unfolding(proto_tree::specs::Forms::plain_field))]
fn plain_field(
    alloc: Global,
    tokens: &mut TokenReader<'_>,
    span: Span,
    labels: Spans,
) -> Result<Node, Unread>
    ensures { Reads (spec.plain_field span labels tokens.old.rest.now) result tokens.new.rest.now }
{
    let type_name = tokens.type_name(alloc)?;
    let (name, number) = tokens.numbered(alloc)?;
    let field = Field {
        span,
        labels,
        type_name,
        name,
        number,
    };
    Ok(Node::Field(Boxed::new(alloc, field)?))
}

#[inline(never)]
#[tactic(auto, unfolding(proto_tree::specs::Forms::map_field))]
fn map_field(
    alloc: Global,
    tokens: &mut TokenReader<'_>,
    span: Span,
    labels: Spans,
) -> Result<Node, Unread>
    ensures { Reads (spec.map_field span labels tokens.old.rest.now) result tokens.new.rest.now }
{
    tokens.terminal(Terminal::Map)?;
    tokens.terminal(Terminal::Less)?;
    let key = tokens.type_name(alloc)?;
    tokens.terminal(Terminal::Comma)?;
    let value = tokens.type_name(alloc)?;
    tokens.terminal(Terminal::Greater)?;
    let (name, number) = tokens.numbered(alloc)?;
    let field = MapField {
        span,
        labels,
        key,
        value,
        name,
        number,
    };
    Ok(Node::MapField(Boxed::new(alloc, field)?))
}

#[tactic(auto, unfolding(proto_tree::specs::Forms::field))]
fn field(alloc: Global, tokens: &mut TokenReader<'_>, span: Span) -> Result<Node, Unread>
    ensures { Reads (spec.field span tokens.old.rest.now) result tokens.new.rest.now }
{
    let labels = tokens.labels(alloc)?;
    plain_field(alloc, tokens, span, labels)
}

fn begins_map(ts: &[Lexeme]) -> bool
    ensures { result ≡ spec.begins_map ts.now }
{
    match ts {
        [first, second, ..] => first.is(Terminal::Map) && second.is(Terminal::Less),
        _ => false,
    }
}

#[tactic(auto, unfolding(proto_tree::specs::Forms::field_or_map))]
fn field_or_map(alloc: Global, tokens: &mut TokenReader<'_>, span: Span) -> Result<Node, Unread>
    ensures { Reads (spec.field_or_map span tokens.old.rest.now) result tokens.new.rest.now }
{
    let labels = tokens.labels(alloc)?;
    if begins_map(tokens.rest) {
        map_field(alloc, tokens, span, labels)
    } else {
        plain_field(alloc, tokens, span, labels)
    }
}

// ---- the other statements

#[inline(never)]
#[tactic(auto, unfolding(proto_tree::specs::Forms::syntax_form))]
fn syntax_form(alloc: Global, tokens: &mut TokenReader<'_>, span: Span) -> Result<Node, Unread>
    ensures { Reads (spec.syntax_form span tokens.old.rest.now) result tokens.new.rest.now }
{
    tokens.terminal(Terminal::Syntax)?;
    tokens.terminal(Terminal::Equals)?;
    let value = Boxed::new(alloc, tokens.literal(alloc)?)?;
    tokens.terminal(Terminal::Semicolon)?;
    Ok(Node::Syntax { span, value })
}

#[inline(never)]
#[tactic(auto, unfolding(proto_tree::specs::Forms::import_form))]
fn import_form(alloc: Global, tokens: &mut TokenReader<'_>, span: Span) -> Result<Node, Unread>
    ensures { Reads (spec.import_form span tokens.old.rest.now) result tokens.new.rest.now }
{
    tokens.terminal(Terminal::Import)?;
    let is_public = !tokens.eat(Terminal::Weak) && tokens.eat(Terminal::Public);
    let path = Boxed::new(alloc, tokens.literal(alloc)?)?;
    tokens.terminal(Terminal::Semicolon)?;
    Ok(Node::Import {
        span,
        is_public,
        path,
    })
}

#[inline(never)]
#[tactic(auto, unfolding(proto_tree::specs::Forms::package_form))]
fn package_form(alloc: Global, tokens: &mut TokenReader<'_>, span: Span) -> Result<Node, Unread>
    ensures { Reads (spec.package_form span tokens.old.rest.now) result tokens.new.rest.now }
{
    tokens.terminal(Terminal::Package)?;
    let components = tokens.full(alloc)?;
    tokens.terminal(Terminal::Semicolon)?;
    let Some(first) = components.as_slice().first() else {
        return Err(Unread::NoForm);
    };
    let name = between(*first, last_of(*first, components.as_slice()));
    Ok(Node::Package {
        span,
        name,
        components: Boxed::new(alloc, components)?,
    })
}

#[tactic(auto, unfolding(proto_tree::specs::Forms::value_form))]
fn value_form(alloc: Global, tokens: &mut TokenReader<'_>, span: Span) -> Result<Node, Unread>
    ensures { Reads (spec.value_form span tokens.old.rest.now) result tokens.new.rest.now }
{
    let name = tokens.identifier()?;
    tokens.terminal(Terminal::Equals)?;
    let number = Boxed::new(alloc, tokens.number(true)?)?;
    tokens.options_end(alloc)?;
    Ok(Node::Value { span, name, number })
}

#[tactic(auto, unfolding(proto_tree::specs::Forms::empty_form))]
fn empty_form(tokens: &mut TokenReader<'_>, span: Span) -> Result<Node, Unread>
    ensures { Reads (spec.empty_form span tokens.old.rest.now) result tokens.new.rest.now }
{
    tokens.terminal(Terminal::Semicolon)?;
    Ok(Node::Empty { span })
}

#[tactic(auto, unfolding(proto_tree::specs::Forms::range_end))]
fn range_end(tokens: &mut TokenReader<'_>, may_be_negative: bool) -> Result<RangeEnd, Unread>
    ensures reads { Reads (spec.range_end may_be_negative tokens.old.rest.now) result tokens.new.rest.now }
    ensures left { length tokens.new.rest.now ≤ length tokens.old.rest.now }
{
    if tokens.begins(Terminal::Max) {
        return Ok(RangeEnd::Max(tokens.terminal(Terminal::Max)?));
    }
    Ok(RangeEnd::Number(tokens.number(may_be_negative)?))
}

#[tactic(auto, unfolding(proto_tree::specs::Forms::range))]
fn range(tokens: &mut TokenReader<'_>, may_be_negative: bool) -> Result<ReservedRange, Unread>
    ensures reads { Reads (spec.range may_be_negative tokens.old.rest.now) result tokens.new.rest.now }
    ensures left { length tokens.new.rest.now ≤ length tokens.old.rest.now }
{
    let low = tokens.number(may_be_negative)?;
    let high = if tokens.eat(Terminal::To) {
        range_end(tokens, may_be_negative)?
    } else {
        RangeEnd::Same
    };
    Ok(ReservedRange { low, high })
}

fn ranges(
    alloc: Global,
    tokens: &mut TokenReader<'_>,
    may_be_negative: bool,
) -> Result<Items<ReservedRange>, Unread>
    ensures { Reads (spec.ranges may_be_negative tokens.old.rest.now) result tokens.new.rest.now }
{
    let mut found = Items::new(alloc);
    'parts: loop {
        let item = range(tokens, may_be_negative)?;
        found.push(item)?;
        if !tokens.eat(Terminal::Comma) {
            return Ok(found);
        }
    }
}

fn literals(alloc: Global, tokens: &mut TokenReader<'_>) -> Result<Items<Literal>, Unread>
    ensures { Reads (spec.literals tokens.old.rest.now) result tokens.new.rest.now }
{
    let mut found = Items::new(alloc);
    'parts: loop {
        let item = tokens.literal(alloc)?;
        found.push(item)?;
        if !tokens.eat(Terminal::Comma) {
            return Ok(found);
        }
    }
}

#[tactic(auto, unfolding(proto_tree::specs::Forms::reserved_list))]
fn reserved_list(
    alloc: Global,
    tokens: &mut TokenReader<'_>,
    may_be_negative: bool,
) -> Result<ReservedList, Unread>
    ensures { Reads (spec.reserved_list may_be_negative tokens.old.rest.now) result tokens.new.rest.now }
{
    if tokens.begins(Terminal::PlainText) {
        Ok(ReservedList::Names(literals(alloc, tokens)?))
    } else {
        Ok(ReservedList::Ranges(ranges(alloc, tokens, may_be_negative)?))
    }
}

#[tactic(auto, unfolding(proto_tree::specs::Forms::reserved_form))]
fn reserved_form(
    alloc: Global,
    tokens: &mut TokenReader<'_>,
    span: Span,
    may_be_negative: bool,
) -> Result<Node, Unread>
    ensures { Reads (spec.reserved_form may_be_negative span tokens.old.rest.now) result tokens.new.rest.now }
{
    tokens.terminal(Terminal::Reserved)?;
    let list = Boxed::new(alloc, reserved_list(alloc, tokens, may_be_negative)?)?;
    tokens.terminal(Terminal::Semicolon)?;
    Ok(Node::Reserved { span, list })
}

// An identifier, or a name in parentheses.
#[tactic(auto, unfolding(proto_tree::specs::Forms::option_part))]
fn option_part(alloc: Global, tokens: &mut TokenReader<'_>) -> Result<Span, Unread>
    ensures reads { Reads (spec.option_part tokens.old.rest.now) result tokens.new.rest.now }
    ensures left { length tokens.new.rest.now ≤ length tokens.old.rest.now }
{
    if !tokens.begins(Terminal::OpenParen) {
        return tokens.identifier();
    }
    tokens.terminal(Terminal::OpenParen)?;
    tokens.eat(Terminal::Dot);
    tokens.full(alloc)?;
    tokens.terminal(Terminal::CloseParen)
}

fn option_parts(alloc: Global, tokens: &mut TokenReader<'_>) -> Result<Items<Span>, Unread>
    ensures { Reads (spec.option_parts tokens.old.rest.now) result tokens.new.rest.now }
{
    let mut found = room_for_one(alloc)?;
    'parts: loop {
        let item = option_part(alloc, tokens)?;
        found.push(item)?;
        if !tokens.eat(Terminal::Dot) {
            return Ok(found);
        }
    }
}

// A value, up to the `;` that ends the item.
#[tactic(auto, unfolding(proto_tree::specs::Forms::option_value))]
fn option_value(alloc: Global, tokens: &mut TokenReader<'_>) -> Result<Boxed<Span>, Unread>
    ensures { Reads (spec.option_value tokens.old.rest.now) result tokens.new.rest.now }
{
    if !ends_in(Terminal::Semicolon, tokens.rest) {
        return Err(Unread::NoForm);
    }
    let value = &tokens.rest[..tokens.rest.len().saturating_sub(1)];
    if !is_content(alloc, value)? {
        return Err(Unread::NoForm);
    }
    let span = Boxed::new(alloc, span_of(value))?;
    tokens.rest = &[];
    Ok(span)
}

#[tactic(auto, unfolding(proto_tree::specs::Forms::option_form))]
fn option_form(alloc: Global, tokens: &mut TokenReader<'_>, span: Span) -> Result<Node, Unread>
    ensures { Reads (spec.option_form span tokens.old.rest.now) result tokens.new.rest.now }
{
    tokens.terminal(Terminal::Option)?;
    let Some(first) = tokens.rest.first() else {
        return Err(Unread::NoForm);
    };
    let parts = option_parts(alloc, tokens)?;
    tokens.terminal(Terminal::Equals)?;
    let value = option_value(alloc, tokens)?;
    Ok(Node::OptionDef {
        span,
        name: between(first.span, last_of(first.span, parts.as_slice())),
        value,
    })
}

#[inline(never)]
#[tactic(auto, unfolding(proto_tree::specs::Forms::rpc_form))]
fn rpc_form(alloc: Global, tokens: &mut TokenReader<'_>, span: Span) -> Result<Node, Unread>
    ensures { Reads (spec.rpc_form span tokens.old.rest.now) result tokens.new.rest.now }
{
    let header = rpc_header(alloc, tokens)?;
    tokens.terminal(Terminal::Semicolon)?;
    match header {
        Header::Rpc {
            name,
            request,
            response,
        } => Ok(Node::Rpc {
            span: Boxed::new(alloc, span)?,
            name,
            request,
            response,
            items: Boxed::new(alloc, Items::new(alloc))?,
        }),
        _ => Err(Unread::NoForm),
    }
}

// ---- the forms of each body

fn file_form(
    alloc: Global,
    tokens: &mut TokenReader<'_>,
    terminal: Terminal,
    span: Span,
) -> Result<Node, Unread>
    ensures { Reads (spec.file_form terminal span tokens.old.rest.now) result tokens.new.rest.now }
{
    match terminal {
        Terminal::Syntax => syntax_form(alloc, tokens, span),
        Terminal::Import => import_form(alloc, tokens, span),
        Terminal::Package => package_form(alloc, tokens, span),
        Terminal::Option => option_form(alloc, tokens, span),
        Terminal::Semicolon => empty_form(tokens, span),
        _ => Err(Unread::NoForm),
    }
}

fn message_form(
    alloc: Global,
    tokens: &mut TokenReader<'_>,
    terminal: Terminal,
    span: Span,
) -> Result<Node, Unread>
    ensures { Reads (spec.message_form terminal span tokens.old.rest.now) result tokens.new.rest.now }
{
    match terminal {
        Terminal::Message | Terminal::Enum | Terminal::Extend | Terminal::Oneof => Err(
            Unread::NoForm,
        ),
        Terminal::Option => option_form(alloc, tokens, span),
        Terminal::Reserved => reserved_form(alloc, tokens, span, false),
        Terminal::Semicolon => empty_form(tokens, span),
        _ => field_or_map(alloc, tokens, span),
    }
}

fn oneof_form(
    alloc: Global,
    tokens: &mut TokenReader<'_>,
    terminal: Terminal,
    span: Span,
) -> Result<Node, Unread>
    ensures { Reads (spec.oneof_form terminal span tokens.old.rest.now) result tokens.new.rest.now }
{
    match terminal {
        Terminal::Option => option_form(alloc, tokens, span),
        Terminal::Semicolon => empty_form(tokens, span),
        _ => field(alloc, tokens, span),
    }
}

fn extend_form(
    alloc: Global,
    tokens: &mut TokenReader<'_>,
    terminal: Terminal,
    span: Span,
) -> Result<Node, Unread>
    ensures { Reads (spec.extend_form terminal span tokens.old.rest.now) result tokens.new.rest.now }
{
    match terminal {
        Terminal::Semicolon => empty_form(tokens, span),
        _ => field(alloc, tokens, span),
    }
}

fn enum_form(
    alloc: Global,
    tokens: &mut TokenReader<'_>,
    terminal: Terminal,
    span: Span,
) -> Result<Node, Unread>
    ensures { Reads (spec.enum_form terminal span tokens.old.rest.now) result tokens.new.rest.now }
{
    match terminal {
        Terminal::Option => option_form(alloc, tokens, span),
        Terminal::Reserved => reserved_form(alloc, tokens, span, true),
        Terminal::Semicolon => empty_form(tokens, span),
        _ => value_form(alloc, tokens, span),
    }
}

fn service_form(
    alloc: Global,
    tokens: &mut TokenReader<'_>,
    terminal: Terminal,
    span: Span,
) -> Result<Node, Unread>
    ensures { Reads (spec.service_form terminal span tokens.old.rest.now) result tokens.new.rest.now }
{
    match terminal {
        Terminal::Option => option_form(alloc, tokens, span),
        Terminal::Rpc => rpc_form(alloc, tokens, span),
        Terminal::Semicolon => empty_form(tokens, span),
        _ => Err(Unread::NoForm),
    }
}

fn rpc_body_form(
    alloc: Global,
    tokens: &mut TokenReader<'_>,
    terminal: Terminal,
    span: Span,
) -> Result<Node, Unread>
    ensures { Reads (spec.rpc_body_form terminal span tokens.old.rest.now) result tokens.new.rest.now }
{
    match terminal {
        Terminal::Option => option_form(alloc, tokens, span),
        Terminal::Semicolon => empty_form(tokens, span),
        _ => Err(Unread::NoForm),
    }
}

fn form(
    alloc: Global,
    tokens: &mut TokenReader<'_>,
    body: Body,
    terminal: Terminal,
    span: Span,
) -> Result<Node, Unread>
    ensures { Reads (spec.form body terminal span tokens.old.rest.now) result tokens.new.rest.now }
{
    match body {
        Body::File => file_form(alloc, tokens, terminal, span),
        Body::Message => message_form(alloc, tokens, terminal, span),
        Body::Oneof => oneof_form(alloc, tokens, terminal, span),
        Body::Extend => extend_form(alloc, tokens, terminal, span),
        Body::Enum => enum_form(alloc, tokens, terminal, span),
        Body::Service => service_form(alloc, tokens, terminal, span),
        Body::Rpc => rpc_body_form(alloc, tokens, terminal, span),
    }
}

#[tactic(auto, unfolding(proto_tree::specs::Forms::statement))]
pub fn statement(alloc: Global, body: Body, item: &[Lexeme]) -> Result<Option<Node>, AllocError>
    ensures { IfOk result (λ found. found ≡ spec.statement body item.now) }
{
    let Some(first) = item.first() else {
        return Ok(None);
    };
    let mut tokens = TokenReader { rest: item };
    match form(alloc, &mut tokens, body, first.terminal, span_of(item)) {
        Ok(node) if tokens.rest.is_empty() => Ok(Some(node)),
        Ok(_) | Err(Unread::NoForm) => Ok(None),
        Err(Unread::Memory) => Err(AllocError),
    }
}
