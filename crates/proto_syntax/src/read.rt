// Reads the items of a body, and the bodies inside them.

ghost use Rattle.std.specs.Prelude.{◌≡◌, ◌<◌, ◌≤◌, ◌-◌, ◌∷◌, ◌++◌, [], length, take, drop, IfOk, OnOk, option_map, IsTrue, ◌↔◌};
ghost use Rattle.proto_tree.specs.Read as spec;
ghost use Rattle.proto_tree.specs.Cut as cut;
ghost use Rattle.proto_tree.specs.Forms as forms;

use crate::cut::{ends_in, is_stray, next_item};
use crate::forms::statement;
use crate::headers::{header_and_rest, opens};
use crate::parts::span_of;
use crate::skips::{Matched, skips};
use proto_tree::{Body, Fault, Header, Lexeme, Node, Span, SyntaxProblem, Terminal};
use sqlite_items::{Boxed, Items};
use std::alloc::{AllocError, Global};
use thread_heap::make_room;

// How many tokens a statement and a block may be expected to have.
const TOKENS_OF_A_STATEMENT: usize = 7;

const TOKENS_OF_A_BLOCK: usize = 32;

// For how many statements, and for how many blocks, a list may have room before they are read.
const MOST_STATEMENTS: usize = 16;

const MOST_BLOCKS: usize = 4096;

// How many blocks may still open in a body whose braces are matched before it is read: it stands inside three blocks.
const BLOCKS_IN_A_MATCHED_BODY: usize = 61;

// What a body is read with.
#[derive(Clone, Copy)]
pub struct BodyReader {
    pub alloc: Global,
    // How many blocks may still open, one inside the other.
    pub blocks: usize,
    pub body: Body,
}

fn bad(problem: SyntaxProblem, item: &[Lexeme], faults: &mut Items<Fault>) -> Result<(), AllocError>
    ensures { OnOk result (faults.new ≡ faults.old ++ (spec.bad problem item.now).faults) }
{
    faults.push(Fault {
        problem,
        span: span_of(item),
    })
}

fn block_node(
    alloc: Global,
    span: Span,
    header: Header,
    items: Items<Node>,
) -> Result<Node, AllocError>
    ensures { IfOk result (λ node. node ≡ forms.block_node span header items) }
{
    let items = Boxed::new(alloc, items)?;
    match header {
        Header::Message(name) => Ok(Node::Message { span, name, items }),
        Header::Enum(name) => Ok(Node::EnumDef { span, name, items }),
        Header::Service(name) => Ok(Node::Service { span, name, items }),
        Header::Oneof(name) => Ok(Node::Oneof { span, name, items }),
        Header::Group(name) => Ok(Node::Message { span, name, items }),
        Header::Extend(target) => Ok(Node::Extend {
            span,
            target,
            items,
        }),
        Header::Rpc {
            name,
            request,
            response,
        } => Ok(Node::Rpc {
            span: Boxed::new(alloc, span)?,
            name,
            request,
            response,
            items,
        }),
    }
}

fn body_of(header: &Header) -> Body
    ensures { result ≡ forms.body_of header.now }
{
    match header {
        Header::Message(_) | Header::Group(_) => Body::Message,
        Header::Enum(_) => Body::Enum,
        Header::Service(_) => Body::Service,
        Header::Oneof(_) => Body::Oneof,
        Header::Extend(_) => Body::Extend,
        Header::Rpc { .. } => Body::Rpc,
    }
}

// Reads a finished item as a statement.
fn statement_tree(
    alloc: Global,
    body: Body,
    item: &[Lexeme],
    nodes: &mut Items<Node>,
    faults: &mut Items<Fault>,
) -> Result<(), AllocError>
    ensures nodes { OnOk result (nodes.new ≡ nodes.old ++ (spec.statement_tree item.now (forms.statement body item.now)).nodes) }
    ensures faults { OnOk result (faults.new ≡ faults.old ++ (spec.statement_tree item.now (forms.statement body item.now)).faults) }
{
    match statement(alloc, body, item)? {
        Some(node) => {
            make_room(alloc, nodes.len())?;
            nodes.push(node)
        }
        None => bad(SyntaxProblem::NotUnderstood, item, faults),
    }
}

fn nests(alloc: Global, item: &[Lexeme]) -> Result<bool, AllocError>
    ensures { IfOk result (λ found. found ≡ spec.nests item.now) }
{
    match item.first() {
        Some(first) if is_nesting_word(first.terminal) => Ok(header_and_rest(
            alloc, item,
        )?.is_some()),
        _ => Ok(false),
    }
}

fn is_nesting_word(terminal: Terminal) -> bool
    ensures { result ≡ spec.is_nesting_word terminal }
{
    matches!(
        terminal,
        Terminal::Message | Terminal::Enum | Terminal::Oneof | Terminal::Extend | Terminal::Group
    )
}

fn may_open(body: Body, item: &[Lexeme]) -> bool
    ensures { result ≡ spec.may_open body item.now }
{
    match item.first() {
        Some(first) => opens(body, first.terminal),
        None => false,
    }
}

// Reads a finished item inside as many blocks as are allowed.
fn deepest_tree(
    alloc: Global,
    body: Body,
    item: &[Lexeme],
    nodes: &mut Items<Node>,
    faults: &mut Items<Fault>,
) -> Result<(), AllocError>
    ensures nodes { OnOk result (nodes.new ≡ nodes.old ++ (spec.deepest_tree body item.now).nodes) }
    ensures faults { OnOk result (faults.new ≡ faults.old ++ (spec.deepest_tree body item.now).faults) }
{
    if nests(alloc, item)? {
        bad(SyntaxProblem::TooDeep, item, faults)
    } else {
        statement_tree(alloc, body, item, nodes, faults)
    }
}

// A header, and the tokens behind its `{` with their skips.
fn header_and_inside(
    alloc: Global,
    item: Matched<'_>,
) -> Result<Option<(Header, Matched<'_>)>, AllocError>
    ensures { IfOk result (λ found. option_map (λ p. (p.0, p.1.tokens.now)) found ≡ forms.header_and_rest item.entry.tokens.now) }
{
    match header_and_rest(alloc, item.tokens)? {
        None => Ok(None),
        Some((header, rest)) => {
            let (_, inside) = item.split_at(item.tokens.len() - rest.len());
            Ok(Some((header, inside)))
        }
    }
}

// Reads a finished item: a block, inside which as many may open as the reader allows, or a statement.
#[cycle(blocks)]
fn form_tree(
    reader: BodyReader,
    item: Matched<'_>,
    nodes: &mut Items<Node>,
    faults: &mut Items<Fault>,
) -> Result<(), AllocError>
    ensures nodes { OnOk result (nodes.new ≡ nodes.old ++ (spec.form_tree (spec.body_tree reader.blocks) reader.body item.entry.tokens.now).nodes) }
    ensures faults { OnOk result (faults.new ≡ faults.old ++ (spec.form_tree (spec.body_tree reader.blocks) reader.body item.entry.tokens.now).faults) }
{
    if !may_open(reader.body, item.tokens) {
        return statement_tree(reader.alloc, reader.body, item.tokens, nodes, faults);
    }
    match header_and_inside(reader.alloc, item)? {
        None => statement_tree(reader.alloc, reader.body, item.tokens, nodes, faults),
        Some((header, rest)) => {
            if !ends_in(Terminal::CloseBrace, rest.tokens) {
                return bad(SyntaxProblem::NotUnderstood, item.tokens, faults);
            }
            let (inner, _) = rest.split_at(rest.tokens.len() - 1);
            let inside = BodyReader {
                body: body_of(&header),
                ..reader
            };
            let items = body_tree(inside, inner, faults)?;
            make_room(reader.alloc, nodes.len())?;
            nodes.push(block_node(reader.alloc, span_of(item.tokens), header, items)?)
        }
    }
}

#[cycle(blocks)]
fn finished_tree(
    reader: BodyReader,
    item: Matched<'_>,
    nodes: &mut Items<Node>,
    faults: &mut Items<Fault>,
) -> Result<(), AllocError>
    ensures nodes { OnOk result (nodes.new ≡ nodes.old ++ (spec.finished_tree reader.blocks reader.body item.entry.tokens.now).nodes) }
    ensures faults { OnOk result (faults.new ≡ faults.old ++ (spec.finished_tree reader.blocks reader.body item.entry.tokens.now).faults) }
{
    if reader.blocks == 0 {
        deepest_tree(reader.alloc, reader.body, item.tokens, nodes, faults)
    } else {
        let inside = BodyReader {
            blocks: reader.blocks - 1,
            ..reader
        };
        form_tree(inside, item, nodes, faults)
    }
}

#[cycle(blocks)]
fn item_tree(
    reader: BodyReader,
    item: Matched<'_>,
    is_finished: bool,
    nodes: &mut Items<Node>,
    faults: &mut Items<Fault>,
) -> Result<(), AllocError>
    requires { is_finished ≡ cut.is_finished reader.body item.tokens.now }
    ensures nodes { OnOk result (nodes.new ≡ nodes.old ++ (spec.item_tree (spec.finished_tree reader.blocks reader.body) reader.body item.entry.tokens.now).nodes) }
    ensures faults { OnOk result (faults.new ≡ faults.old ++ (spec.item_tree (spec.finished_tree reader.blocks reader.body) reader.body item.entry.tokens.now).faults) }
{
    if is_stray(reader.body, item.tokens) {
        bad(SyntaxProblem::NotUnderstood, item.tokens, faults)
    } else if is_finished {
        finished_tree(reader, item, nodes, faults)
    } else {
        bad(SyntaxProblem::Unfinished, item.tokens, faults)
    }
}

// An empty list with room for the items of a body of this many tokens: for statements where it is short, and for blocks
// where it is long. The list grows as it needs.
fn room_for_items(alloc: Global, tokens: usize) -> Result<Items<Node>, AllocError>
    ensures { IfOk result (λ list. list ≡ []) }
{
    let statements = (tokens / TOKENS_OF_A_STATEMENT + 1).min(MOST_STATEMENTS);
    let blocks = (tokens / TOKENS_OF_A_BLOCK).min(MOST_BLOCKS);
    let room = statements.max(blocks).min(tokens);
    let items = Vec::with_capacity(alloc, room)?;
    Ok(Items::from_vec(items))
}

// Reads a body. Where it stands deep, its braces are matched first: what stands further inside is then not looked through
// again for each block around it.
#[cycle(blocks)]
pub fn body_tree(
    reader: BodyReader,
    ts: Matched<'_>,
    faults: &mut Items<Fault>,
) -> Result<Items<Node>, AllocError>
    ensures nodes { IfOk result (λ nodes. nodes ≡ (spec.body_tree reader.blocks reader.body ts.entry.tokens.now).nodes) }
    ensures faults { OnOk result (faults.new ≡ faults.old ++ (spec.body_tree reader.blocks reader.body ts.entry.tokens.now).faults) }
{
    if reader.blocks != BLOCKS_IN_A_MATCHED_BODY {
        return items_tree(reader, ts, faults);
    }
    let skips = skips(reader.alloc, ts.tokens)?;
    let matched = Matched {
        tokens: ts.tokens,
        skips: skips.as_slice(),
    };
    items_tree(reader, matched, faults)
}

// Reads the items of a body in turn.
#[cycle(blocks)]
fn items_tree(
    reader: BodyReader,
    ts: Matched<'_>,
    faults: &mut Items<Fault>,
) -> Result<Items<Node>, AllocError>
    ensures nodes { IfOk result (λ nodes. nodes ≡ (spec.body_tree reader.blocks reader.body ts.entry.tokens.now).nodes) }
    ensures faults { OnOk result (faults.new ≡ faults.old ++ (spec.body_tree reader.blocks reader.body ts.entry.tokens.now).faults) }
{
    let mut nodes = room_for_items(reader.alloc, ts.tokens.len())?;
    let mut rest = ts;
    'items: while !rest.tokens.is_empty() {
        let cut = next_item(reader.body, rest);
        let (item, more) = rest.split_at(cut.len);
        item_tree(reader, item, cut.is_finished, &mut nodes, faults)?;
        rest = more;
    }
    Ok(nodes)
}
