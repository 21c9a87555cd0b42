// What stands before the braces of a block.

ghost use Rattle.std.specs.Prelude.{◌≡◌, IfOk, option_map};
ghost use Rattle.proto_tree.specs.Forms as spec;
ghost use Rattle.proto_syntax.specs.Reads.{Reads};

use crate::parts::{TokenReader, Unread};
use proto_tree::{Body, Header, Lexeme, Span, Terminal};
use sqlite_items::Boxed;
use std::alloc::{AllocError, Global};

fn block_name(tokens: &mut TokenReader<'_>, terminal: Terminal) -> Result<Span, Unread>
    ensures { Reads (spec.block_name terminal tokens.old.rest.now) result tokens.new.rest.now }
{
    tokens.terminal(terminal)?;
    tokens.identifier()
}

#[tactic(auto, unfolding(proto_tree::specs::Forms::extend_header))]
fn extend_header(alloc: Global, tokens: &mut TokenReader<'_>) -> Result<Header, Unread>
    ensures { Reads (spec.extend_header tokens.old.rest.now) result tokens.new.rest.now }
{
    tokens.terminal(Terminal::Extend)?;
    Ok(Header::Extend(Boxed::new(alloc, tokens.type_name(alloc)?)?))
}

#[tactic(auto, unfolding(proto_tree::specs::Forms::group_header))]
fn group_header(tokens: &mut TokenReader<'_>) -> Result<Header, Unread>
    ensures { Reads (spec.group_header tokens.old.rest.now) result tokens.new.rest.now }
{
    tokens.terminal(Terminal::Group)?;
    let name = tokens.identifier()?;
    tokens.terminal(Terminal::Equals)?;
    tokens.terminal(Terminal::Int)?;
    Ok(Header::Group(name))
}

#[tactic(auto, unfolding(proto_tree::specs::Forms::rpc_header))]
pub fn rpc_header(alloc: Global, tokens: &mut TokenReader<'_>) -> Result<Header, Unread>
    ensures { Reads (spec.rpc_header tokens.old.rest.now) result tokens.new.rest.now }
{
    tokens.terminal(Terminal::Rpc)?;
    let name = Boxed::new(alloc, tokens.identifier()?)?;
    let request = tokens.in_parentheses(alloc)?;
    tokens.terminal(Terminal::Returns)?;
    let response = tokens.in_parentheses(alloc)?;
    Ok(Header::Rpc {
        name,
        request,
        response,
    })
}

fn header_form(
    alloc: Global,
    tokens: &mut TokenReader<'_>,
    terminal: Terminal,
) -> Result<Header, Unread>
    ensures { Reads (spec.header_form terminal tokens.old.rest.now) result tokens.new.rest.now }
{
    match terminal {
        Terminal::Message => Ok(Header::Message(block_name(tokens, terminal)?)),
        Terminal::Enum => Ok(Header::Enum(block_name(tokens, terminal)?)),
        Terminal::Service => Ok(Header::Service(block_name(tokens, terminal)?)),
        Terminal::Oneof => Ok(Header::Oneof(block_name(tokens, terminal)?)),
        Terminal::Extend => extend_header(alloc, tokens),
        Terminal::Group => group_header(tokens),
        Terminal::Rpc => rpc_header(alloc, tokens),
        _ => Err(Unread::NoForm),
    }
}

// A header and its `{`.
#[tactic(auto, unfolding(proto_tree::specs::Forms::header_and_brace))]
fn header_and_brace(alloc: Global, tokens: &mut TokenReader<'_>) -> Result<Header, Unread>
    ensures { Reads (spec.header_and_brace tokens.old.rest.now) result tokens.new.rest.now }
{
    let Some(first) = tokens.rest.first() else {
        return Err(Unread::NoForm);
    };
    let header = header_form(alloc, tokens, first.terminal)?;
    tokens.terminal(Terminal::OpenBrace)?;
    Ok(header)
}

// A header and the tokens behind its `{`.
pub fn header_and_rest(
    alloc: Global,
    item: &[Lexeme],
) -> Result<Option<(Header, &[Lexeme])>, AllocError>
    ensures { IfOk result (λ found. option_map (λ p. (p.0, p.1.now)) found ≡ spec.header_and_rest item.now) }
{
    let mut tokens = TokenReader { rest: item };
    match header_and_brace(alloc, &mut tokens) {
        Ok(header) => Ok(Some((header, tokens.rest))),
        Err(Unread::NoForm) => Ok(None),
        Err(Unread::Memory) => Err(AllocError),
    }
}

pub fn opens(body: Body, terminal: Terminal) -> bool
    ensures { result ≡ spec.opens body terminal }
{
    match body {
        Body::File => matches!(
            terminal,
            Terminal::Message | Terminal::Enum | Terminal::Service | Terminal::Extend
        ),
        Body::Message => matches!(
            terminal,
            Terminal::Message
                | Terminal::Enum
                | Terminal::Extend
                | Terminal::Oneof
                | Terminal::Group
        ),
        Body::Oneof | Body::Extend => matches!(terminal, Terminal::Group),
        Body::Service => matches!(terminal, Terminal::Rpc),
        _ => false,
    }
}
