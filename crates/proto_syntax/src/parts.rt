// Takes the parts of a statement from the front of its tokens.

ghost use Rattle.std.specs.Prelude.{◌≡◌, ◌≤◌, [], length, reverse, IfOk};
ghost use Rattle.proto_syntax.specs.Brackets.{TakesBracket};
ghost use Rattle.proto_tree.specs.Parts as spec;
ghost use Rattle.proto_tree.specs.Forms as forms;
ghost use Rattle.proto_tree.specs.Cut as cut;

use crate::cut::ends_in;
use proto_tree::{Lexeme, Literal, Number, Span, Spans, Terminal, TypeName};
use sqlite_items::{Boxed, Items};
use std::alloc::{AllocError, Global};

// Why a part wasn't read.
#[derive(Debug, Drop)]
pub enum Unread {
    Memory,
    NoForm,
}

impl From<AllocError> for Unread {
    ghost use Rattle.proto_syntax.specs.declared.parts.Unread.TheVariants.{Memory};

    ghost from_gives = { λ _ e. e ≡ Memory };

    fn from(_: AllocError) -> Self {
        Unread::Memory
    }
}

// The tokens that are left of a statement.
#[derive(Clone, Copy)]
pub struct TokenReader<'a> {
    pub rest: &'a [Lexeme],
}

impl<'a> TokenReader<'a> {
    ghost use Rattle.proto_tree.specs.Parts as spec;
    ghost use Rattle.proto_syntax.specs.Reads.{Reads};

    #[tactic(auto, unfolding(proto_tree::specs::Parts::one))]
    pub fn terminal(&mut self, terminal: Terminal) -> Result<Span, Unread>
        ensures reads { Reads (spec.terminal terminal self.old.rest.now) result self.new.rest.now }
        ensures left { length self.new.rest.now ≤ length self.old.rest.now }
    {
        match self.rest {
            [first, rest @ ..] if first.terminal == terminal => {
                self.rest = rest;
                Ok(first.span)
            }
            _ => Err(Unread::NoForm),
        }
    }

    #[tactic(auto, unfolding(proto_tree::specs::Parts::one))]
    pub fn identifier(&mut self) -> Result<Span, Unread>
        ensures reads { Reads (spec.identifier self.old.rest.now) result self.new.rest.now }
        ensures left { length self.new.rest.now ≤ length self.old.rest.now }
    {
        match self.rest {
            [first, rest @ ..] if first.terminal.is_identifier() => {
                self.rest = rest;
                Ok(first.span)
            }
            _ => Err(Unread::NoForm),
        }
    }

    #[tactic(auto, unfolding(proto_tree::specs::Parts::eat))]
    pub fn eat(&mut self, terminal: Terminal) -> bool
        ensures reads { spec.eat terminal self.old.rest.now ≡ Some (result, self.new.rest.now) }
        ensures left { length self.new.rest.now ≤ length self.old.rest.now }
    {
        match self.rest {
            [first, rest @ ..] if first.is(terminal) => {
                self.rest = rest;
                true
            }
            _ => false,
        }
    }

    pub fn begins(&self, terminal: Terminal) -> bool
        ensures { result ≡ cut.begins terminal self.now.rest.now }
    {
        match self.rest.first() {
            Some(first) => first.is(terminal),
            None => false,
        }
    }

    #[tactic(auto, unfolding(proto_tree::specs::Parts::number))]
    pub fn number(&mut self, may_be_negative: bool) -> Result<Number, Unread>
        ensures reads { Reads (spec.number may_be_negative self.old.rest.now) result self.new.rest.now }
        ensures left { length self.new.rest.now ≤ length self.old.rest.now }
    {
        if !may_be_negative {
            let digits = self.terminal(Terminal::Int)?;
            return Ok(Number {
                span: digits,
                is_negative: false,
                digits,
            });
        }
        let Some(first) = self.rest.first() else {
            return Err(Unread::NoForm);
        };
        let is_negative = self.eat(Terminal::Minus);
        let digits = self.terminal(Terminal::Int)?;
        Ok(Number {
            span: Span {
                start: first.span.start,
                end: digits.end,
            },
            is_negative,
            digits,
        })
    }

    // Identifiers joined by dots.
    pub fn full(&mut self, alloc: Global) -> Result<Items<Span>, Unread>
        ensures reads { Reads (spec.full self.old.rest.now) result self.new.rest.now }
        ensures left { length self.new.rest.now ≤ length self.old.rest.now }
    {
        let mut found = room_for_one(alloc)?;
        'parts: loop {
            let name = self.identifier()?;
            found.push(name)?;
            if !self.eat(Terminal::Dot) {
                return Ok(found);
            }
        }
    }

    #[tactic(auto, unfolding(proto_tree::specs::Parts::type_name))]
    pub fn type_name(&mut self, alloc: Global) -> Result<TypeName, Unread>
        ensures reads { Reads (spec.type_name self.old.rest.now) result self.new.rest.now }
        ensures left { length self.new.rest.now ≤ length self.old.rest.now }
    {
        let Some(first) = self.rest.first() else {
            return Err(Unread::NoForm);
        };
        let is_absolute = self.eat(Terminal::Dot);
        let components = Spans::of(self.full(alloc)?);
        let last = last_of(first.span, components.as_slice());
        Ok(TypeName {
            span: between(first.span, last),
            is_absolute,
            components,
        })
    }

    // As many plain strings as stand here.
    pub fn plain_texts(&mut self, alloc: Global) -> Result<Items<Span>, AllocError>
        ensures reads { IfOk result (λ found. spec.texts self.old.rest.now ≡ (found, self.new.rest.now)) }
        ensures left { length self.new.rest.now ≤ length self.old.rest.now }
    {
        let mut found = room_for_one(alloc)?;
        'texts: while let [first, rest @ ..] = self.rest {
            if first.terminal != Terminal::PlainText {
                return Ok(found);
            }
            found.push(first.span)?;
            self.rest = rest;
        }
        Ok(found)
    }

    #[tactic(auto, unfolding(proto_tree::specs::Parts::literal))]
    pub fn literal(&mut self, alloc: Global) -> Result<Literal, Unread>
        ensures reads { Reads (spec.literal self.old.rest.now) result self.new.rest.now }
        ensures left { length self.new.rest.now ≤ length self.old.rest.now }
    {
        let parts = self.plain_texts(alloc)?;
        let Some(first) = parts.as_slice().first() else {
            return Err(Unread::NoForm);
        };
        Ok(Literal {
            span: between(*first, last_of(*first, parts.as_slice())),
            parts,
        })
    }

    // The end of a field: `;`, or options in brackets and `;`.
    pub fn options_end(&mut self, alloc: Global) -> Result<(), Unread>
        ensures { Reads (spec.rest_if spec.is_options_end self.old.rest.now) result self.new.rest.now }
    {
        if !is_options_end(alloc, self.rest)? {
            return Err(Unread::NoForm);
        }
        self.rest = &[];
        Ok(())
    }

    // What follows the header of a field: its name, its number and its options.
    pub fn numbered(&mut self, alloc: Global) -> Result<(Span, Span), Unread>
        ensures { Reads (forms.numbered self.old.rest.now) result self.new.rest.now }
    {
        let name = self.identifier()?;
        self.terminal(Terminal::Equals)?;
        let number = self.terminal(Terminal::Int)?;
        self.options_end(alloc)?;
        Ok((name, number))
    }

    #[tactic(auto, unfolding(proto_tree::specs::Forms::label))]
    fn label(&mut self) -> Option<Span>
        ensures { forms.label self.old.rest.now ≡ Some (result, self.new.rest.now) }
    {
        match self.rest {
            [first, rest @ ..] if first.terminal.is_label() => {
                self.rest = rest;
                Some(first.span)
            }
            _ => None,
        }
    }

    #[tactic(auto, unfolding(proto_tree::specs::Forms::labels))]
    pub fn labels(&mut self, alloc: Global) -> Result<Spans, Unread>
        ensures { Reads (forms.labels self.old.rest.now) result self.new.rest.now }
    {
        let Some(first) = self.label() else {
            return Ok(Spans::of(Items::new(alloc)));
        };
        let Some(second) = self.label() else {
            return Ok(Spans::one(first));
        };
        let mut both = Items::new(alloc);
        both.push(first)?;
        both.push(second)?;
        Ok(Spans::of(both))
    }

    #[tactic(auto, unfolding(proto_tree::specs::Forms::in_parentheses))]
    pub fn in_parentheses(&mut self, alloc: Global) -> Result<Boxed<TypeName>, Unread>
        ensures { Reads (forms.in_parentheses self.old.rest.now) result self.new.rest.now }
    {
        self.terminal(Terminal::OpenParen)?;
        self.eat(Terminal::Stream);
        let type_name = Boxed::new(alloc, self.type_name(alloc)?)?;
        self.terminal(Terminal::CloseParen)?;
        Ok(type_name)
    }
}

// An empty list with room for one item, which most lists of a statement have.
pub fn room_for_one(alloc: Global) -> Result<Items<Span>, AllocError>
    ensures { IfOk result (λ list. list ≡ []) }
{
    let items = Vec::with_capacity(alloc, 1)?;
    Ok(Items::from_vec(items))
}

fn opener(terminal: Terminal) -> Option<Terminal>
    ensures { result ≡ spec.opener terminal }
{
    match terminal {
        Terminal::OpenBrace => Some(Terminal::CloseBrace),
        Terminal::OpenBracket => Some(Terminal::CloseBracket),
        Terminal::OpenParen => Some(Terminal::CloseParen),
        _ => None,
    }
}

fn is_closer(terminal: Terminal) -> bool
    ensures { result ≡ spec.is_closer terminal }
{
    matches!(
        terminal,
        Terminal::CloseBrace | Terminal::CloseBracket | Terminal::CloseParen
    )
}

// Takes one token: an opening one is pending until its closing one comes. False where a closing one closes nothing.
fn take_bracket(pending: &mut Vec<Terminal>, terminal: Terminal) -> Result<bool, AllocError>
    ensures { IfOk result (λ goes_on. TakesBracket (reverse pending.old.items) terminal goes_on (reverse pending.new.items)) }
{
    if let Some(close) = opener(terminal) {
        pending.push(close)?;
        return Ok(true);
    }
    if !is_closer(terminal) {
        return Ok(true);
    }
    match pending.pop() {
        Some(close) => Ok(terminal == close),
        None => Ok(false),
    }
}

// Whether braces, brackets and parentheses stand in pairs.
fn is_balanced(alloc: Global, ts: &[Lexeme]) -> Result<bool, AllocError>
    ensures { IfOk result (λ found. found ≡ spec.is_balanced ts.now) }
{
    let mut pending: Vec<Terminal> = Vec::new(alloc);
    'tokens: for t in ts {
        if !take_bracket(&mut pending, t.terminal)? {
            return Ok(false);
        }
    }
    Ok(pending.is_empty())
}

pub fn is_content(alloc: Global, ts: &[Lexeme]) -> Result<bool, AllocError>
    ensures { IfOk result (λ found. found ≡ spec.is_content ts.now) }
{
    if ts.is_empty() {
        return Ok(false);
    }
    is_balanced(alloc, ts)
}

#[tactic(auto, unfolding(proto_tree::specs::Parts::is_options_end))]
fn is_options_end(alloc: Global, ts: &[Lexeme]) -> Result<bool, AllocError>
    ensures { IfOk result (λ found. found ≡ spec.is_options_end ts.now) }
{
    match ts {
        [] => Ok(false),
        [only] => Ok(only.is(Terminal::Semicolon)),
        [first, more @ ..] => {
            let is_in_brackets = first.is(Terminal::OpenBracket)
                && ends_in(Terminal::Semicolon, more)
                && ends_in(Terminal::CloseBracket, &more[..more.len() - 1]);
            Ok(is_in_brackets && is_content(alloc, &more[..more.len().saturating_sub(2)])?)
        }
    }
}

pub fn between(first: Span, last: Span) -> Span
    ensures { result ≡ spec.between first last }
{
    Span {
        start: first.start,
        end: last.end,
    }
}

// From the first token to the last.
pub fn span_of(item: &[Lexeme]) -> Span
    ensures { result ≡ spec.span_of item.now }
{
    match item.last() {
        Some(last) => Span {
            start: item[0].span.start,
            end: last.span.end,
        },
        None => Span { start: 0, end: 0 },
    }
}

// The last span, or the first one where there are no others.
pub fn last_of(first: Span, more: &[Span]) -> Span
    ensures { result ≡ spec.last_of first more.now }
{
    match more.last() {
        Some(last) => *last,
        None => first,
    }
}
