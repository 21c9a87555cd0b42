// The tree of a text: its statements, and what is wrong with those that aren't read.
use crate::spans::Spans;
use proto_lex::Reason;
use sqlite_items::{Boxed, Items};

/// A stretch of the text: from the byte at `start` up to the byte at `end`, which isn't in it.
///
/// Offsets count the bytes of the UTF-8 text from 0.
#[derive(Clone, Copy, Debug, PartialEq, Eq)]
pub struct Span {
    pub start: usize,
    pub end: usize,
}

/// A string literal without escapes: one string token, or adjacent ones whose contents are joined.
#[derive(Debug, Drop)]
pub struct Literal {
    /// From the first token's opening quote to the last one's closing quote.
    pub span: Span,
    /// The string tokens in order, each with its quotes; one at least.
    pub parts: Items<Span>,
}

/// The name of a type as it is written, such as `int32`, `Inner` or `.pkg.Outer.Inner`.
#[derive(Debug, Drop)]
pub struct TypeName {
    /// The whole name, its leading dot included.
    pub span: Span,
    /// Whether a dot stands before the first component.
    pub is_absolute: bool,
    /// The identifiers in order; one at least.
    pub components: Spans,
}

/// An integer as it is written, perhaps behind a minus.
#[derive(Clone, Copy, Debug, PartialEq, Eq)]
pub struct Number {
    /// The whole number, its minus included.
    pub span: Span,
    pub is_negative: bool,
    /// The integer token alone: a decimal, octal or hexadecimal number of any size.
    pub digits: Span,
}

/// Where a reserved range ends. A range has its end in it.
#[derive(Clone, Copy, Debug, PartialEq, Eq)]
pub enum RangeEnd {
    /// Nothing follows the first number, which is the whole range.
    Same,
    /// The number after `to`.
    Number(Number),
    /// The word `max` after `to`.
    Max(Span),
}

/// A range of reserved numbers.
#[derive(Clone, Copy, Debug, PartialEq, Eq)]
pub struct ReservedRange {
    pub low: Number,
    pub high: RangeEnd,
}

/// What a reserved statement lists; one entry at least.
#[derive(Debug, Drop)]
pub enum ReservedList {
    /// Numbers and ranges of them, in order.
    Ranges(Items<ReservedRange>),
    /// Names as string literals, in order.
    Names(Items<Literal>),
}

/// A field of a message, a oneof or an extend block.
#[derive(Debug, Drop)]
pub struct Field {
    /// The whole statement, its `;` included.
    pub span: Span,
    /// The words `repeated` and `optional` that stand before the type, two at most.
    pub labels: Spans,
    pub type_name: TypeName,
    pub name: Span,
    /// The field's number, an integer token.
    pub number: Span,
}

/// A field of a map type.
#[derive(Debug, Drop)]
pub struct MapField {
    /// The whole statement, its `;` included.
    pub span: Span,
    /// The words `repeated` and `optional` that stand before `map`, two at most.
    pub labels: Spans,
    /// The type of the keys.
    pub key: TypeName,
    /// The type of the values.
    pub value: TypeName,
    pub name: Span,
    /// The field's number, an integer token.
    pub number: Span,
}

/// What stands before the braces of a block.
#[derive(Debug, Drop)]
pub enum Header {
    Message(Span),
    Enum(Span),
    Service(Span),
    Oneof(Span),
    Extend(Boxed<TypeName>),
    /// `group G = 1`, of a message that is a field as well.
    Group(Span),
    Rpc {
        name: Boxed<Span>,
        request: Boxed<TypeName>,
        response: Boxed<TypeName>,
    },
}

/// A statement that is read. A block holds those between its braces, in order; those that can't be read are left
/// out.
///
/// A long text has many statements, so a node is kept small: what is large in it is boxed.
///
/// In each variant `span` is the whole statement, from its first token to its `;` or `}`. `name` is the identifier, of
/// a package the full name and of an option its name.
#[derive(Drop)]
pub enum Node {
    /// `message M { .. }`
    Message {
        span: Span,
        name: Span,
        items: Boxed<Items<Node>>,
    },
    /// `enum E { .. }`
    EnumDef {
        span: Span,
        name: Span,
        items: Boxed<Items<Node>>,
    },
    /// `service S { .. }`
    Service {
        span: Span,
        name: Span,
        items: Boxed<Items<Node>>,
    },
    /// `oneof o { .. }`
    Oneof {
        span: Span,
        name: Span,
        items: Boxed<Items<Node>>,
    },
    /// `extend M { .. }`, where `target` is the message that gets fields.
    Extend {
        span: Span,
        target: Boxed<TypeName>,
        items: Boxed<Items<Node>>,
    },
    /// `rpc Do (Request) returns (Response);`, with or without `stream` before a type. It may have a block in place
    /// of the `;`. Where `;` ends it, `items` is empty.
    Rpc {
        span: Boxed<Span>,
        name: Boxed<Span>,
        request: Boxed<TypeName>,
        response: Boxed<TypeName>,
        items: Boxed<Items<Node>>,
    },
    /// `repeated int32 a = 1;`
    Field(Boxed<Field>),
    /// `map<string, int32> a = 1;`
    MapField(Boxed<MapField>),
    /// `A = 0;` in an enum.
    Value {
        span: Span,
        name: Span,
        number: Boxed<Number>,
    },
    /// `reserved 2, 5 to 9;` or `reserved "a", "b";`
    Reserved {
        span: Span,
        list: Boxed<ReservedList>,
    },
    /// `import "a.proto";`, with `public` before the path where `is_public` holds. An import with `weak` isn't
    /// public.
    Import {
        span: Span,
        is_public: bool,
        path: Boxed<Literal>,
    },
    /// `package a.b;`, where `name` is the whole `a.b` and the components are its identifiers in order.
    Package {
        span: Span,
        name: Span,
        components: Boxed<Items<Span>>,
    },
    /// `option (a).b = { x: 1 };`, where `name` has the tokens between `option` and `=`, and `value` those between
    /// `=` and the `;`.
    OptionDef {
        span: Span,
        name: Span,
        value: Boxed<Span>,
    },
    /// `syntax = "proto3";`, with any string without a backslash.
    Syntax {
        span: Span,
        value: Boxed<Literal>,
    },
    /// A lone `;`
    Empty {
        span: Span,
    },
}

/// What is wrong with a token or a statement.
#[derive(Clone, Copy, Debug, PartialEq, Eq)]
pub enum SyntaxProblem {
    /// Diagnostic 201: the token is a bad one.
    BadToken(Reason),
    /// Diagnostic 202: the statement has none of the forms of its body, or is a `}` at the top that closes nothing.
    NotUnderstood,
    /// Diagnostic 203: the statement stands inside 64 blocks and begins with the header of a message, an enum, a
    /// oneof, an extend or a group and its `{`, whatever its body is.
    TooDeep,
    /// Diagnostic 204: the text's end, the `}` of its block, or at the top a `}` that closes nothing ends the
    /// statement before its `;` or `}`.
    Unfinished,
}

/// Something wrong, and where.
#[derive(Clone, Copy, Debug, PartialEq, Eq)]
pub struct Fault {
    pub problem: SyntaxProblem,
    /// The bad token, or the whole bad statement from its first token to its last.
    pub span: Span,
}

/// The statements of a text that are read, and what is wrong with the others.
#[derive(Drop)]
pub struct FileTree {
    /// The statements at top level, in order.
    pub nodes: Items<Node>,
    /// First the bad tokens, then the bad statements at all levels, each in order.
    pub faults: Items<Fault>,
}
