//! The syntax tree of Protocol Buffers texts (proto3) as data, and what the tree of a text is.
//!
//! A [`FileTree`] has the statements of a text, each a [`Node`], and what is wrong with those that aren't read. A [`Lexeme`] is
//! a token as the grammar sees it. The definitions are in specs/: Read.antt says what the tree of a text is, Cut.antt where
//! statements end, Forms.antt which forms they have, Grammar.antt how these are spelled, and Names.antt and Identifiers.antt
//! which names stand in a tree. The parser is the crate `proto_syntax`, the laws of these definitions are `proto_laws`.
#![tactic(auto)]

mod lexeme;
mod limit;
mod node;
mod spans;

pub use lexeme::{Body, Lexeme, Terminal};
pub use limit::is_too_long;
pub use node::{
    Fault, Field, FileTree, Header, Literal, MapField, Node, Number, RangeEnd, ReservedList,
    ReservedRange, Span, SyntaxProblem, TypeName,
};
pub use spans::Spans;
