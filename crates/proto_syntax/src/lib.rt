//! The parser of Protocol Buffers texts (proto3): a text and its tokens in, its syntax tree out.
//!
//! `parse` cuts the tokens of a text into statements, reads each by the forms of the language's grammar, and goes on
//! inside the braces of a block. A statement that can't be read costs itself alone. `parse_other` reads a text that isn't proto3 by
//! the same forms, for the names that it declares. The types of the tree, and what the tree of a text is, stand in `proto_tree`; the
//! types are offered here again.
#![tactic(auto)]

mod cut;
mod forms;
mod headers;
mod others;
mod parser;
mod parts;
mod read;
mod scan;
mod skips;

pub use parser::{parse, parse_other, parse_text};
pub use proto_tree::{
    Fault, Field, FileTree, Literal, MapField, Node, Number, RangeEnd, ReservedList, ReservedRange,
    Span, SyntaxProblem, TypeName,
};
pub use sqlite_items::Items;
