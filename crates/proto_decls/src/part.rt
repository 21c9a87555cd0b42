// What bodies hold, as the checks see it.
use crate::name::Name;
use proto_tree::Span;

/// A field or an enum value: its name, its number, and the number's value where that is in range.
/// The values of an enum are counted from the least one.
#[derive(Clone, Copy, Debug, PartialEq, Eq)]
pub struct Member {
    pub name: Span,
    pub number: Span,
    pub value: Option<u32>,
}

/// Reserved numbers, both ends included, in the count of their message or enum.
#[derive(Clone, Copy, Debug, PartialEq, Eq)]
pub struct Interval {
    pub span: Span,
    pub low: u32,
    pub high: u32,
}

/// A reserved name.
#[derive(Debug, Drop)]
pub struct ReservedName {
    pub text: Name,
    pub span: Span,
}

/// What the numbers of a body are.
#[derive(Clone, Copy, Debug, PartialEq, Eq)]
pub enum Numbering {
    Fields,
    Values,
}
