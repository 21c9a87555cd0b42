// Statements of a file itself.
use crate::fact::PackageFact;
use proto_tree::Span;

/// A `package` statement, with the span of its name.
#[derive(Debug, Drop)]
pub struct StatedPackage {
    pub name: Span,
    pub fact: PackageFact,
}

/// A `syntax` statement.
#[derive(Clone, Copy, Debug, PartialEq, Eq)]
pub struct StatedSyntax {
    pub span: Span,
    pub is_proto3: bool,
}
