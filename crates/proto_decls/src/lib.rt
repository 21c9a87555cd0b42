//! What a Protocol Buffers text (proto3) says by itself, as data, and what the facts of a text are.
//!
//! [`FileFacts`] has a file's language, package, imports and declarations, and its diagnostics. Which values these are for a
//! text is defined in specs/Facts.antt. Each kind of diagnostic has one definition: 201 to 204 in specs/Diags.antt, 312 to
//! 317 in specs/Facts.antt, the others in specs/Checks.antt. `in_order` puts diagnostics of whatever source into the order in
//! which a file lists them. The facts are found by the crate `proto_facts`, the laws of these definitions are `proto_laws`.
#![tactic(auto)]

mod byte_pairs;
mod decls;
mod diagnostic;
mod fact;
mod full_name;
mod lists;
mod name;
mod named_facts;
mod part;
mod problem;
mod shared_facts;
mod stated;
mod text;

pub use decls::Decls;
pub use diagnostic::{Diag, in_order, put_in_order};
pub use fact::{Decl, DeclKind, FileFacts, ImportFact, PackageFact, SyntaxFact};
pub use full_name::{FullName, NameParts, ScopeName, hash_of, split_name};
pub use lists::fitted;
pub use name::Name;
pub use named_facts::NamedFacts;
pub use part::{Interval, Member, Numbering, ReservedName};
pub use problem::Problem;
pub use shared_facts::SharedFacts;
pub use stated::{StatedPackage, StatedSyntax};
pub use text::{joined, text_at};
