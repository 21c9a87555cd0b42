//! What a Protocol Buffers text (proto3) says by itself: a text and its tree in, its facts out.
//!
//! `facts` gives a file's language, package, imports and declarations, and what is wrong in it by itself: bad tokens and
//! statements, numbers and names that are used, reserved or declared twice, and the like. The types of these facts, and which
//! values they have, stand in `proto_decls`; its public names are offered here again.
#![tactic(auto)]

mod bodies;
mod checks;
mod decls;
mod file;
mod members;
mod numbers;
mod overlaps;
mod reach;
mod report;
mod seen;
mod text;
mod twice;
mod walk;

pub use proto_decls::{
    Decl, DeclKind, Diag, FileFacts, FullName, ImportFact, Name, PackageFact, Problem, SyntaxFact,
    in_order, joined, text_at,
};
pub use report::{facts, other_facts};
