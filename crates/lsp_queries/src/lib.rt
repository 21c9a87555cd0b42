//! What an editor asks about names, as filters over the analysis of a workspace: which declarations have a name that contains
//! a query, where the declaration is that a name stands for, and where it is used.
//!
//! [`symbols`], [`definition`] and [`references`] answer by declarations and [`Place`]s in bytes; nothing here knows of positions,
//! URIs or the protocol. What stands at an offset is said in specs/Offsets.antt, which names match a query in specs/Matching.antt,
//! the answers in specs/Answers.antt. [`report`] gives the diagnostics of a file.
#![tactic(auto)]

mod defining;
mod files;
mod laws;
mod matching;
mod offsets;
mod place;
mod place_laws;
mod referring;
mod reporting;
mod searching;

pub use defining::definition;
pub use files::{decl_of, facts_in, place_of};
pub use laws::contains_law;
pub use offsets::{Symbol, symbol_at};
pub use place::{Place, count_in};
pub use place_laws::{one_symbol, places_apart, places_are_all, places_in_order};
pub use proto_decls::Diag;
pub use referring::{references, sites_of};
pub use reporting::report;
pub use searching::symbols;
