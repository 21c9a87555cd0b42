//! What the names of a workspace mean, and whether edits would change that.
//!
//! [`edits_keep_meaning`] says of edits that are not made whether they keep the meaning of a workspace, and [`same_meaning`] of two analyses whether
//! they have the same. [`analyse_texts`] makes an analysis of texts alone.
#![tactic(auto)]

mod comparing;
mod edited;
mod keeping;

pub use comparing::{same_meaning, same_meaning_law};
pub use edited::{EditedText, NamedText, analyse_texts, edits_keep_meaning};
