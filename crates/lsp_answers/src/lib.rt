//! What a language server answers about the files of a workspace, as an editor gets it: documents by their URIs, and places by
//! lines and characters in the encoding that its client chose.
//!
//! [`Answers`] are made of the files of a session with their analysis, and [`Answers::reply`] answers a [`Question`]: what is wrong
//! in a document or in all, which declarations have a name that contains a text, where the name at a place is declared and
//! used, and what gives it another name. A question names a document by its path and a place by an offset in bytes: a session has
//! turned the URIs and positions of its editor into these. [`Answers::publications`] tell an editor that doesn't ask what is wrong in
//! each open document. Nothing here changes a file.
#![tactic(auto)]

mod answers;
mod declarations;
mod diagnostics;
mod documents;
mod laws;
mod names;
mod publications;
mod question;
mod ranges;
mod reports;

pub use answers::Answers;
pub use laws::{publications_agree_with_reports, reports_agree_with_documents};
pub use question::{DocumentPlace, Question};
