//! An editor's workspace: its files, the board of their texts with the work on each, and the analysis of all.
//!
//! A [`Workspace`] owns them: its calls open, change, save and close a document, hand out and take the work on the texts, and analyse. A
//! snapshot of it shows the files with their analysis. [`DiagnosedFiles`] are what is left of a workspace whose texts don't change any more.
#![tactic(auto)]

mod diagnosed;
mod last_analysis;
mod workspace;

pub use diagnosed::DiagnosedFiles;
pub use workspace::Workspace;
