//! The analysis of a workspace after changes of the texts of some files, and which files are linked again for it.
//!
//! [`update_texts`] brings the analysis up to the texts of a board. [`bring_up`] takes the changes one after the other and leaves the files open that have
//! to be linked again, for whoever keeps no links; [`relinked`] links one of them.
#![tactic(auto)]

mod relinking;

pub use relinking::{FileLinks, Outdated, Relinking, bring_up, relinked, update_texts};
