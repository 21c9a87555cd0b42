//! What becomes of the analysis of a workspace as its texts change: the analysis of the texts as they are now.
//!
//! [`update_analysis`] brings an analysis up to the texts of a board, of which it is told where they differ; [`analyse_board`] makes one from nothing.
//! What the analysis is, is defined in `work_index` as a function of paths and texts: what was known before saves time and takes no part in it.
#![tactic(auto)]

mod add_file;
mod update;
mod update_files;
mod update_table;

pub use update::{analyse_board, update_analysis};
