//! The analysis of a workspace by several threads.
//!
//! [`analyse_in_shares`] has several threads make the analysis that `analyse_here` of the crate below makes on one. [`diagnose`] keeps only what is wrong,
//! with which files aren't checked for unknown names and why. Each thread takes a run of consecutive files: the runs' tables of declarations are merged
//! ([`PartTable`], [`merge_tables`]), and what the runs' names mean and what is wrong in them is joined in order. How many threads there are takes no part
//! in what is made.
#![tactic(auto)]

mod diagnosis;
mod fault;
mod in_shares;
mod indexed;
mod linked;
mod part_table;
mod shares;
mod unchecked;

pub use diagnosis::Diagnosis;
pub use fault::AnalyseFault;
pub use in_shares::{AnalysisSettings, analyse_in_shares, diagnose};
pub use part_table::{PartTable, merge_tables};
pub use unchecked::unchecked_law;
