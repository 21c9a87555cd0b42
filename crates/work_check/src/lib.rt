//! The check of a workspace, without an editor: a line for each diagnostic.
//!
//! [`check_as`] has workers do the work on the files of a configuration, finds what is wrong in them, writes a line for each diagnostic of the files that are
//! asked for, in their [`Format`], and answers what it found; [`check`] does so of all files, in plain lines. How a line is written stands in `check_lines`.
#![tactic(auto)]

mod checking;
mod diagnosing;
mod laws;
mod listed;
mod room;
mod shares;
mod wanted;

pub use check_lines::Format;
pub use checking::{check, check_as};
pub use laws::sarif_is_one_value;
pub use wanted::{Asked, Checked, Listing};
