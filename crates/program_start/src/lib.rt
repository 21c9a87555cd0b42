//! The program but for its session: its command line, what a session or a check starts with, the check, and the statuses that it ends with.
#![tactic(auto)]

mod checking;
mod command_line;
mod failure;
mod folders;
mod named_files;
mod status;
mod summary;

pub use checking::{check_files, open_gate};
pub use command_line::read_words;
pub use failure::{Failure, FileFault};
pub use folders::configuration;
pub use status::{explain, fail, failed, status_of_check};
