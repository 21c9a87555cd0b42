//! What the program is asked for by the words of its command line, and the URLs of the folders that they name.
#![tactic(auto)]

mod command_line;
mod commands;
mod root;
pub mod words;

pub use command_line::options;
pub use root::root_url;
