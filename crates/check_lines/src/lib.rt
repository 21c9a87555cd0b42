//! The line of a diagnostic, as a command line shows it, in five formats.
//!
//! A [`ListedFile`] has the lines of a file's diagnostics in a [`Format`], which also says what stands before and behind all lines. Nothing here
//! knows of a workspace, or of when lines are written.
#![tactic(auto)]

mod format;
mod github_line;
mod gnu_line;
mod json_line;
mod lines;
mod plain_line;
mod sarif_line;

pub use format::Format;
pub use gnu_line::is_error_message;
pub use lines::ListedFile;
