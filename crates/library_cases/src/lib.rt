//! What cases of the libraries answer, and how the lines of cases are written: fields between ` :: `, named and repeated pieces, and
//! characters that stand for those that a line can't hold (README.md).
#![tactic(auto)]

mod boards;
mod calls;
mod command_line;
mod counts;
mod documents;
mod line;
mod marks;
mod names;
mod others;
mod pieces;
mod shares;
mod tables;
mod texts;
mod uris;
mod visited;
mod words;

pub use boards::verdict_word;
pub use calls::answer_call;
pub use line::Line;
pub use marks::plain;
pub use names::Names;
pub use words::{field, first_word, number};
