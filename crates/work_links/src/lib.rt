//! Which files a change of one file's declarations touches, and what it changes for the others.
//!
//! A file asks for the full names that its names can mean, and for those that it declares: [`Asked`] keeps them by their last
//! components. [`Touched`] keeps the full names that a change of a file's declarations touches, and how the numbers of the
//! others change. A file that sees the changed one and asks for no touched name is linked as before, but for these numbers:
//! `touched_law`. [`renumber`] gives links these numbers.
//!
//! When files come or leave, others get other numbers. A file that sees the same files under the new ones is linked as before, but for
//! the numbers of files: `moved_law`. [`move_files`] gives links these.
#![tactic(auto)]

mod asked;
mod keys;
mod laws;
mod moving;
mod renumbering;
mod touched;

pub use asked::Asked;
pub use laws::{asked_law, moved_law, touched_law};
pub use moving::move_files;
pub use renumbering::{Renumbering, renumber};
pub use touched::Touched;
