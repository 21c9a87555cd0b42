//! The heap of a thread that is about to keep many things: it grows by much at once, and not by one thing after the other.
//!
//! [`make_room`] and [`make_room_for_files`] are called again and again with a number, and do nothing for most numbers. No contract sees what they do:
//! they save time.
#![tactic(auto)]

mod room;

pub use room::{make_room, make_room_for_files};
