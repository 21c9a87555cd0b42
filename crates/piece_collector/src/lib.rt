//! A board of texts, and the pieces that workers make of them in any order.
//!
//! A [`Board`] has a text for each path that it knows. Each text that is set gets a stamp, one more than the last. The
//! board gives a [`Job`] for each text that is wanted, and a worker makes a [`Piece`] of it by a [`Work`]. Pieces come
//! back late, twice, forged or never: the board takes a piece only where its stamp and its text are the path's current
//! ones, and says of each why it took it or not by a [`Verdict`]. When each path has its piece the board is complete,
//! and lends all of them in path order as a [`Lent`].
//!
//! What a board holds is said by the list of what was done to it alone ([`run_events`] does such a list): `History` in
//! `specs/` says how each path stands after a list of events, and `Board` which boards stand for it. No rule there
//! knows a queue, a worker or an order of arrival.
#![tactic(auto)]

mod board;
mod event;
mod fault;
mod job;
mod laws;
mod lent;
mod piece;
mod slot;
mod slots;
mod text;
mod verdict;

pub use board::Board;
pub use event::{BoardEvent, run_events};
pub use fault::BoardFault;
pub use job::Job;
pub use laws::{jobs_out, last_changes, next_jobs};
pub use lent::Lent;
pub use piece::{Piece, Work};
pub use text::SharedText;
pub use verdict::Verdict;
