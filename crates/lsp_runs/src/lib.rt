//! A core over a list of messages and of work that is brought, without workers or streams.
//!
//! [`run_core`] gives a new core each event in turn, an advance behind each, and answers what it replied.
#![tactic(auto)]

mod run;
mod working;

pub use run::{CoreEvent, CoreRun, run_core};
