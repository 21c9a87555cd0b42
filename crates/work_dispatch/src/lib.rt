//! Jobs of a workspace go out to the workers of a pool, and what became of them comes back.
#![tactic(auto)]

mod dispatch;

pub use dispatch::{bring_result, hand_out_jobs};
