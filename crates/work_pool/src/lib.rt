//! Workers that make pieces of files' texts in threads of their own.
//!
//! A [`Pool`] has one channel of jobs, from which all its workers take, and one of results, into which all of them send. A
//! worker does one job after the other ([`worker_loop`]). Each piece that a pool gives is made of
//! its text: that is a fact of its type. Nothing else is promised of what comes back, nor in which order.
#![tactic(auto)]

mod fault;
mod pool;
mod sent_jobs;
mod worker;

pub use fault::PoolFault;
pub use pool::Pool;
pub use work_index::{Gate, OpenGate};
pub use worker::worker_loop;

#[cfg(test)]
mod tests;
