//! What a session or a check is started with: the configuration and the workers; and what can fail in them.
#![tactic(auto)]

mod config;
mod fault;
mod workers;

pub use config::Config;
pub use fault::{CoreFault, ServeFault};
pub use work_files::DiskFile;
pub use workers::start_pool;
