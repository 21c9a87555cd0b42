// The workers of a session.
ghost use Rattle.std.specs.Prelude.{◌≡◌, [], IfOk, IfErr};
ghost use Rattle.work_pool.specs.Pool.{pool_of, workers_for};
ghost use Rattle.work_config.specs.Fault.{IsOfWorkers};

use crate::fault::ServeFault;
use std::alloc::Global;
use std::marker::Send;
use std::sync::{Arc, Wait};
use std::thread::Threads;
use work_index::{FileWork, Gate};
use work_pool::Pool;

/// Starts the workers of a session: so many, but 0 counts as 1, and over 64 as 64. Each enters the gate before it works on a text. No job is out yet.
///
/// `Memory` if memory was refused, and `ThreadRefused` if a thread was. The workers that were started before have ended by then.
pub fn start_pool<R: Threads + Wait + Clone + Send + Drop + 'static, G: Gate + 'static>(
    rt: &R,
    alloc: Global,
    workers: usize,
    gate: &Arc<G>,
) -> Result<Pool, ServeFault>
    ensures pool { IfOk result (λ pool. pool ≡ pool_of (workers_for workers) []) }
    ensures fault { IfErr result IsOfWorkers }
{
    match Pool::start(rt, FileWork::new(alloc), workers, gate) {
        Ok(pool) => Ok(pool),
        Err(fault) => Err(ServeFault::from(fault)),
    }
}
