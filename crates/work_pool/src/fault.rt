// What a pool was refused.
ghost use Rattle.std.specs.Prelude.{◌≡◌};
ghost use Rattle.work_pool.specs.declared.fault.PoolFault.TheVariants.{Memory};

use std::alloc::AllocError;
use thiserror::Error;

/// What was refused to a pool, or to what works by one: it isn't started, or the work doesn't go on.
#[derive(Clone, Copy, Debug, PartialEq, Eq, Error)]
pub enum PoolFault {
    /// Memory was refused.
    #[error("out of memory")]
    Memory,
    /// A thread was refused.
    #[error("thread refused")]
    ThreadRefused,
}

impl From<AllocError> for PoolFault {
    ghost from_gives = { λ _ e. e ≡ Memory };

    fn from(_refused: AllocError) -> PoolFault {
        PoolFault::Memory
    }
}
