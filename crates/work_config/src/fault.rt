// What can fail in a server.
ghost use Rattle.std.specs.Prelude.{◌≡◌};
ghost use Rattle.work_config.specs.Fault.{core_fault_of, fault_of_analysis, fault_of_pool, serve_fault_of};
ghost use Rattle.work_config.specs.declared.fault.CoreFault.TheVariants as core;

use piece_collector::BoardFault;
use std::alloc::AllocError;
use thiserror::Error;
use work_pool::PoolFault;
use work_shares::AnalyseFault;

/// Why a core stopped.
#[derive(Clone, Copy, Debug, PartialEq, Eq, Error)]
pub enum CoreFault {
    /// 803: memory was refused.
    #[error("out of memory")]
    Memory,
    /// 804: a thread was refused, or no worker is left.
    #[error("thread refused")]
    ThreadRefused,
    /// 805: a text needed a stamp after `u64::MAX`.
    #[error("no stamp is left")]
    Exhausted,
}

impl CoreFault {
    ghost use Rattle.work_config.specs.Fault.{core_code};

    /// The fault's number, from 803 to 805.
    pub fn code(&self) -> u32
        ensures { result ≡ core_code self.now }
    {
        match self {
            CoreFault::Memory => 803,
            CoreFault::ThreadRefused => 804,
            CoreFault::Exhausted => 805,
        }
    }
}

impl From<AllocError> for CoreFault {
    ghost from_gives = { λ _ e. e ≡ core.Memory };

    fn from(_refused: AllocError) -> CoreFault {
        CoreFault::Memory
    }
}

impl From<BoardFault> for CoreFault {
    ghost from_gives = { λ fault e. e ≡ core_fault_of fault };

    fn from(fault: BoardFault) -> CoreFault {
        match fault {
            BoardFault::Memory => CoreFault::Memory,
            BoardFault::Exhausted => CoreFault::Exhausted,
        }
    }
}

impl From<AnalyseFault> for CoreFault {
    ghost from_gives = { λ fault e. e ≡ fault_of_analysis fault };

    fn from(fault: AnalyseFault) -> CoreFault {
        match fault {
            AnalyseFault::Memory => CoreFault::Memory,
            AnalyseFault::ThreadRefused => CoreFault::ThreadRefused,
        }
    }
}

impl From<PoolFault> for CoreFault {
    ghost from_gives = { λ fault e. e ≡ fault_of_pool fault };

    fn from(fault: PoolFault) -> CoreFault {
        match fault {
            PoolFault::Memory => CoreFault::Memory,
            PoolFault::ThreadRefused => CoreFault::ThreadRefused,
        }
    }
}

/// Why a server stopped before the end of its session, or why no session can be started.
#[derive(Clone, Copy, Debug, PartialEq, Eq, Error)]
pub enum ServeFault {
    /// 801: the reader failed.
    #[error("the reader failed")]
    Read,
    /// 802: the writer failed.
    #[error("the writer failed")]
    Write,
    /// 803: memory was refused.
    #[error("out of memory")]
    Memory,
    /// 804: a thread was refused, or no worker is left.
    #[error("thread refused")]
    ThreadRefused,
    /// 805: a text needed a stamp after `u64::MAX`.
    #[error("no stamp is left")]
    Exhausted,
    /// 806: there is no root, or one is none.
    #[error("a root is bad")]
    BadRoot,
    /// 807: a file on disk names a root that isn't there, or its path is none of a workspace.
    #[error("the path of file {index} is bad")]
    BadPath {
        /// The number of the file in the list of files, from 0.
        index: usize,
    },
}

impl ServeFault {
    ghost use Rattle.work_config.specs.Fault.{serve_code};

    /// The fault's number, from 801 to 807.
    pub fn code(&self) -> u32
        ensures { result ≡ serve_code self.now }
    {
        match self {
            ServeFault::Read => 801,
            ServeFault::Write => 802,
            ServeFault::Memory => 803,
            ServeFault::ThreadRefused => 804,
            ServeFault::Exhausted => 805,
            ServeFault::BadRoot => 806,
            ServeFault::BadPath { .. } => 807,
        }
    }
}

impl From<CoreFault> for ServeFault {
    ghost from_gives = { λ fault e. e ≡ serve_fault_of fault };

    fn from(fault: CoreFault) -> ServeFault {
        match fault {
            CoreFault::Memory => ServeFault::Memory,
            CoreFault::ThreadRefused => ServeFault::ThreadRefused,
            CoreFault::Exhausted => ServeFault::Exhausted,
        }
    }
}

impl From<PoolFault> for ServeFault {
    ghost from_gives = { λ fault e. e ≡ serve_fault_of (fault_of_pool fault) };

    fn from(fault: PoolFault) -> ServeFault {
        ServeFault::from(CoreFault::from(fault))
    }
}
