// Why an analysis in shares fails.
ghost use Rattle.std.specs.Prelude.{◌≡◌};
ghost use Rattle.work_shares.specs.declared.fault.AnalyseFault.TheVariants.{Memory};

use proto_resolve::TableFault;
use std::alloc::{AllocError, AllocFailed};
use thiserror::Error;

/// Why an analysis by several threads wasn't made.
#[derive(Clone, Copy, Debug, PartialEq, Eq, Error)]
pub enum AnalyseFault {
    /// 601: memory was refused.
    #[error("out of memory")]
    Memory,
    /// 602: a thread was refused.
    #[error("thread refused")]
    ThreadRefused,
}

impl AnalyseFault {
    ghost use Rattle.work_shares.specs.Fault.{fault_code};

    /// The fault's number, 601 or 602.
    pub fn code(&self) -> u32
        ensures { result ≡ fault_code self.now }
    {
        match self {
            AnalyseFault::Memory => 601,
            AnalyseFault::ThreadRefused => 602,
        }
    }
}

impl From<TableFault> for AnalyseFault {
    ghost use Rattle.work_shares.specs.Fault.{fault_of_table};

    ghost from_gives = { λ fault e. e ≡ fault_of_table fault };

    fn from(fault: TableFault) -> AnalyseFault {
        match fault {
            TableFault::Memory => AnalyseFault::Memory,
            TableFault::ThreadRefused => AnalyseFault::ThreadRefused,
        }
    }
}

impl From<AllocError> for AnalyseFault {
    ghost from_gives = { λ _ e. e ≡ Memory };

    fn from(_refused: AllocError) -> AnalyseFault {
        AnalyseFault::Memory
    }
}

impl<T: Drop> From<AllocFailed<T>> for AnalyseFault {
    ghost from_gives = { λ _ e. e ≡ Memory };

    fn from(_refused: AllocFailed<T>) -> AnalyseFault {
        AnalyseFault::Memory
    }
}
