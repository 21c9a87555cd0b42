// Why a board refused a text.
ghost use Rattle.std.specs.Prelude.{◌≡◌};
ghost use Rattle.piece_collector.specs.Fault.{code_of};
ghost use Rattle.piece_collector.specs.declared.fault.BoardFault.TheVariants.{Memory};

use std::alloc::{AllocError, AllocFailed};
use thiserror::Error;

/// Why a board refused a text. Each fault has a number, which [`BoardFault::code`] gives.
#[derive(Clone, Copy, Debug, PartialEq, Eq, Error)]
pub enum BoardFault {
    /// 501: memory was refused.
    #[error("out of memory")]
    Memory,
    /// 502: the last stamp was `u64::MAX`, so that none is left.
    #[error("no stamp is left")]
    Exhausted,
}

impl BoardFault {
    /// The fault's number, 501 or 502.
    pub fn code(&self) -> u32
        ensures { result ≡ code_of self.now }
    {
        match self {
            BoardFault::Memory => 501,
            BoardFault::Exhausted => 502,
        }
    }
}

impl<T: Drop> From<AllocFailed<T>> for BoardFault {
    ghost from_gives = { λ _ e. e ≡ Memory };

    fn from(_refused: AllocFailed<T>) -> BoardFault {
        BoardFault::Memory
    }
}

impl From<AllocError> for BoardFault {
    ghost from_gives = { λ _ e. e ≡ Memory };

    fn from(_refused: AllocError) -> BoardFault {
        BoardFault::Memory
    }
}
