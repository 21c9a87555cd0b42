// Why a table isn't made by threads.
ghost use Rattle.std.specs.Prelude.{◌≡◌};
ghost use Rattle.proto_resolve.specs.declared.fault.TableFault.TheVariants.{Memory};

use std::alloc::AllocError;
use thiserror::Error;

/// Why a table wasn't made by several threads.
#[derive(Clone, Copy, Debug, PartialEq, Eq, Error)]
pub enum TableFault {
    /// Memory was refused.
    #[error("out of memory")]
    Memory,
    /// A thread was refused.
    #[error("thread refused")]
    ThreadRefused,
}

impl From<AllocError> for TableFault {
    ghost from_gives = { λ _ e. e ≡ Memory };

    fn from(_refused: AllocError) -> TableFault {
        TableFault::Memory
    }
}
