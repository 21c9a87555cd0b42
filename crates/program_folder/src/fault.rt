// Why folders can't be read.
ghost use Rattle.std.specs.Prelude.{◌≡◌};
ghost use Rattle.program_folder.specs.declared.fault.FolderFault.TheVariants.{Memory};

use std::alloc::{AllocError, AllocFailed};
use std::io;
use thiserror::Error;

/// Why no folder was read. `dir` is the path of the one where it was met, as it was given.
#[derive(Debug, Drop, Error)]
pub enum FolderFault<'d> {
    /// The folder itself can't be listed.
    #[error("{dir}: can't be listed: {error}")]
    Unlisted {
        /// The folder.
        dir: &'d str,
        /// What the system says.
        error: io::Error,
    },
    /// More than 64 folders stand in one another below it.
    #[error("{dir}: more than 64 folders stand in one another")]
    TooDeep {
        /// The folder.
        dir: &'d str,
    },
    /// All folders together have more than 100,000 entries, those of their subfolders and those that are skipped included.
    #[error("{dir}: more than 100,000 entries in all")]
    TooManyEntries {
        /// The folder that was read when there were more.
        dir: &'d str,
    },
    /// Memory was refused.
    #[error("out of memory")]
    Memory,
}

impl<'d> From<AllocError> for FolderFault<'d> {
    ghost from_gives = { λ _ e. e ≡ Memory };

    fn from(_error: AllocError) -> FolderFault<'d> {
        FolderFault::Memory
    }
}

impl<'d, T: Drop> From<AllocFailed<T>> for FolderFault<'d> {
    ghost from_gives = { λ _ e. e ≡ Memory };

    fn from(_error: AllocFailed<T>) -> FolderFault<'d> {
        FolderFault::Memory
    }
}
