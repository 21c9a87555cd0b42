// Why the program ended before its session or its check did.
ghost use Rattle.std.specs.Prelude.{◌≡◌};
ghost use Rattle.work_config.specs.Fault.{serve_code};
ghost use Rattle.program_start.specs.Failure.{failure_of_folder};
ghost use Rattle.program_start.specs.declared.failure.Failure.TheVariants as failure;

use program_folder::FolderFault;
use std::alloc::{AllocError, AllocFailed};
use std::io;
use thiserror::Error;
use work_config::ServeFault;

/// Why a file that the command line names can't be checked.
#[derive(Debug, Drop, Error)]
pub enum FileFault {
    /// There is no such file, or the system can't say where it is.
    #[error("can't be found: {0}")]
    NotFound(io::Error),
    /// It lies below none of the folders.
    #[error("isn't below a folder that is checked")]
    Outside,
    /// It was not read, or an earlier folder has its path.
    #[error("isn't a .proto file that is checked")]
    NotChecked,
}

/// Why the program ended before its session or its check did.
#[derive(Debug, Drop)]
pub enum Failure<'d> {
    /// A folder can't be read.
    Folder(FolderFault<'d>),
    /// A file with this name can't be checked.
    File(&'d str, FileFault),
    /// The fault with this number.
    Fault(u32),
}

impl<'d> From<FolderFault<'d>> for Failure<'d> {
    ghost from_gives = { λ fault e. e ≡ failure_of_folder fault };

    fn from(fault: FolderFault<'d>) -> Failure<'d> {
        match fault {
            FolderFault::Memory => Failure::from(ServeFault::Memory),
            fault => Failure::Folder(fault),
        }
    }
}

impl<'d> From<ServeFault> for Failure<'d> {
    ghost from_gives = { λ fault e. e ≡ failure.Fault (serve_code fault) };

    fn from(fault: ServeFault) -> Failure<'d> {
        Failure::Fault(fault.code())
    }
}

impl<'d> From<AllocError> for Failure<'d> {
    ghost from_gives = { λ _ e. e ≡ failure.Fault 803 };

    fn from(_error: AllocError) -> Failure<'d> {
        Failure::from(ServeFault::Memory)
    }
}

impl<'d, T: Drop> From<AllocFailed<T>> for Failure<'d> {
    ghost from_gives = { λ _ e. e ≡ failure.Fault 803 };

    fn from(_error: AllocFailed<T>) -> Failure<'d> {
        Failure::from(ServeFault::Memory)
    }
}
