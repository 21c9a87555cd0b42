// Why a symbol isn't renamed.
ghost use Rattle.std.specs.Prelude.{◌≡◌};
ghost use Rattle.lsp_renames.specs.Fault.{code_of};

use std::alloc::AllocError;
use thiserror::Error;

/// Why a symbol isn't renamed. Each fault has a number, which [`RenameFault::code`] gives.
#[derive(Clone, Copy, Debug, PartialEq, Eq, Error)]
pub enum RenameFault {
    /// 701: no symbol is at the offset.
    #[error("no symbol is there")]
    NoSymbol,
    /// 702: the symbol at the offset is a package, or a declaration of which a text that isn't proto3 may have uses that aren't known.
    #[error("the symbol can't be renamed")]
    NotRenamable,
    /// 703: the new name isn't an identifier. A keyword is an identifier.
    #[error("the new name isn't an identifier")]
    BadName,
    /// 704: another declaration has the full name that this one would get, or it is a package of a file.
    #[error("the new name is taken")]
    NameTaken,
    /// 705: a name would stand for something else, or what is wrong in a file would have other numbers.
    #[error("the meaning of a name changes")]
    MeaningChanges,
    /// 706: memory was refused.
    #[error("out of memory")]
    Memory,
}

impl RenameFault {
    /// The fault's number: 701 to 706.
    pub fn code(&self) -> u32
        ensures { result ≡ code_of self.now }
    {
        match self {
            RenameFault::NoSymbol => 701,
            RenameFault::NotRenamable => 702,
            RenameFault::BadName => 703,
            RenameFault::NameTaken => 704,
            RenameFault::MeaningChanges => 705,
            RenameFault::Memory => 706,
        }
    }
}

impl From<AllocError> for RenameFault {
    ghost use Rattle.lsp_renames.specs.declared.fault.RenameFault.TheVariants.{Memory};

    ghost from_gives = { λ _ fault. fault ≡ Memory };

    fn from(_refused: AllocError) -> RenameFault {
        RenameFault::Memory
    }
}
