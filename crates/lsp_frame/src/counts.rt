// How often a device has failed.
ghost use Rattle.std.specs.Prelude.{◌≡◌, ◌↔◌};
ghost use Rattle.std.specs.IoError.{error_kind};
ghost use Rattle.lsp_frame.specs.Counts.{no_counts, one_more, after_success, after_error, after_interruption, after_fail};

use crate::device::Fail;
use std::io::{self, ErrorKind};

// How often in a row a device may be interrupted.
pub(crate) const MAX_INTERRUPTIONS: u32 = 1_000_000;

/// How often a device has failed so far. Each number stops at `u64::MAX`.
#[derive(Clone, Copy, Debug, PartialEq, Eq)]
pub struct Counts {
    /// The errors. A sink's answer of 0 to a write of some bytes is one.
    pub errors: u64,
    /// The interruptions.
    pub interruptions: u64,
    /// The interruptions since the last call that ended otherwise.
    pub in_a_row: u64,
}

// One more, up to `u64::MAX`.
fn one_more(count: u64) -> u64
    ensures { result ≡ one_more count }
{
    if count < u64::MAX { count + 1 } else { count }
}

impl Counts {
    /// The counts of a device that hasn't been called yet.
    pub fn new() -> Self
        ensures { result ≡ no_counts }
    {
        Counts {
            errors: 0,
            interruptions: 0,
            in_a_row: 0,
        }
    }

    /// Counts a call that ended well.
    pub fn add_success(&mut self)
        ensures { self.new ≡ after_success self.old }
    {
        self.in_a_row = 0;
    }

    /// Counts an error.
    pub fn add_error(&mut self)
        ensures { self.new ≡ after_error self.old }
    {
        *self = Counts {
            errors: one_more(self.errors),
            in_a_row: 0,
            ..*self
        };
    }

    /// Counts an interruption.
    pub fn add_interruption(&mut self)
        ensures { self.new ≡ after_interruption self.old }
    {
        self.interruptions = one_more(self.interruptions);
        self.in_a_row = one_more(self.in_a_row);
    }

    // Counts an error of std, and says what it is for a device: only an interrupted call may be made again.
    pub(crate) fn add_io_error(&mut self, error: &io::Error) -> Fail
        ensures counts { self.new ≡ after_fail self.old result }
        ensures kind { (result ≡ Fail.Interrupted) ↔ (error_kind error.now ≡ ErrorKind.Interrupted) }
    {
        if error.kind() == ErrorKind::Interrupted {
            self.add_interruption();
            Fail::Interrupted
        } else {
            self.add_error();
            Fail::Error
        }
    }
}
