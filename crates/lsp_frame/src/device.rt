// Where bytes come from and go to.
ghost use Rattle.std.specs.Prelude.{◌≡◌, ℕ, List, Option};
ghost use Rattle.std.specs.Io.{ReadsAtMost, WritesAtMost};
ghost use Rattle.std.specs.Io.KnownBytes.{ReadConsumes, WriteAppends};
ghost use Rattle.lsp_frame.specs.Counts.{after_read, after_write};
ghost use Rattle.lsp_frame.specs.declared.counts.Counts.{Counts};

/// Why a device moved no bytes.
#[derive(Clone, Copy, Debug, PartialEq, Eq)]
pub enum Fail {
    /// It has failed.
    Error,
    /// The call may be made again.
    Interrupted,
}

/// Where bytes come from.
///
/// A source may tell its bytes: then a proof knows what each read gives, and an answer of 0 to a buffer with room
/// comes only where none are left. It counts its errors and interruptions.
pub trait ByteSource {
    // The bytes that are left, if the source tells them.
    ghost left: { Self → Option (List ℕ) };

    // How often it has failed so far.
    ghost counts: { Self → Counts };

    /// Reads some bytes into the front of the buffer and gives how many: 0 at the end, or where the buffer has no
    /// room. At an `Err` no byte was taken.
    fn read(&mut self, buffer: &mut [u8]) -> Result<usize, Fail>
        ensures bound { ReadsAtMost result buffer.new }
        ensures bytes { ReadConsumes (left self.old) (left self.new) result buffer.new }
        ensures counts { counts self.new ≡ after_read (counts self.old) result };
}

/// Where bytes go to.
///
/// A sink may tell the bytes that were written to it. It counts its errors and interruptions; an answer of 0 to a
/// write of some bytes is an error.
pub trait ByteSink {
    // The bytes that were written, if the sink tells them.
    ghost written: { Self → Option (List ℕ) };

    // How often it has failed so far.
    ghost counts: { Self → Counts };

    /// Writes some bytes from the front of the buffer and gives how many. At an `Err` none were written.
    fn write(&mut self, buffer: &[u8]) -> Result<usize, Fail>
        ensures bound { WritesAtMost result buffer.now }
        ensures bytes { WriteAppends (written self.old) (written self.new) result buffer.now }
        ensures counts { counts self.new ≡ after_write (counts self.old) result buffer.now };
}
