// A source over a reader of std, which tells no bytes.
ghost use Rattle.std.specs.Prelude.{◌≡◌, None};
ghost use Rattle.lsp_frame.specs.Counts.{no_counts};

use crate::counts::Counts;
use crate::device::{ByteSource, Fail};
use std::io::Read;

/// The bytes of a reader of std. It tells none of them.
///
/// A header part is asked for byte by byte, so a reader that makes a system call for each read belongs into a
/// `BufReader` first.
#[derive(Drop)]
pub struct FromRead<R> {
    reader: R,
    counts: Counts,
}

impl<R> FromRead<R> {
    ghost use Rattle.lsp_frame.specs.Devices.{read_counts};

    /// A source of what is left of the reader. It hasn't failed yet.
    pub fn new(reader: R) -> Self
        ensures { read_counts result ≡ no_counts }
    {
        FromRead {
            reader,
            counts: Counts::new(),
        }
    }
}

impl<R: Read> ByteSource for FromRead<R> {
    ghost left = { λ _. None };

    ghost counts = { λ source. source.counts };

    fn read(&mut self, buffer: &mut [u8]) -> Result<usize, Fail> {
        match self.reader.read(buffer) {
            Ok(count) => {
                self.counts.add_success();
                Ok(count)
            }
            Err(error) => Err(self.counts.add_io_error(&error)),
        }
    }
}
