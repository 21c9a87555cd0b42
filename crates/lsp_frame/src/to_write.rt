// A sink over a writer of std, which tells no bytes.
ghost use Rattle.std.specs.Prelude.{◌≡◌, None};
ghost use Rattle.lsp_frame.specs.Counts.{no_counts};

use crate::counts::Counts;
use crate::device::{ByteSink, Fail};
use std::io::Write;

/// A writer of std. It tells no bytes.
#[derive(Drop)]
pub struct ToWrite<W> {
    writer: W,
    counts: Counts,
}

impl<W> ToWrite<W> {
    ghost use Rattle.lsp_frame.specs.Devices.{write_counts};

    /// A sink into the writer. It hasn't failed yet.
    pub fn new(writer: W) -> Self
        ensures { write_counts result ≡ no_counts }
    {
        ToWrite {
            writer,
            counts: Counts::new(),
        }
    }
}

impl<W: Write> ByteSink for ToWrite<W> {
    ghost written = { λ _. None };

    ghost counts = { λ sink. sink.counts };

    fn write(&mut self, buffer: &[u8]) -> Result<usize, Fail> {
        match self.writer.write(buffer) {
            Ok(count) => {
                if count == 0 && !buffer.is_empty() {
                    self.counts.add_error();
                } else {
                    self.counts.add_success();
                }
                Ok(count)
            }
            Err(error) => Err(self.counts.add_io_error(&error)),
        }
    }
}
