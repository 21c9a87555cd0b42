// Which errors of std are interruptions.
use library_cases::Line;
use lsp_frame::{Frame, FrameReader, FromRead, ToWrite, write_frame};
use std::alloc::Global;
use std::io::{self, ErrorKind, Read, Write};

// A device of std whose first call ends with an error of this kind, and each later one well.
#[derive(Drop)]
struct FailsOnce {
    kind: Option<ErrorKind>,
}

impl FailsOnce {
    // The error of the first call.
    fn fail_once(&mut self) -> io::Result<()> {
        match self.kind.take() {
            Some(kind) => Err(kind.into()),
            None => Ok(()),
        }
    }
}

impl Read for FailsOnce {
    fn read(&mut self, _buffer: &mut [u8]) -> io::Result<usize> {
        self.fail_once()?;
        Ok(0)
    }
}

impl Write for FailsOnce {
    fn write(&mut self, buffer: &[u8]) -> io::Result<usize> {
        self.fail_once()?;
        Ok(buffer.len())
    }

    fn flush(&mut self) -> io::Result<()> {
        Ok(())
    }
}

fn device(word: &str) -> FailsOnce {
    FailsOnce {
        kind: Some(match word {
            "interrupted" => ErrorKind::Interrupted,
            "would block" => ErrorKind::WouldBlock,
            _ => ErrorKind::Other,
        }),
    }
}

// How a source does that fails once: 0 at its end, or the number of the fault.
fn read_once(alloc: Global, device: FailsOnce) -> u32 {
    match FrameReader::new(alloc, FromRead::new(device)).read_frame() {
        Ok(Frame::End) => 0,
        Ok(Frame::Body(_)) => 1,
        Err(fault) => fault.code(),
    }
}

// How a sink does: 0 where a frame is written, or the number of the fault.
fn write_once(device: FailsOnce) -> u32 {
    match write_frame(&mut ToWrite::new(device), b"{}") {
        Ok(()) => 0,
        Err(fault) => fault.code(),
    }
}

/// The kind of the error: whether a reader finds the end behind it, and whether a frame is written.
pub fn fails_once(alloc: Global, line: &mut Line, kind: &str) {
    line.put_number(read_once(alloc, device(kind)) as u64);
    line.put(" ");
    line.put_number(write_once(device(kind)) as u64);
}
