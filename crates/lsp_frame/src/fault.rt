// What can be wrong with a stream of frames, with its reader or with its writer.
ghost use Rattle.std.specs.Prelude.{◌≡◌};
ghost use Rattle.lsp_frame.specs.Fault.{code_of};

use thiserror::Error;

/// Why there is no further frame. Each fault has a number, which [`FrameFault::code`] gives.
#[derive(Clone, Copy, Debug, PartialEq, Eq, Error)]
pub enum FrameFault {
    /// 101: a header line has no `:`, or no name before it.
    #[error("a header line has no name")]
    BadHeader,
    /// 102: no header line is a `Content-Length`.
    #[error("no Content-Length")]
    NoLength,
    /// 103: a `Content-Length` isn't 1 to 10 decimal digits.
    #[error("a bad Content-Length")]
    BadLength,
    /// 104: the last `Content-Length` is above 67,108,864 bytes.
    #[error("the body is too long")]
    BodyTooLong,
    /// 105: the first 8,192 bytes hold no whole header part.
    #[error("the header is too long")]
    HeaderTooLong,
    /// 106: the input ends within a header part or a body.
    #[error("the input ends within a frame")]
    Truncated,
    /// 107: the source failed, or was interrupted 1,000,000 times in a row.
    #[error("the reader failed")]
    Read,
    /// 108: memory was refused.
    #[error("out of memory")]
    Memory,
}

impl FrameFault {
    /// The fault's number, from 101 to 108.
    pub fn code(&self) -> u32
        ensures { result ≡ code_of self.now }
    {
        match self {
            FrameFault::BadHeader => 101,
            FrameFault::NoLength => 102,
            FrameFault::BadLength => 103,
            FrameFault::BodyTooLong => 104,
            FrameFault::HeaderTooLong => 105,
            FrameFault::Truncated => 106,
            FrameFault::Read => 107,
            FrameFault::Memory => 108,
        }
    }
}

/// 109: the sink failed, answered 0 to some bytes, or was interrupted 1,000,000 times in a row.
#[derive(Clone, Copy, Debug, PartialEq, Eq, Error)]
#[error("the writer failed behind {written} bytes")]
pub struct WriteFault {
    /// How many bytes of the frame went out before.
    pub written: u64,
}

impl WriteFault {
    /// The fault's number, 109.
    pub fn code(&self) -> u32
        ensures { result ≡ 109 }
    {
        109
    }
}
