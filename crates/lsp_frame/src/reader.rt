// Reads the frames of a source, one after the other.
ghost use Rattle.std.specs.Prelude.{◌≡◌, ◌+◌, ◌≤◌, IfErr, IfSome, MatchResult};
ghost use Rattle.lsp_frame.specs.Counts.{NoneFell, NoError};
ghost use Rattle.lsp_frame.specs.FrameReader.{source_of, last_answer, IsOpen, repeated, kept};
ghost use Rattle.lsp_frame.specs.Reading.{HasCause, NoErrorUnlessRead, Answers};

use crate::device::ByteSource;
use crate::fault::FrameFault;
use crate::reading::next_frame;
use std::alloc::Global;

/// What a stream goes on with.
#[derive(Debug, Drop)]
pub enum Frame {
    /// A frame with this body.
    Body(Vec<u8>),
    /// Nothing: the input ends here, between two frames.
    End,
}

/// The end or the fault that a reader of frames has answered, and answers from then on.
#[derive(Clone, Copy, Debug, PartialEq, Eq)]
pub enum LastAnswer {
    /// [`Frame::End`].
    AtEnd,
    /// This fault.
    Failed(FrameFault),
}

// What is kept of an answer.
fn kept(answer: &Result<Frame, FrameFault>) -> Option<LastAnswer>
    ensures { result ≡ kept answer.now }
{
    match answer {
        Ok(Frame::Body(_)) => None,
        Ok(Frame::End) => Some(LastAnswer::AtEnd),
        Err(fault) => Some(LastAnswer::Failed(*fault)),
    }
}

/// Reads the frames of a source, one after the other.
#[derive(Drop)]
pub struct FrameReader<S> {
    alloc: Global,
    source: S,
    answered: Option<LastAnswer>,
}

impl<S> FrameReader<S> {
    /// A reader at the source's next byte, which has answered nothing yet. It takes memory for the frames from
    /// `alloc`, none of it here.
    pub fn new(alloc: Global, source: S) -> Self
        ensures source { source_of result ≡ source }
        ensures open { IsOpen result }
    {
        FrameReader {
            alloc,
            source,
            answered: None,
        }
    }

    /// Where the bytes come from.
    pub fn source(&self) -> &S
        ensures { result.now ≡ source_of self.now }
    {
        &self.source
    }

    /// The next frame of the stream, or its end (Language Server Protocol 3.17, base protocol).
    ///
    /// A header part is lines, each ended by `\r\n`, and an empty line; a line is a name, its first `:` and a
    /// value, whose spaces on both sides don't count. The last `Content-Length` is the body's length in bytes; its
    /// name is compared without regard to ASCII case. Other fields are ignored.
    ///
    /// The faults, in the order in which they are found: `Memory` and `Read` at the moment at which memory is
    /// refused or the source fails; `HeaderTooLong`; `Truncated` in the header part; line by line `BadHeader` and
    /// `BadLength`; `NoLength`; `BodyTooLong`; `Truncated` in the body.
    ///
    /// No byte past a frame is taken, and of a bad one only those that are needed to tell. After a fault or the end
    /// each call answers the same again and reads nothing.
    pub fn read_frame(&mut self) -> Result<Frame, FrameFault>
    where
        S: ByteSource,
        // After the end or a fault it answers the same again, and reads nothing.
        ensures repeats { IfSome (last_answer self.old) (λ answer. (result ≡ repeated answer) × (source_of self.new ≡ source_of self.old)) }
        ensures keeps { last_answer self.new ≡ kept result }

        // Of a source that tells its bytes it takes the next frame and no byte behind it.
        ensures frame { IsOpen self.old → IfSome (S.left (source_of self.old)) (λ bytes. Answers bytes (S.left (source_of self.new)) result) }

        // `Read` is answered first where the source failed in the call.
        ensures cause { IsOpen self.old → IfErr result (HasCause (S.counts (source_of self.old)) (S.counts (source_of self.new))) }

        // An error of the source is answered at once, by `Read`: with a frame, the end or another fault none came.
        ensures calm { IsOpen self.old → MatchResult result (λ _. NoError (S.counts (source_of self.old)) (S.counts (source_of self.new))) (NoErrorUnlessRead (S.counts (source_of self.old)) (S.counts (source_of self.new))) }
        ensures counts { NoneFell (S.counts (source_of self.old)) (S.counts (source_of self.new)) }

        // After an error of the source no other read is made: a call meets one at most.
        ensures once { (S.counts (source_of self.new)).errors ≤ (S.counts (source_of self.old)).errors + 1 }
    {
        match self.answered {
            Some(LastAnswer::AtEnd) => Ok(Frame::End),
            Some(LastAnswer::Failed(fault)) => Err(fault),
            None => {
                let answer = next_frame(self.alloc, &mut self.source);
                self.answered = kept(&answer);
                answer
            }
        }
    }
}
