// Reads one frame from a source, part by part.
ghost use Rattle.std.specs.Prelude.{◌≡◌, ◌+◌, ◌<◌, ◌≤◌, IfErr, IfOk, OnErr, OnOk, [], ◌∷◌, ◌++◌, IfSome, MatchResult};
ghost use Rattle.std.specs.Io.{ReadsAtMost};
ghost use Rattle.std.specs.Io.KnownBytes.{ReadConsumes, Keeps};
ghost use Rattle.lsp_frame.specs.Counts.{NoneFell, NoError, HasFailed};
ghost use Rattle.lsp_frame.specs.Header.{is_whole_header};
ghost use Rattle.lsp_frame.specs.Reading.{HasCause, NoErrorUnlessRead, Answers};
ghost use Rattle.lsp_frame.specs.Steps.{TakesByte, TakesSome, TakesHeader, TakesBody, TakesAtMost, IsOutside};

use crate::counts::MAX_INTERRUPTIONS;
use crate::device::{ByteSource, Fail};
use crate::fault::FrameFault;
use crate::header::body_length;
use crate::reader::Frame;
use std::alloc::Global;

// The longest header part, in bytes.
const MAX_HEADER: usize = 8192;

// How many bytes of a body are asked for at once.
const PIECE: usize = 4096;

// One read, made again after an interruption.
fn read_some<S: ByteSource>(source: &mut S, buffer: &mut [u8]) -> Result<usize, FrameFault>
    ensures bound { ReadsAtMost result buffer.new }
    ensures bytes { ReadConsumes (S.left source.old) (S.left source.new) result buffer.new }
    ensures counts { NoneFell (S.counts source.old) (S.counts source.new) }
    ensures once { (S.counts source.new).errors ≤ (S.counts source.old).errors + 1 }
    ensures fault { IfErr result (λ f. f ≡ FrameFault.Read) }
    ensures cause { OnErr result (HasFailed (S.counts source.old) (S.counts source.new)) }
    ensures calm { OnOk result (NoError (S.counts source.old) (S.counts source.new)) }
{
    for _turn in 0..MAX_INTERRUPTIONS {
        match source.read(buffer) {
            Ok(n) => return Ok(n),
            Err(Fail::Interrupted) => {}
            Err(Fail::Error) => return Err(FrameFault::Read),
        }
    }
    Err(FrameFault::Read)
}

// The next byte, or nothing at the end.
fn read_byte<S: ByteSource>(source: &mut S) -> Result<Option<u8>, FrameFault>
    ensures bytes { MatchResult result (TakesByte (S.left source.old) (S.left source.new)) (λ _. Keeps (S.left source.old) (S.left source.new)) }
    ensures counts { NoneFell (S.counts source.old) (S.counts source.new) }
    ensures once { (S.counts source.new).errors ≤ (S.counts source.old).errors + 1 }
    ensures fault { IfErr result (λ f. f ≡ FrameFault.Read) }
    ensures cause { OnErr result (HasFailed (S.counts source.old) (S.counts source.new)) }
    ensures calm { OnOk result (NoError (S.counts source.old) (S.counts source.new)) }
{
    let mut byte = [0u8];
    match read_some(source, &mut byte)? {
        0 => Ok(None),
        _ => Ok(Some(byte[0])),
    }
}

fn is_whole_header(bytes: &[u8]) -> bool
    ensures { result ≡ is_whole_header bytes.now }
{
    bytes.starts_with(b"\r\n") || bytes.ends_with(b"\r\n\r\n")
}

// Puts a byte at the end.
fn push_byte(bytes: &mut Vec<u8>, byte: u8) -> Result<(), FrameFault>
    ensures ok { OnOk result (bytes.new.items ≡ bytes.old.items ++ byte ∷ []) }
    ensures fault { IfErr result (λ f. f ≡ FrameFault.Memory) }
{
    match bytes.push(byte) {
        Ok(()) => Ok(()),
        Err(_) => Err(FrameFault::Memory),
    }
}

// The header part of the next frame, or nothing where the input ends before it.
fn read_header<S: ByteSource>(alloc: Global, source: &mut S) -> Result<Option<Vec<u8>>, FrameFault>
    ensures bytes { IfSome (S.left source.old) (λ bytes. TakesHeader bytes (S.left source.new) result) }
    ensures counts { NoneFell (S.counts source.old) (S.counts source.new) }
    ensures once { (S.counts source.new).errors ≤ (S.counts source.old).errors + 1 }
    ensures cause { IfErr result (HasCause (S.counts source.old) (S.counts source.new)) }
    ensures calm { MatchResult result (λ _. NoError (S.counts source.old) (S.counts source.new)) (NoErrorUnlessRead (S.counts source.old) (S.counts source.new)) }
{
    let mut header = Vec::new(alloc);
    for _taken in 0..MAX_HEADER {
        let Some(byte) = read_byte(source)? else {
            if !header.is_empty() {
                return Err(FrameFault::Truncated);
            }
            return Ok(None);
        };
        push_byte(&mut header, byte)?;
        if is_whole_header(header.as_slice()) {
            return Ok(Some(header));
        }
    }
    Err(FrameFault::HeaderTooLong)
}

// Reads some bytes, at most `room`, onto the body's end.
fn read_onto<S: ByteSource>(
    source: &mut S,
    body: &mut Vec<u8>,
    room: usize,
) -> Result<usize, FrameFault>
    requires { 0 < room }
    ensures taken { IfOk result (TakesSome (S.left source.old) (S.left source.new) body.old.items body.new.items room) }
    ensures counts { NoneFell (S.counts source.old) (S.counts source.new) }
    ensures once { (S.counts source.new).errors ≤ (S.counts source.old).errors + 1 }
    ensures fault { IfErr result IsOutside }
    ensures kept { IfErr result (λ f. f ≡ FrameFault.Read → Keeps (S.left source.old) (S.left source.new)) }
    ensures full { IfErr result (λ f. f ≡ FrameFault.Memory → TakesAtMost (S.left source.old) (S.left source.new) room) }
    ensures cause { IfErr result (HasCause (S.counts source.old) (S.counts source.new)) }
    ensures calm { MatchResult result (λ _. NoError (S.counts source.old) (S.counts source.new)) (NoErrorUnlessRead (S.counts source.old) (S.counts source.new)) }
{
    let mut piece = [0u8; PIECE];
    let most = room.min(PIECE);
    let count = read_some(source, &mut piece[..most])?;
    match body.extend_from_slice(&piece[..count]) {
        Ok(()) => Ok(count),
        Err(_) => Err(FrameFault::Memory),
    }
}

// The body of a frame, of this length. It grows with what has come, whatever length was announced.
fn read_body<S: ByteSource>(
    alloc: Global,
    source: &mut S,
    length: usize,
) -> Result<Vec<u8>, FrameFault>
    ensures bytes { IfSome (S.left source.old) (λ bytes. TakesBody bytes length (S.left source.new) result) }
    ensures counts { NoneFell (S.counts source.old) (S.counts source.new) }
    ensures once { (S.counts source.new).errors ≤ (S.counts source.old).errors + 1 }
    ensures cause { IfErr result (HasCause (S.counts source.old) (S.counts source.new)) }
    ensures calm { MatchResult result (λ _. NoError (S.counts source.old) (S.counts source.new)) (NoErrorUnlessRead (S.counts source.old) (S.counts source.new)) }
{
    let mut body = Vec::new(alloc);
    'reads: while body.len() < length {
        let room = length - body.len();
        if read_onto(source, &mut body, room)? == 0 {
            return Err(FrameFault::Truncated);
        }
    }
    Ok(body)
}

// The next frame of the source.
pub(crate) fn next_frame<S: ByteSource>(alloc: Global, source: &mut S) -> Result<Frame, FrameFault>
    ensures bytes { IfSome (S.left source.old) (λ bytes. Answers bytes (S.left source.new) result) }
    ensures counts { NoneFell (S.counts source.old) (S.counts source.new) }
    ensures once { (S.counts source.new).errors ≤ (S.counts source.old).errors + 1 }
    ensures cause { IfErr result (HasCause (S.counts source.old) (S.counts source.new)) }
    ensures calm { MatchResult result (λ _. NoError (S.counts source.old) (S.counts source.new)) (NoErrorUnlessRead (S.counts source.old) (S.counts source.new)) }
{
    let Some(header) = read_header(alloc, source)? else {
        return Ok(Frame::End);
    };
    let length = body_length(header.as_slice())?;
    let body = read_body(alloc, source, length as usize)?;
    Ok(Frame::Body(body))
}
