// Writes frames to a sink of bytes.
ghost use Rattle.std.specs.Prelude.{◌≡◌, ◌+◌, ◌^◌, ◌<◌, ◌≤◌, length, IfOk, IfErr, OnOk, OnErr};
ghost use Rattle.std.specs.Io.KnownBytes.{Appends, WriteAppends};
ghost use Rattle.lsp_frame.specs.Counts.{NoneFell, NoError, HasFailed};
ghost use Rattle.lsp_frame.specs.Steps.{SendsPrefixAfter};
ghost use Rattle.lsp_frame.specs.Writing.{frame_of, SendsPrefix};

use crate::counts::MAX_INTERRUPTIONS;
use crate::device::{ByteSink, Fail};
use crate::fault::WriteFault;
use itoa::Buffer;

// One write of some bytes, made again after an interruption. An answer of 0 is an error.
fn write_some<K: ByteSink>(writer: &mut K, bytes: &[u8]) -> Result<usize, Fail>
    requires { 0 < length bytes.now }
    ensures some { IfOk result (λ n. (0 < n) × (n ≤ length bytes.now)) }
    ensures bytes { WriteAppends (K.written writer.old) (K.written writer.new) result bytes.now }
    ensures counts { NoneFell (K.counts writer.old) (K.counts writer.new) }
    ensures once { (K.counts writer.new).errors ≤ (K.counts writer.old).errors + 1 }
    ensures cause { OnErr result (HasFailed (K.counts writer.old) (K.counts writer.new)) }
    ensures calm { OnOk result (NoError (K.counts writer.old) (K.counts writer.new)) }
{
    for _turn in 0..MAX_INTERRUPTIONS {
        match writer.write(bytes) {
            Ok(0) => return Err(Fail::Error),
            Ok(n) => return Ok(n),
            Err(Fail::Interrupted) => {}
            Err(Fail::Error) => return Err(Fail::Error),
        }
    }
    Err(Fail::Interrupted)
}

// Writes a part of a frame, behind so many bytes, and answers how many then went out.
fn write_part<K: ByteSink>(writer: &mut K, part: &[u8], before: u64) -> Result<u64, WriteFault>
    requires { before + length part.now < 2 ^ 64 }
    ensures count { IfOk result (λ n. n ≡ before + length part.now) }
    ensures ok { OnOk result (Appends (K.written writer.old) (K.written writer.new) part.now) }
    ensures err { IfErr result (λ fault. SendsPrefixAfter (K.written writer.old) (K.written writer.new) part.now before fault.written) }
    ensures counts { NoneFell (K.counts writer.old) (K.counts writer.new) }
    ensures once { (K.counts writer.new).errors ≤ (K.counts writer.old).errors + 1 }
    ensures cause { OnErr result (HasFailed (K.counts writer.old) (K.counts writer.new)) }
    ensures calm { OnOk result (NoError (K.counts writer.old) (K.counts writer.new)) }
{
    let mut sent = 0;
    'writes: while sent < part.len() {
        match write_some(writer, &part[sent..]) {
            Ok(count) => sent += count,
            Err(_) => {
                return Err(WriteFault {
                    written: before + sent as u64,
                });
            }
        }
    }
    Ok(before + part.len() as u64)
}

/// Writes a frame with this body: `Content-Length: N`, an empty line and the body, N its bytes in decimal digits
/// (Language Server Protocol 3.17, base protocol).
///
/// It takes no memory. At an `Err` the sink failed, and exactly `written` bytes of the frame went out, from its front.
pub fn write_frame<K: ByteSink>(writer: &mut K, body: &[u8]) -> Result<(), WriteFault>
    ensures ok { OnOk result (Appends (K.written writer.old) (K.written writer.new) (frame_of body.now)) }

    // Where the writer fails, exactly that many bytes of the frame went out.
    ensures err { IfErr result (λ fault. SendsPrefix (K.written writer.old) (K.written writer.new) (frame_of body.now) fault.written) }

    // It fails only where the writer failed in the call.
    ensures cause { OnErr result (HasFailed (K.counts writer.old) (K.counts writer.new)) }

    // It ends well only where no error came in the call.
    ensures calm { OnOk result (NoError (K.counts writer.old) (K.counts writer.new)) }
    ensures counts { NoneFell (K.counts writer.old) (K.counts writer.new) }

    // After an error of the writer no other write is made: a call meets one at most.
    ensures once { (K.counts writer.new).errors ≤ (K.counts writer.old).errors + 1 }
{
    let mut digits = Buffer::new();
    let length = digits.format(body.len() as u64).as_bytes();
    let named = write_part(writer, b"Content-Length: ", 0)?;
    let counted = write_part(writer, length, named)?;
    let headed = write_part(writer, b"\r\n\r\n", counted)?;
    write_part(writer, body, headed)?;
    Ok(())
}

/// Writes these bytes.
///
/// It takes no memory. At an `Err` the sink failed, and exactly `written` of the bytes went out, from their front.
pub fn write_bytes<K: ByteSink>(writer: &mut K, bytes: &[u8]) -> Result<(), WriteFault>
    ensures ok { OnOk result (Appends (K.written writer.old) (K.written writer.new) bytes.now) }

    // Where the writer fails, exactly that many of the bytes went out.
    ensures err { IfErr result (λ fault. SendsPrefix (K.written writer.old) (K.written writer.new) bytes.now fault.written) }

    // It fails only where the writer failed in the call.
    ensures cause { OnErr result (HasFailed (K.counts writer.old) (K.counts writer.new)) }

    // It ends well only where no error came in the call.
    ensures calm { OnOk result (NoError (K.counts writer.old) (K.counts writer.new)) }
    ensures counts { NoneFell (K.counts writer.old) (K.counts writer.new) }

    // After an error of the writer no other write is made: a call meets one at most.
    ensures once { (K.counts writer.new).errors ≤ (K.counts writer.old).errors + 1 }
{
    write_part(writer, bytes, 0)?;
    Ok(())
}
