// One message of a stream: it is taken, and answered before the next one.
ghost use Rattle.std.specs.Prelude.{◌≡◌, ℕ, List, [], ◌∷◌, ◌++◌, length, false, Option, None, Ok, Err, IfErr, IfSome, OnOk, OnErr};
ghost use Rattle.std.specs.Io.KnownBytes.{Appends};
ghost use Rattle.lsp_frame.specs.Counts.{HasFailed};
ghost use Rattle.lsp_frame.specs.FrameReader.{source_of, last_answer, IsOpen};
ghost use Rattle.lsp_frame.specs.Reading.{TakesFrame};
ghost use Rattle.work_config.specs.Configuration.{Configuration};
ghost use Rattle.work_config.specs.Fault.{IsWriteOrCore};
ghost use Rattle.work_config.specs.Sending.{SendsPrefix};
ghost use Rattle.lsp_core.specs.Core.{ExhaustsStamps};
ghost use Rattle.lsp_session.specs.Serving.{Calls, IsCaused, Serving, Comes, exit_in, end_by};
ghost use Rattle.lsp_core.specs.Steps.{Knows, replies_after};
ghost use Rattle.lsp_core.specs.Session.{is_exited};
ghost use Rattle.lsp_session.specs.Stream.{frames_of};
ghost use Rattle.lsp_core.specs.View.{core_state, last_fault};

use crate::dispatch::answer;
use crate::ended::Ended;
use crate::threading::Threading;
use lsp_core::{Core, Reply};
use lsp_frame::{ByteSink, ByteSource, Frame, FrameFault, FrameReader, write_frame};
use std::sync::Wait;
use std::thread::Threads;
use work_config::ServeFault;
use work_index::Gate;
use work_pool::Pool;

// Writes a frame for each reply, in order.
fn write_all<K: ByteSink>(writer: &mut K, replies: &[Reply]) -> Result<(), ServeFault>
    ensures ok { OnOk result (Appends (K.written writer.old) (K.written writer.new) (frames_of replies.now)) }
    ensures err { OnErr result (SendsPrefix (K.written writer.old) (K.written writer.new) (frames_of replies.now)) }
    ensures fault { IfErr result (λ fault. fault ≡ ServeFault.Write) }
    ensures cause { OnErr result (HasFailed (K.counts writer.old) (K.counts writer.new)) }
    ensures calls { Calls ServeFault.Write (K.counts writer.old) (K.counts writer.new) result }
{
    for reply in replies {
        match write_frame(writer, reply.as_bytes()) {
            Ok(()) => {}
            Err(_) => return Err(ServeFault::Write),
        }
    }
    Ok(())
}

// Takes a message, and writes the replies to it.
fn reply_to<R: Threads + Wait, K: ByteSink, G: Gate>(
    threading: &Threading<'_, R, G>,
    writer: &mut K,
    core: &mut Core,
    pool: &mut Pool,
    body: &[u8],
) -> Result<(), ServeFault>
    ensures knows { OnOk result ((config : Configuration) (bodies : List (List ℕ)) → Knows config (core_state core.old) bodies → Knows config (core_state core.new) (bodies ++ body.now ∷ [])) }
    ensures ok { OnOk result ((config : Configuration) (bodies : List (List ℕ)) → Knows config (core_state core.old) bodies → Appends (K.written writer.old) (K.written writer.new) (frames_of (replies_after config bodies body.now))) }
    ensures err { OnErr result ((config : Configuration) (bodies : List (List ℕ)) → Knows config (core_state core.old) bodies → SendsPrefix (K.written writer.old) (K.written writer.new) (frames_of (replies_after config bodies body.now))) }
    ensures fault { IfErr result (IsWriteOrCore (K.counts writer.old) (K.counts writer.new)) }
    ensures stamps { last_fault core.old ≡ None → result ≡ Err ServeFault.Exhausted → (config : Configuration) (bodies : List (List ℕ)) → Knows config (core_state core.old) bodies → ExhaustsStamps 0 config (length (bodies ++ body.now ∷ [])) }
    ensures open { OnOk result (last_fault core.new ≡ None) }
    ensures calls { Calls ServeFault.Write (K.counts writer.old) (K.counts writer.new) result }
{
    let replies = match answer(threading, core, pool, body) {
        Ok(replies) => replies,
        Err(fault) => return Err(fault),
    };
    write_all(writer, replies.as_slice())
}

// How the session has ended, if by an exit.
fn exit_in(core: &Core) -> Option<Ended>
    ensures { result ≡ exit_in (core_state core.now).state.phase }
{
    match core.exited() {
        Some(after_shutdown) => Some(Ended::Exit { after_shutdown }),
        None => None,
    }
}

// Takes a message, writes the replies to it, and says how the session has ended, if it has.
fn take_message<R: Threads + Wait, K: ByteSink, G: Gate>(
    threading: &Threading<'_, R, G>,
    writer: &mut K,
    core: &mut Core,
    pool: &mut Pool,
    body: &[u8],
) -> Result<Option<Ended>, ServeFault>
    ensures comes { (config : Configuration) (a b c v : Option (List ℕ)) → Serving config a b (core_state core.old) v (K.written writer.old) → is_exited (core_state core.old).state.phase ≡ false
        → IfSome b (λ rest. TakesFrame rest c body.now) → last_fault core.old ≡ None → Comes config a c (core_state core.new) v (K.written writer.new) None result }
    ensures fault { IfErr result (IsWriteOrCore (K.counts writer.old) (K.counts writer.new)) }
    ensures open { OnOk result (last_fault core.new ≡ None) }
    ensures calls { Calls ServeFault.Write (K.counts writer.old) (K.counts writer.new) result }
{
    match reply_to(threading, writer, core, pool, body) {
        Ok(()) => Ok(exit_in(core)),
        Err(fault) => Err(fault),
    }
}

// How a session ends where there is no further frame for this reason.
fn end_by(fault: FrameFault) -> Result<Option<Ended>, ServeFault>
    ensures { result ≡ end_by fault }
{
    match fault {
        FrameFault::Read => Err(ServeFault::Read),
        FrameFault::Memory => Err(ServeFault::Memory),
        _ => Ok(Some(Ended::BadFrame(fault.code()))),
    }
}

// Takes the next message of the stream, and says how the session has ended, if it has.
fn take_next<R: Threads + Wait, S: ByteSource, K: ByteSink, G: Gate>(
    threading: &Threading<'_, R, G>,
    reader: &mut FrameReader<S>,
    writer: &mut K,
    core: &mut Core,
    pool: &mut Pool,
) -> Result<Option<Ended>, ServeFault>
    requires { IsOpen reader.old }
    ensures comes { (config : Configuration) (a v : Option (List ℕ)) → Serving config a (S.left (source_of reader.old)) (core_state core.old) v (K.written writer.old) → is_exited (core_state core.old).state.phase ≡ false
        → last_fault core.old ≡ None → Comes config a (S.left (source_of reader.new)) (core_state core.new) v (K.written writer.new) (last_answer reader.new) result }
    ensures reads { Calls ServeFault.Read (S.counts (source_of reader.old)) (S.counts (source_of reader.new)) result }
    ensures writes { Calls ServeFault.Write (K.counts writer.old) (K.counts writer.new) result }
    ensures cause { IfErr result (IsCaused (S.counts (source_of reader.old)) (S.counts (source_of reader.new)) (K.counts writer.old) (K.counts writer.new)) }
    ensures goes_on { result ≡ Ok None → IsOpen reader.new }
    ensures open { last_fault core.old ≡ None → OnOk result (last_fault core.new ≡ None) }
{
    match reader.read_frame() {
        Ok(Frame::Body(body)) => take_message(threading, writer, core, pool, body.as_slice()),
        Ok(Frame::End) => Ok(Some(Ended::InputEnd)),
        Err(fault) => end_by(fault),
    }
}

/// Hands out jobs, takes the next message of the stream, writes the replies to it, and says how the session has ended, if it has.
pub fn take_turn<R: Threads + Wait, S: ByteSource, K: ByteSink, G: Gate>(
    threading: &Threading<'_, R, G>,
    reader: &mut FrameReader<S>,
    writer: &mut K,
    core: &mut Core,
    pool: &mut Pool,
) -> Result<Option<Ended>, ServeFault>
    requires { IsOpen reader.old }
    ensures comes { (config : Configuration) (a v : Option (List ℕ)) → Serving config a (S.left (source_of reader.old)) (core_state core.old) v (K.written writer.old) → is_exited (core_state core.old).state.phase ≡ false
        → last_fault core.old ≡ None → Comes config a (S.left (source_of reader.new)) (core_state core.new) v (K.written writer.new) (last_answer reader.new) result }
    ensures reads { Calls ServeFault.Read (S.counts (source_of reader.old)) (S.counts (source_of reader.new)) result }
    ensures writes { Calls ServeFault.Write (K.counts writer.old) (K.counts writer.new) result }
    ensures cause { IfErr result (IsCaused (S.counts (source_of reader.old)) (S.counts (source_of reader.new)) (K.counts writer.old) (K.counts writer.new)) }
    ensures goes_on { result ≡ Ok None → IsOpen reader.new }
    ensures open { last_fault core.old ≡ None → OnOk result (last_fault core.new ≡ None) }
{
    match core.hand_out(threading.rt, pool) {
        Ok(()) => take_next(threading, reader, writer, core, pool),
        Err(fault) => Err(ServeFault::from(fault)),
    }
}
