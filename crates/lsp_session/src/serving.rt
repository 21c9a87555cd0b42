// A session over streams of frames.
ghost use Rattle.std.specs.Prelude.{◌≡◌, ◌+◌, ◌≤◌, ℕ, List, [], length, None, Some, Err, IfOk, IfErr, IfSome, OnOk, OnErr};
ghost use Rattle.std.specs.Io.KnownBytes.{Appends};
ghost use Rattle.lsp_frame.specs.Counts.{NoError, HasFailed};
ghost use Rattle.lsp_frame.specs.FrameReader.{source_of, last_answer, IsOpen};
ghost use Rattle.lsp_frame.specs.Stream.{frames};
ghost use Rattle.work_config.specs.Configuration.{Configuration};
ghost use Rattle.work_config.specs.Fault.{ComesWhileServing, NoErrorUnless};
ghost use Rattle.work_config.specs.Sending.{SendsPrefix};
ghost use Rattle.lsp_core.specs.Core.{ExhaustsStamps};
ghost use Rattle.lsp_session.specs.Serving.{Calls, IsCaused, Served};
ghost use Rattle.lsp_core.specs.Steps.{Knows};
ghost use Rattle.lsp_session.specs.Stream.{output, ended, behind_exit, IsExit, HasFrameCode, LeavesReader, Answered};
ghost use Rattle.lsp_core.specs.View.{core_state, last_fault};

use crate::ended::Ended;
use crate::taking::take_turn;
use crate::threading::Threading;
use lsp_core::Core;
use lsp_frame::{ByteSink, ByteSource, FrameReader};
use std::alloc::Global;
use std::marker::Send;
use std::sync::{Arc, Wait};
use std::thread::Threads;
use work_config::{Config, ServeFault, start_pool};
use work_index::Gate;
use work_pool::Pool;

// What a session is started with: the files, how many workers there are, and the gate that they pass.
struct Start<'g, G: Gate> {
    config: Config,
    workers: usize,
    gate: &'g Arc<G>,
}

// Serves a session with a new core, message by message, to its end.
fn serve_messages<R: Threads + Wait, S: ByteSource, K: ByteSink, G: Gate>(
    threading: &Threading<'_, R, G>,
    reader: &mut FrameReader<S>,
    writer: &mut K,
    core: &mut Core,
    pool: &mut Pool,
) -> Result<Ended, ServeFault>
    requires { IsOpen reader.old }
    ensures served { (config : Configuration) → Knows config (core_state core.old) [] → last_fault core.old ≡ None → Served config (S.left (source_of reader.old)) (S.left (source_of reader.new)) (K.written writer.old) (K.written writer.new) (last_answer reader.new) result }
    ensures reads { Calls ServeFault.Read (S.counts (source_of reader.old)) (S.counts (source_of reader.new)) result }
    ensures writes { Calls ServeFault.Write (K.counts writer.old) (K.counts writer.new) result }
    ensures cause { IfErr result (IsCaused (S.counts (source_of reader.old)) (S.counts (source_of reader.new)) (K.counts writer.old) (K.counts writer.new)) }
{
    for _turn in threading.rt.forever() {
        match take_turn(threading, reader, writer, core, pool) {
            Ok(None) => {}
            Ok(Some(ended)) => return Ok(ended),
            Err(fault) => return Err(fault),
        }
    }
    unreachable!()
}

// Serves a session from its start to its end.
fn run<
    R: Threads + Wait + Clone + Send + Drop + 'static,
    S: ByteSource,
    K: ByteSink,
    G: Gate + 'static,
>(
    rt: &R,
    alloc: Global,
    reader: &mut FrameReader<S>,
    writer: &mut K,
    start: Start<'_, G>,
) -> Result<Ended, ServeFault>
    requires { IsOpen reader.old }
    ensures served { Served start.entry.config (S.left (source_of reader.old)) (S.left (source_of reader.new)) (K.written writer.old) (K.written writer.new) (last_answer reader.new) result }
    ensures reads { Calls ServeFault.Read (S.counts (source_of reader.old)) (S.counts (source_of reader.new)) result }
    ensures writes { Calls ServeFault.Write (K.counts writer.old) (K.counts writer.new) result }
    ensures cause { IfErr result (IsCaused (S.counts (source_of reader.old)) (S.counts (source_of reader.new)) (K.counts writer.old) (K.counts writer.new)) }
{
    let Start {
        config,
        workers,
        gate,
    } = start;
    let mut core = match Core::new(alloc, config) {
        Ok(core) => core,
        Err(fault) => return Err(ServeFault::from(fault)),
    };
    let mut pool = match start_pool(rt, alloc, workers, gate) {
        Ok(pool) => pool,
        Err(fault) => return Err(fault),
    };
    let threading = Threading {
        rt,
        workers,
        gate: &**gate,
    };
    let ended = serve_messages(&threading, reader, writer, &mut core, &mut pool);
    pool.close(rt);
    ended
}

/// Serves a session: reads the messages of an editor from the frames of `reader`, and writes a frame to `writer` for
/// each reply, before the next message is read. So many `workers` lex and parse the texts in threads of their own, and gather
/// their facts; 0 counts as 1, and over 64 as 64. Each enters the gate before it works on a text. A text is handed
/// out as soon as the workers have room for one more, not only when a message asks for it. If a message needs a whole analysis, as
/// many threads resolve the names of the files, but never more than there are files; each enters the gate before each of its files.
/// If at most 64 files came, left or got other texts since the last analysis, this thread does it alone.
///
/// It ends with the message `exit`, behind which nothing is read, or with the input: at its end or at a frame that
/// can't be read. The faults: `Read` where the source failed, `Write` where the sink did, `Memory` where memory was refused, also
/// to a worker whose text still counts, or where a job couldn't be sent, `ThreadRefused` where a thread was refused or no worker is left,
/// and `Exhausted` where a text found no stamp. Whatever it ends with, what was written is a prefix of what the session says on the whole
/// input, and all of it where no fault came. A fault loses the replies to one message at most, and `Read` none. By then every worker has
/// ended (it joins them; no clause says so).
///
/// `reader` must have answered no fault and no end. It may wait for a worker, and nothing is promised of when that is done.
pub fn serve<
    R: Threads + Wait + Clone + Send + Drop + 'static,
    S: ByteSource,
    K: ByteSink,
    G: Gate + 'static,
>(
    rt: &R,
    alloc: Global,
    reader: &mut FrameReader<S>,
    writer: &mut K,
    gate: &Arc<G>,
    config: Config,
    workers: usize,
) -> Result<Ended, ServeFault>
    requires { IsOpen reader.old }

    // At every return what was written is a prefix of the output, and all of it at `Ok`.
    ensures prefix { IfSome (S.left (source_of reader.old)) (λ bytes. SendsPrefix (K.written writer.old) (K.written writer.new) (output config bytes)) }
    ensures whole { IfSome (S.left (source_of reader.old)) (λ bytes. OnOk result (Appends (K.written writer.old) (K.written writer.new) (output config bytes))) }
    ensures ended { IfSome (S.left (source_of reader.old)) (λ bytes. IfOk result (λ end. end ≡ ended config bytes)) }

    // After an exit the reader stands directly behind its frame.
    ensures behind { IfSome (S.left (source_of reader.old)) (λ bytes. IfOk result (λ end. IsExit end → S.left (source_of reader.new) ≡ Some (behind_exit config bytes))) }

    ensures goes_on { IfOk result (λ end. IsExit end → IsOpen reader.new) }

    // Else the reader answers from then on what the session ended with: the end, or the fault of the bad frame.
    ensures leaves { IfOk result (LeavesReader (last_answer reader.new)) }

    // At a fault all that the session says to the bytes that were taken went out, but for the last of them, which complete one
    // message at most. Where the source failed there are no such last ones: all went out, and no more.
    ensures loses { OnErr result (IfSome (S.left (source_of reader.old)) (λ bytes. (last : List ℕ) × Answered config bytes last (S.left (source_of reader.new)) (K.written writer.old) (K.written writer.new))) }
    ensures answered { IfErr result (λ fault. fault ≡ ServeFault.Read → IfSome (S.left (source_of reader.old)) (λ bytes. Answered config bytes [] (S.left (source_of reader.new)) (K.written writer.old) (K.written writer.new))) }

    // The number of a bad frame is one of 101 to 106.
    ensures code { IfOk result HasFrameCode }

    // A device's fault is answered only where the device failed in the call.
    ensures read { IfErr result (λ fault. fault ≡ ServeFault.Read → HasFailed (S.counts (source_of reader.old)) (S.counts (source_of reader.new))) }
    ensures write { IfErr result (λ fault. fault ≡ ServeFault.Write → HasFailed (K.counts writer.old) (K.counts writer.new)) }

    // No stamp is left only where the files on disk and the messages are more than there are stamps.
    ensures exhausted { result ≡ Err ServeFault.Exhausted → IfSome (S.left (source_of reader.old)) (λ bytes. ExhaustsStamps 0 config (length (frames bytes).bodies)) }

    // What is wrong with a configuration was said when it was made.
    ensures fault { IfErr result ComesWhileServing }

    // It ends well only where no error of a device came, and such an error is reported as the device's own fault.
    ensures reads_calm { OnOk result (NoError (S.counts (source_of reader.old)) (S.counts (source_of reader.new))) }
    ensures writes_calm { OnOk result (NoError (K.counts writer.old) (K.counts writer.new)) }
    ensures reads_reported { IfErr result (NoErrorUnless ServeFault.Read (S.counts (source_of reader.old)) (S.counts (source_of reader.new))) }
    ensures writes_reported { IfErr result (NoErrorUnless ServeFault.Write (K.counts writer.old) (K.counts writer.new)) }

    // After an error a device is not called again.
    ensures reads_once { (S.counts (source_of reader.new)).errors ≤ (S.counts (source_of reader.old)).errors + 1 }
    ensures writes_once { (K.counts writer.new).errors ≤ (K.counts writer.old).errors + 1 }
{
    let start = Start {
        config,
        workers,
        gate,
    };
    run(rt, alloc, reader, writer, start)
}
