// The check of a workspace, without an editor.
ghost use Rattle.std.specs.Prelude.{◌≡◌, ◌+◌, ◌≤◌, [], ◌++◌, flat_map, IfOk, IfErr, OnOk, OnErr};
ghost use Rattle.std.specs.Io.KnownBytes.{Appends};
ghost use Rattle.lsp_frame.specs.Counts.{NoneFell, NoError};
ghost use Rattle.check_lines.specs.Lines.{cut, written};
ghost use Rattle.work_check.specs.Listing.{listing, has_errors, listed, checked_of, sources_in};
ghost use Rattle.work_check.specs.Steps.{Sent, all_written, sent_lines, still_first};
ghost use Rattle.work_config.specs.Fault.{ComesWhileChecking, NoErrorUnless};
ghost use Rattle.work_config.specs.Sending.{SendsPrefix};

use crate::diagnosing::{DiagnosedRoots, diagnose_files};
use crate::listed::Listed;
use crate::room::{Room, cut_first};
use crate::shares::{ShareLines, lines_in_shares};
use crate::wanted::{Asked, Checked, Listing};
use check_lines::{Format, ListedFile};
use lsp_frame::{ByteSink, write_bytes};
use proto_decls::Diag;
use std::alloc::Global;
use std::marker::Send;
use std::mem;
use std::sync::{Arc, Wait};
use std::thread::Threads;
use work_config::{Config, CoreFault, ServeFault};
use work_index::Gate;

// How many lines of a file are added to the room at a time.
const LINES: usize = 4096;

// From so many bytes on the room is written.
const FULL: usize = 65536;

// The lines of fewer diagnostics are made by one thread.
const FEW: usize = 1024;

// The lines of more diagnostics than so many are never all in memory.
const MANY: usize = 65536;

// Writes these bytes. If there are none, the writer isn't called.
fn send<K: ByteSink>(writer: &mut K, bytes: &[u8]) -> Result<(), ServeFault>
    ensures ok { OnOk result (Appends (K.written writer.old) (K.written writer.new) bytes.now) }
    ensures err { OnErr result (SendsPrefix (K.written writer.old) (K.written writer.new) bytes.now) }
    ensures fault { IfErr result (ComesWhileChecking (K.counts writer.old) (K.counts writer.new)) }
    ensures counts { NoneFell (K.counts writer.old) (K.counts writer.new) }
    ensures calm { OnOk result (NoError (K.counts writer.old) (K.counts writer.new)) }
    ensures reported { IfErr result (NoErrorUnless ServeFault.Write (K.counts writer.old) (K.counts writer.new)) }
    ensures once { (K.counts writer.new).errors ≤ (K.counts writer.old).errors + 1 }
{
    match write_bytes(writer, bytes) {
        Ok(()) => Ok(()),
        Err(_) => Err(ServeFault::Write),
    }
}

// Writes what the room holds, and empties it.
fn flush<K: ByteSink>(writer: &mut K, room: &mut Room) -> Result<(), ServeFault>
    ensures ok { OnOk result (Appends (K.written writer.old) (K.written writer.new) room.old.bytes.items) }
    ensures empty { OnOk result (room.new.bytes.items ≡ []) }
    ensures first { room.new.first ≡ room.old.first }
    ensures err { OnErr result (SendsPrefix (K.written writer.old) (K.written writer.new) room.old.bytes.items) }
    ensures fault { IfErr result (ComesWhileChecking (K.counts writer.old) (K.counts writer.new)) }
    ensures counts { NoneFell (K.counts writer.old) (K.counts writer.new) }
    ensures calm { OnOk result (NoError (K.counts writer.old) (K.counts writer.new)) }
    ensures reported { IfErr result (NoErrorUnless ServeFault.Write (K.counts writer.old) (K.counts writer.new)) }
    ensures once { (K.counts writer.new).errors ≤ (K.counts writer.old).errors + 1 }
{
    send(writer, room.bytes.as_slice())?;
    room.bytes.clear();
    Ok(())
}

// Adds to the room the lines of some diagnostics of a file, and writes the room if it is full.
fn add_part<K: ByteSink>(
    writer: &mut K,
    room: &mut Room,
    file: &mut ListedFile<'_>,
    diags: &[Diag],
) -> Result<(), ServeFault>
    ensures same { file.new ≡ file.old }

    // Of what the room held and the lines behind it a front went out, and the room holds the others.
    ensures ok { OnOk result (Sent (K.written writer.old) (K.written writer.new) (room.old.bytes.items ++ cut room.old.first (written file.old diags.now)) room.new.bytes.items) }
    ensures first { OnOk result (room.new.first ≡ still_first room.old.first (written file.old diags.now)) }
    ensures err { OnErr result (SendsPrefix (K.written writer.old) (K.written writer.new) (room.old.bytes.items ++ cut room.old.first (written file.old diags.now))) }
    ensures fault { IfErr result (ComesWhileChecking (K.counts writer.old) (K.counts writer.new)) }
    ensures counts { NoneFell (K.counts writer.old) (K.counts writer.new) }
    ensures calm { OnOk result (NoError (K.counts writer.old) (K.counts writer.new)) }
    ensures reported { IfErr result (NoErrorUnless ServeFault.Write (K.counts writer.old) (K.counts writer.new)) }
    ensures once { (K.counts writer.new).errors ≤ (K.counts writer.old).errors + 1 }
{
    let Ok(()) = room.add(file, diags) else {
        return Err(ServeFault::Memory);
    };
    if room.bytes.len() < FULL {
        return Ok(());
    }
    flush(writer, room)
}

// Adds the lines of a file to the room, so many at a time, and writes it whenever it is full.
fn add_lines<K: ByteSink>(
    writer: &mut K,
    room: &mut Room,
    file: &mut ListedFile<'_>,
    diags: &[Diag],
) -> Result<(), ServeFault>
    ensures ok { OnOk result (Sent (K.written writer.old) (K.written writer.new) (room.old.bytes.items ++ cut room.old.first (written file.old diags.now)) room.new.bytes.items) }
    ensures first { OnOk result (room.new.first ≡ still_first room.old.first (written file.old diags.now)) }
    ensures err { OnErr result (SendsPrefix (K.written writer.old) (K.written writer.new) (room.old.bytes.items ++ cut room.old.first (written file.old diags.now))) }
    ensures fault { IfErr result (ComesWhileChecking (K.counts writer.old) (K.counts writer.new)) }
    ensures counts { NoneFell (K.counts writer.old) (K.counts writer.new) }
    ensures calm { OnOk result (NoError (K.counts writer.old) (K.counts writer.new)) }
    ensures reported { IfErr result (NoErrorUnless ServeFault.Write (K.counts writer.old) (K.counts writer.new)) }
    ensures once { (K.counts writer.new).errors ≤ (K.counts writer.old).errors + 1 }
{
    let mut left = diags;
    'parts: while !left.is_empty() {
        let (part, more) = left.split_at(left.len().min(LINES));
        add_part(writer, room, file, part)?;
        left = more;
    }
    Ok(())
}

// Makes and writes the lines that are asked for, one file after the other.
fn send_in_turn<K: ByteSink>(
    alloc: Global,
    writer: &mut K,
    listed: &Listed,
) -> Result<(), ServeFault>
    ensures ok { OnOk result (Appends (K.written writer.old) (K.written writer.new) (sent_lines listed.now)) }
    ensures err { OnErr result (SendsPrefix (K.written writer.old) (K.written writer.new) (sent_lines listed.now)) }
    ensures fault { IfErr result (ComesWhileChecking (K.counts writer.old) (K.counts writer.new)) }
    ensures counts { NoneFell (K.counts writer.old) (K.counts writer.new) }
    ensures calm { OnOk result (NoError (K.counts writer.old) (K.counts writer.new)) }
    ensures reported { IfErr result (NoErrorUnless ServeFault.Write (K.counts writer.old) (K.counts writer.new)) }
    ensures once { (K.counts writer.new).errors ≤ (K.counts writer.old).errors + 1 }
{
    let mut room = Room::new(alloc, listed.how.format);
    for number in 0..listed.files.file_count() {
        let mut file = listed.file(alloc, number);
        add_lines(writer, &mut room, &mut file, listed.diagnostics(number))?;
    }
    flush(writer, &mut room)
}

// Writes the lines of shares, one share after the other. They may be the items of an array.
fn send_shares<K: ByteSink>(
    writer: &mut K,
    array: bool,
    shares: Vec<ShareLines>,
) -> Result<(), ServeFault>
    ensures ok { OnOk result (Appends (K.written writer.old) (K.written writer.new) (cut array (flat_map (λ share. share.lines.items) shares.items))) }
    ensures err { OnErr result (SendsPrefix (K.written writer.old) (K.written writer.new) (cut array (flat_map (λ share. share.lines.items) shares.items))) }
    ensures fault { IfErr result (ComesWhileChecking (K.counts writer.old) (K.counts writer.new)) }
    ensures counts { NoneFell (K.counts writer.old) (K.counts writer.new) }
    ensures calm { OnOk result (NoError (K.counts writer.old) (K.counts writer.new)) }
    ensures reported { IfErr result (NoErrorUnless ServeFault.Write (K.counts writer.old) (K.counts writer.new)) }
    ensures once { (K.counts writer.new).errors ≤ (K.counts writer.old).errors + 1 }
{
    let mut first = array;
    'shares: for share in shares {
        send(writer, cut_first(&mut first, share.lines.as_slice()))?;
    }
    Ok(())
}

// Has threads make the lines that are asked for, in shares of at least so many diagnostics, and writes them.
fn send_by_threads<R: Threads + Wait, K: ByteSink>(
    rt: &R,
    alloc: Global,
    writer: &mut K,
    listed: &Listed,
    least: usize,
) -> Result<(), ServeFault>
    ensures ok { OnOk result (Appends (K.written writer.old) (K.written writer.new) (sent_lines listed.now)) }
    ensures err { OnErr result (SendsPrefix (K.written writer.old) (K.written writer.new) (sent_lines listed.now)) }
    ensures fault { IfErr result (ComesWhileChecking (K.counts writer.old) (K.counts writer.new)) }
    ensures counts { NoneFell (K.counts writer.old) (K.counts writer.new) }
    ensures calm { OnOk result (NoError (K.counts writer.old) (K.counts writer.new)) }
    ensures reported { IfErr result (NoErrorUnless ServeFault.Write (K.counts writer.old) (K.counts writer.new)) }
    ensures once { (K.counts writer.new).errors ≤ (K.counts writer.old).errors + 1 }
{
    match lines_in_shares(rt, alloc, listed, least) {
        Ok(shares) => send_shares(writer, listed.how.format.is_array(), shares),
        Err(fault) => Err(ServeFault::from(CoreFault::from(fault))),
    }
}

// Writes the lines that are asked for. If they are neither few nor very many, and there are several workers, threads make them.
fn send_all<R: Threads + Wait, K: ByteSink>(
    rt: &R,
    alloc: Global,
    writer: &mut K,
    listed: &Listed,
    workers: usize,
) -> Result<(), ServeFault>
    ensures ok { OnOk result (Appends (K.written writer.old) (K.written writer.new) (sent_lines listed.now)) }
    ensures err { OnErr result (SendsPrefix (K.written writer.old) (K.written writer.new) (sent_lines listed.now)) }
    ensures fault { IfErr result (ComesWhileChecking (K.counts writer.old) (K.counts writer.new)) }
    ensures counts { NoneFell (K.counts writer.old) (K.counts writer.new) }
    ensures calm { OnOk result (NoError (K.counts writer.old) (K.counts writer.new)) }
    ensures reported { IfErr result (NoErrorUnless ServeFault.Write (K.counts writer.old) (K.counts writer.new)) }
    ensures once { (K.counts writer.new).errors ≤ (K.counts writer.old).errors + 1 }
{
    let count = listed.line_count();
    if workers < 2 || count < FEW || count > MANY {
        return send_in_turn(alloc, writer, listed);
    }
    send_by_threads(rt, alloc, writer, listed, count.div_ceil(workers.min(64)))
}

// Writes the lines that are asked for, with what stands before and behind all lines.
fn send_document<R: Threads + Wait, K: ByteSink>(
    rt: &R,
    alloc: Global,
    writer: &mut K,
    listed: &Listed,
    workers: usize,
) -> Result<(), ServeFault>
    ensures ok { OnOk result (Appends (K.written writer.old) (K.written writer.new) (all_written listed.now)) }
    ensures err { OnErr result (SendsPrefix (K.written writer.old) (K.written writer.new) (all_written listed.now)) }
    ensures fault { IfErr result (ComesWhileChecking (K.counts writer.old) (K.counts writer.new)) }
    ensures counts { NoneFell (K.counts writer.old) (K.counts writer.new) }
    ensures calm { OnOk result (NoError (K.counts writer.old) (K.counts writer.new)) }
    ensures reported { IfErr result (NoErrorUnless ServeFault.Write (K.counts writer.old) (K.counts writer.new)) }
    ensures once { (K.counts writer.new).errors ≤ (K.counts writer.old).errors + 1 }
{
    let format = listed.how.format;
    send(writer, format.opening().as_bytes())?;
    send_all(rt, alloc, writer, listed, workers)?;
    send(writer, format.closing().as_bytes())
}

// Writes the lines that are asked for, and answers what was found.
fn send_and_judge<R: Threads + Wait, K: ByteSink>(
    rt: &R,
    alloc: Global,
    writer: &mut K,
    listed: &Listed,
    workers: usize,
) -> Result<Checked, ServeFault>
    ensures prefix { SendsPrefix (K.written writer.old) (K.written writer.new) (all_written listed.now) }
    ensures whole { OnOk result (Appends (K.written writer.old) (K.written writer.new) (all_written listed.now)) }
    ensures checked { IfOk result (λ found. found ≡ checked_of listed.now.how listed.now.files) }
    ensures fault { IfErr result (ComesWhileChecking (K.counts writer.old) (K.counts writer.new)) }
    ensures calm { OnOk result (NoError (K.counts writer.old) (K.counts writer.new)) }
    ensures reported { IfErr result (NoErrorUnless ServeFault.Write (K.counts writer.old) (K.counts writer.new)) }
    ensures once { (K.counts writer.new).errors ≤ (K.counts writer.old).errors + 1 }
{
    send_document(rt, alloc, writer, listed, workers)?;
    match listed.checked(alloc) {
        Ok(checked) => Ok(checked),
        Err(_) => Err(ServeFault::Memory),
    }
}

/// Checks the files of a configuration: writes a line for each diagnostic of the files that are asked for, as it is asked for, and answers
/// how many of these files there are, how many errors, and how many of the files aren't checked for unknown names.
///
/// The lines come by path, and those of a file by start, end, number and words. Each ends with a line feed, but for the results of a document
/// of SARIF, which is one line. They are gathered in memory and written whenever they come to 64 KiB, and at the end: at most 4,096 lines beyond
/// 64 KiB are in memory at a time. But if there are several workers and 1,024 to 65,536 diagnostics, threads make all lines, each those of
/// consecutive files, and these are written then.
///
/// All files are analysed, whichever are asked for.
///
/// As many threads as there are `workers` do the work on the texts, and then as many, but never more than there are files, link them: 0
/// counts as 1, and over 64 as 64. If threads make the lines, there are at most as many, and one more if files without diagnostics are left
/// at the end. Each enters the gate before it works on a text, and before it links a file, and all have ended when the first line is
/// written. How many there are takes no part in what is written.
///
/// What the names of a file mean is dropped once it is linked. If no fault comes before the first line, the rest of what is known of the
/// files, trees too, is never freed, since freeing it takes a good part of a check's time: call it where the process ends soon after.
///
/// The only faults are `Write` where the sink failed, `Memory` where memory was refused, also to a worker, or where a job
/// couldn't be sent, and `ThreadRefused` where a thread was or where no worker is left. Whatever it ends with, what was written
/// is a prefix of the lines, and all of them where no fault came.
pub fn check_as<R: Threads + Wait + Clone + Send + Drop + 'static, K: ByteSink, G: Gate + 'static>(
    rt: &R,
    alloc: Global,
    writer: &mut K,
    gate: &Arc<G>,
    asked: Asked,
) -> Result<Checked, ServeFault>
    // At every return what was written is a prefix of the lines, and all of them at `Ok`.
    ensures prefix { SendsPrefix (K.written writer.old) (K.written writer.new) (listed asked.how asked.config) }
    ensures whole { OnOk result (Appends (K.written writer.old) (K.written writer.new) (listed asked.how asked.config)) }

    // It answers how many files are asked for, how many of their diagnostics are errors, and how many of them aren't checked for unknown names.
    ensures checked { IfOk result (λ found. found ≡ checked_of asked.how (sources_in asked.config)) }

    // The faults are those of memory and threads, and the sink's, which is reported only where the sink failed in the call.
    ensures fault { IfErr result (ComesWhileChecking (K.counts writer.old) (K.counts writer.new)) }

    // It ends well only where no error of the sink came, an error is reported as `Write`, and nothing more is written after one.
    ensures calm { OnOk result (NoError (K.counts writer.old) (K.counts writer.new)) }
    ensures reported { IfErr result (NoErrorUnless ServeFault.Write (K.counts writer.old) (K.counts writer.new)) }
    ensures once { (K.counts writer.new).errors ≤ (K.counts writer.old).errors + 1 }
{
    let Asked {
        config,
        how,
        workers,
    } = asked;
    match diagnose_files(rt, alloc, gate, config, workers) {
        Ok(found) => {
            let DiagnosedRoots { files, roots } = found;
            let listed = Listed { how, files, roots };
            let checked = send_and_judge(rt, alloc, writer, &listed, workers);
            mem::forget(listed);
            checked
        }
        Err(fault) => Err(fault),
    }
}

/// Checks the files of a configuration: writes a line for each diagnostic, and answers whether one is an error.
///
/// A line is `path:line:column: number message`, with line and column from 1 and columns in UTF-16 units, and ends with a
/// line feed. Lines, threads, memory and faults are as [`check_as`] says.
pub fn check<R: Threads + Wait + Clone + Send + Drop + 'static, K: ByteSink, G: Gate + 'static>(
    rt: &R,
    alloc: Global,
    writer: &mut K,
    gate: &Arc<G>,
    config: Config,
    workers: usize,
) -> Result<bool, ServeFault>
    // At every return what was written is a prefix of the lines, and all of them at `Ok`.
    ensures prefix { SendsPrefix (K.written writer.old) (K.written writer.new) (listing (sources_in config)) }
    ensures whole { OnOk result (Appends (K.written writer.old) (K.written writer.new) (listing (sources_in config))) }

    // It answers true exactly where a diagnostic is an error.
    ensures errors { IfOk result (λ found. found ≡ has_errors (sources_in config)) }

    // The faults are those of memory and threads, and the sink's, which is reported only where the sink failed in the call.
    ensures fault { IfErr result (ComesWhileChecking (K.counts writer.old) (K.counts writer.new)) }

    // It ends well only where no error of the sink came, an error is reported as `Write`, and nothing more is written after one.
    ensures calm { OnOk result (NoError (K.counts writer.old) (K.counts writer.new)) }
    ensures reported { IfErr result (NoErrorUnless ServeFault.Write (K.counts writer.old) (K.counts writer.new)) }
    ensures once { (K.counts writer.new).errors ≤ (K.counts writer.old).errors + 1 }
{
    let how = Listing {
        format: Format::Plain,
        folders: Vec::new(alloc),
        only: None,
    };
    let asked = Asked {
        config,
        how,
        workers,
    };
    match check_as(rt, alloc, writer, gate, asked) {
        Ok(checked) => Ok(checked.errors > 0),
        Err(fault) => Err(fault),
    }
}
