// Cores: messages, and work that is brought in any order.
use crate::configs::config_of;
use crate::frames::put_body;
use crate::settings::bytes_of;
use library_cases::{Line, Names, field, first_word, number, plain, verdict_word};
use lsp_runs::{CoreEvent, CoreRun, run_core};
use lsp_session::{Core, CoreFault, Done, FileWork, Job, OpenGate, Piece, Reply, Verdict};
use std::alloc::{AllocError, Global};
use std::sync::Wait;
use std::thread::Threads;

fn put_replies(names: &Names, line: &mut Line, replies: &[Reply]) {
    for reply in replies {
        line.put(" ");
        put_body(names, line, reply.as_bytes());
    }
}

fn put_verdict(line: &mut Line, verdict: Verdict) {
    line.put(" ");
    line.put(verdict_word(verdict));
}

fn put_fault(line: &mut Line, fault: CoreFault) {
    line.put(" ");
    line.put_fault(fault.code());
}

// A job, given its stamp, its path and its text.
fn job(alloc: Global, words: &str) -> Result<Job, AllocError> {
    let (stamp, file) = first_word(words);
    let (path, text) = first_word(file);
    let path = plain(alloc, path)?;
    Ok(Job::new(path, number(stamp), plain(alloc, text)?))
}

fn made(alloc: Global, job: Job) -> Result<Done, AllocError> {
    match Piece::make(&FileWork::new(alloc), job) {
        Ok(piece) => Ok(Done::Made(piece)),
        Err(_) => Err(AllocError),
    }
}

// A job that failed, given its stamp and its path.
fn failed(alloc: Global, words: &str) -> Result<Done, AllocError> {
    let (stamp, path) = first_word(words);
    Ok(Done::Failed {
        path: String::from_str(alloc, path)?,
        stamp: number(stamp),
    })
}

// What is brought, if the step says so.
fn sent(alloc: Global, step: &str) -> Result<Option<Done>, AllocError> {
    let (word, rest) = first_word(step);
    match word {
        "made" => Ok(Some(made(alloc, job(alloc, rest)?)?)),
        "failed" => Ok(Some(failed(alloc, rest)?)),
        _ => Ok(None),
    }
}

// ---- runs

fn event(alloc: Global, step: &str) -> Result<CoreEvent, AllocError> {
    if step == "work" {
        return Ok(CoreEvent::Work);
    }
    match sent(alloc, step)? {
        Some(sent) => Ok(CoreEvent::Offer(sent)),
        None => Ok(CoreEvent::Message(bytes_of(alloc, step)?)),
    }
}

fn events(alloc: Global, given: &str) -> Result<Vec<CoreEvent>, AllocError> {
    let mut events = Vec::new(alloc);
    for field in given.split(" :: ") {
        if let Some(step) = field.strip_prefix("> ") {
            events.push(event(alloc, step)?)?;
        }
    }
    Ok(events)
}

fn put_run(names: &Names, line: &mut Line, run: &CoreRun) {
    line.put_number(run.processed as u64);
    line.put(" processed");
    for verdict in &run.verdicts {
        put_verdict(line, *verdict);
    }
    line.put(":");
    put_replies(names, line, run.replies.as_slice());
}

/// A run of a core, each event with an advance behind it: how many messages were processed, the verdicts, and the replies.
pub fn answer_run(names: &Names, line: &mut Line, given: &str) -> Result<(), AllocError> {
    let events = events(names.alloc(), given)?;
    let config = config_of(names.alloc(), given, 1)?;
    match run_core(names.alloc(), config, events) {
        Ok(run) => put_run(names, line, &run),
        Err(fault) => put_fault(line, fault),
    }
    Ok(())
}

// ---- calls on a core

fn put_advance(names: &Names, line: &mut Line, advanced: Result<Vec<Reply>, CoreFault>) {
    match advanced {
        Ok(replies) => put_replies(names, line, replies.as_slice()),
        Err(fault) => put_fault(line, fault),
    }
}

fn next_job(line: &mut Line, core: &mut Core) {
    match core.next_job() {
        Ok(Some(job)) => {
            line.put(" ");
            line.put(job.path());
            line.put("@");
            line.put_number(job.stamp());
        }
        Ok(None) => line.put(" none"),
        Err(fault) => put_fault(line, fault),
    }
}

fn offer(line: &mut Line, core: &mut Core, sent: Done) {
    match core.offer(sent) {
        Ok(verdict) => put_verdict(line, verdict),
        Err(fault) => put_fault(line, fault),
    }
}

fn message(alloc: Global, line: &mut Line, core: &mut Core, body: &str) -> Result<(), AllocError> {
    let body = bytes_of(alloc, body)?;
    if let Err(fault) = core.message(body.as_slice()) {
        put_fault(line, fault);
    }
    Ok(())
}

// Brings work, or a message.
fn bring(alloc: Global, line: &mut Line, core: &mut Core, step: &str) -> Result<(), AllocError> {
    match sent(alloc, step)? {
        Some(sent) => Ok(offer(line, core, sent)),
        None => message(alloc, line, core, step),
    }
}

fn step<R: Threads + Wait>(
    rt: &R,
    names: &Names,
    line: &mut Line,
    core: &mut Core,
    step: &str,
) -> Result<(), AllocError> {
    match step {
        "advance" => Ok(put_advance(names, line, core.advance())),
        "advance in shares" => {
            let advanced = core.advance_in_shares(rt, 2, &OpenGate);
            Ok(put_advance(names, line, advanced))
        }
        "job" => Ok(next_job(line, core)),
        _ => bring(names.alloc(), line, core, step),
    }
}

fn put_steps<R: Threads + Wait>(
    rt: &R,
    names: &Names,
    line: &mut Line,
    mut core: Core,
    given: &str,
    behind: usize,
) -> Result<(), AllocError> {
    line.put_bool(core.waits());
    for field in given.split(" :: ").skip(behind) {
        if let Some(what) = field.strip_prefix("> ") {
            step(rt, names, line, &mut core, what)?;
        }
        line.put(" ");
        line.put_bool(core.waits());
    }
    Ok(())
}

// The core of the files of the fields behind so many; if that is two, its stamps begin behind that of the first one.
fn begun(alloc: Global, given: &str, behind: usize) -> Result<Result<Core, CoreFault>, AllocError> {
    let config = config_of(alloc, given, behind)?;
    let stamp = if behind == 2 {
        number(field(given, 1))
    } else {
        0
    };
    Ok(Core::counting_from(alloc, config, stamp))
}

/// Calls on a core, one after the other: what each answers, and whether a message waits at first and after each. The files and the
/// calls are the fields behind so many.
pub fn answer_core<R: Threads + Wait>(
    rt: &R,
    names: &Names,
    line: &mut Line,
    given: &str,
    behind: usize,
) -> Result<(), AllocError> {
    match begun(names.alloc(), given, behind)? {
        Ok(core) => put_steps(rt, names, line, core, given, behind),
        Err(fault) => Ok(put_fault(line, fault)),
    }
}
