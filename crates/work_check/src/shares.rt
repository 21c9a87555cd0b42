// The lines of the files of a workspace, made by threads.
ghost use Rattle.std.specs.Prelude.{◌≡◌, ◌<◌, ◌≤◌, ◌++◌, length, map, flat_map, Ok, IfOk, OnOk};
ghost use Rattle.work_check.specs.Steps.{AreAnswered, AreLinesBetween, all_lines, lines_at};

use crate::listed::Listed;
use std::alloc::{AllocError, Global};
use std::snapshot::Snapshot;
use std::sync::Wait;
use std::thread;
use std::thread::{Promise, Threads};
use work_shares::AnalyseFault;

// The lines of a share: of consecutive files.
#[derive(Drop)]
pub struct ShareLines {
    pub lines: Vec<u8>,
}

// The lines come of the files from the number `first` on, up to the one before `end`.
#[derive(Drop)]
struct ShareListed {
    listed: Snapshot<Listed>,
    first: usize,
    end: usize,
}

impl Promise<Result<ShareLines, AllocError>> for ShareListed {
    ghost kept_by = { λ p answer. IfOk answer (λ share. AreLinesBetween p.first p.end p.listed.value share.lines.items) };
}

// Adds the lines of a file.
fn push_file(
    alloc: Global,
    out: &mut Vec<u8>,
    listed: &Listed,
    number: usize,
) -> Result<(), AllocError>
    requires { number < length listed.now.files }
    ensures { OnOk result (out.new.items ≡ out.old.items ++ lines_at listed.now number) }
{
    let mut file = listed.file(alloc, number);
    file.push_lines(out, listed.diagnostics(number))
}

// The lines of a share: the work of one thread.
fn share_lines(
    alloc: Global,
    listed: &Listed,
    first: usize,
    end: usize,
) -> Result<ShareLines, AllocError>
    requires order { first ≤ end }
    requires within { end ≤ length listed.now.files }
    ensures { IfOk result (λ share. AreLinesBetween first end listed.now share.lines.items) }
{
    let mut lines = Vec::new(alloc);
    for number in first..end {
        push_file(alloc, &mut lines, listed, number)?;
    }
    Ok(ShareLines { lines })
}

// The number behind the last file of a share that begins with this file: the share has at least so many diagnostics, or else all that are left.
fn end_of_share(listed: &Listed, first: usize, least: usize) -> usize
    requires { first < length listed.now.files }
    ensures after { first < result }
    ensures within { result ≤ length listed.now.files }
{
    let mut found = 0usize;
    for number in first..listed.files.file_count() {
        found = found.saturating_add(listed.diagnostics(number).len());
        if found >= least {
            return number + 1;
        }
    }
    listed.files.file_count()
}

// Has a thread make the lines of each share, and waits for all of them.
fn list_shares<R: Threads + Wait>(
    rt: &R,
    alloc: Global,
    listed: &Listed,
    least: usize,
) -> Result<Vec<Result<ShareLines, AllocError>>, AnalyseFault>
    ensures { IfOk result (λ answers. AreAnswered listed.now answers.items) }
{
    thread::scope(
        thread::scope_env(),
        rt,
        |scope| -> Result<Vec<Result<ShareLines, AllocError>>, AnalyseFault>
            ensures { IfOk result (λ answers. AreAnswered listed.entry.now answers.items) }
        {
            let mut handles = Vec::new(alloc);
            let mut first = 0usize;
            'shares: while first < listed.files.file_count() {
                let end = end_of_share(listed, first, least);
                let promise = ShareListed {
                    listed: Snapshot::of(listed),
                    first,
                    end,
                };
                let Ok(handle) = scope.spawn_with(
                    promise,
                    move || -> Result<ShareLines, AllocError>
                        requires order { first ≤ end }
                        requires within { end ≤ length listed.now.files }
                        ensures { IfOk result (λ share. AreLinesBetween first end listed.entry.now share.lines.items) }
                    { share_lines(alloc, listed, first, end) },
                ) else {
                    return Err(AnalyseFault::ThreadRefused);
                };
                handles.push(handle)?;
                first = end;
            }
            let answers = thread::join_promised(rt, handles)?;
            Ok(answers)
        },
    )
}

// The lines of all shares. An `Err` where one of the answers is one.
fn none_refused(
    alloc: Global,
    answers: Vec<Result<ShareLines, AllocError>>,
) -> Result<Vec<ShareLines>, AllocError>
    ensures { IfOk result (λ shares. answers.items ≡ map Ok shares.items) }
{
    let mut shares = Vec::new(alloc);
    for answer in answers {
        shares.push(answer?)?;
    }
    Ok(shares)
}

// The lines of all files in order, by shares, each of which a thread made: all but the last have at least so many diagnostics.
//
// `Memory` if memory was refused, here or in a thread, and `ThreadRefused` if a thread was.
pub fn lines_in_shares<R: Threads + Wait>(
    rt: &R,
    alloc: Global,
    listed: &Listed,
    least: usize,
) -> Result<Vec<ShareLines>, AnalyseFault>
    ensures { IfOk result (λ shares. flat_map (λ share. share.lines.items) shares.items ≡ all_lines listed.now) }
{
    let answers = list_shares(rt, alloc, listed, least)?;
    Ok(none_refused(alloc, answers)?)
}
