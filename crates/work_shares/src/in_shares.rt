// The analysis of a workspace by several threads.
ghost use Rattle.std.specs.Prelude.{◌≡◌, ◌<◌, Bool, length, Err, IfOk};
ghost use Rattle.std.specs.Thread.{IsSync};
ghost use Rattle.piece_collector.specs.Board.{Ascends};
ghost use Rattle.work_shares.specs.declared.fault.AnalyseFault.TheVariants.{ThreadRefused};
ghost use Rattle.work_shares.specs.Parts.{IsIndexed, AreIndexed};
ghost use Rattle.work_index.specs.Pieces.{AreNumbersIn, workspace_of};
ghost use Rattle.work_shares.specs.Shares.{pieces_in, AreConsecutive, ArePlacedIn, AreRead, IsLinkedBy, IsLinkedIn, AreLinkedBy};
ghost use Rattle.work_index.specs.Workspace.{all_facts, analysis};
ghost use Rattle.work_shares.specs.Diagnosis.{diagnosis};

use crate::diagnosis::Diagnosis;
use crate::fault::AnalyseFault;
use crate::indexed::{IndexedShare, IndexedShares, index_share, take_apart};
use crate::linked::{LinkedShare, gather, link_share};
use crate::part_table::merged_entries;
use crate::shares::{Share, cut};
use piece_collector::Lent;
use proto_resolve::Table;
use std::alloc::{AllocError, Global};
use std::snapshot::Snapshot;
use std::sync::Wait;
use std::thread;
use std::thread::{Promise, Threads};
use work_index::{Analysis, AnalysisParts, FileWork, Gate, Resolutions, files_of};

// The share comes back linked.
#[derive(Drop)]
struct ShareLinked {
    share: Snapshot<Share>,
    table: Snapshot<Table>,
}

impl Promise<Result<LinkedShare, AllocError>> for ShareLinked {
    ghost kept_by = { λ p answer. IfOk answer (IsLinkedBy p.table.value p.share.value) };
}

// The share comes back with the table of its files.
#[derive(Drop)]
struct ShareIndexed {
    share: Snapshot<Share>,
}

impl Promise<Result<IndexedShare, AllocError>> for ShareIndexed {
    ghost kept_by = { λ p answer. IfOk answer (IsIndexed p.share.value) };
}

// Makes the table of each share in a thread of its own, and waits for all of them. Of no shares no thread is refused.
fn index_all<R: Threads + Wait>(
    rt: &R,
    alloc: Global,
    shares: Vec<Share>,
) -> Result<Vec<Result<IndexedShare, AllocError>>, AnalyseFault>
    ensures answers { IfOk result (λ answers. AreIndexed shares.items answers.items) }
    ensures threads { result ≡ Err ThreadRefused → 0 < length shares.items }
{
    thread::scope(
        thread::scope_env(),
        rt,
        |scope| -> Result<Vec<Result<IndexedShare, AllocError>>, AnalyseFault>
            ensures answers { IfOk result (λ answers. AreIndexed shares.items answers.items) }
            ensures threads { result ≡ Err ThreadRefused → 0 < length shares.items }
        {
            let mut handles = Vec::new(alloc);
            for share in shares {
                let promise = ShareIndexed {
                    share: Snapshot::of(&share),
                };
                let Ok(handle) = scope.spawn_with(
                    promise,
                    move || -> Result<IndexedShare, AllocError>
                        ensures { IfOk result (IsIndexed share) }
                    { index_share(alloc, share) },
                ) else {
                    return Err(AnalyseFault::ThreadRefused);
                };
                handles.push(handle)?;
            }
            let answers = thread::join_promised(rt, handles)?;
            Ok(answers)
        },
    )
}

// The shares as they were, and the table of all their files, which threads make part by part. All are read alike.
fn table_in_shares<R: Threads + Wait>(
    rt: &R,
    alloc: Global,
    shares: Vec<Share>,
) -> Result<(Vec<Share>, Table), AnalyseFault>
    requires places { AreConsecutive 0 shares.items }
    requires ordered { Ascends (pieces_in shares.items) }
    requires read { (reads_others : Bool) × AreRead reads_others shares.items }
    ensures shares { IfOk result (λ r. r.0.items ≡ shares.items) }
    ensures table { (reads_others : Bool) → AreRead reads_others shares.items → IfOk result (λ r. r.1 ≡ all_facts (workspace_of reads_others (pieces_in shares.items))) }
    ensures threads { result ≡ Err ThreadRefused → 0 < length shares.items }
{
    let answers = index_all(rt, alloc, shares)?;
    let IndexedShares { shares, parts } = take_apart(alloc, answers)?;
    let entries = merged_entries(alloc, parts)?;
    let table = Table::of_entries(rt, alloc, entries)?;
    Ok((shares, table))
}

// Links each share in a thread of its own, and waits for all of them. Of no shares no thread is refused.
fn link_all<R: Threads + Wait, G: Gate>(
    rt: &R,
    alloc: Global,
    shares: Vec<Share>,
    table: &Table,
    gate: &G,
) -> Result<Vec<Result<LinkedShare, AllocError>>, AnalyseFault>
    requires { ArePlacedIn (length table.now) shares.items }
    ensures answers { IfOk result (λ answers. AreLinkedBy table.now shares.items answers.items) }
    ensures threads { result ≡ Err ThreadRefused → 0 < length shares.items }
{
    thread::scope(
        thread::scope_env(),
        rt,
        |scope| -> Result<Vec<Result<LinkedShare, AllocError>>, AnalyseFault>
            requires places { ArePlacedIn (length table.now) shares.items }
            requires gate { IsSync G.row }
            ensures answers { IfOk result (λ answers. AreLinkedBy table.entry.now shares.items answers.items) }
            ensures threads { result ≡ Err ThreadRefused → 0 < length shares.items }
        {
            let mut handles = Vec::new(alloc);
            for share in shares {
                let promise = ShareLinked {
                    share: Snapshot::of(&share),
                    table: Snapshot::of(table),
                };
                let Ok(handle) = scope.spawn_with(
                    promise,
                    move || -> Result<LinkedShare, AllocError>
                        requires { AreNumbersIn (length table.now) share.first (length share.pieces.items) }
                        ensures { IfOk result (IsLinkedBy table.entry.now share) }
                    { link_share(alloc, share, table, gate) },
                ) else {
                    return Err(AnalyseFault::ThreadRefused);
                };
                handles.push(handle)?;
            }
            let answers = thread::join_promised(rt, handles)?;
            Ok(answers)
        },
    )
}

// All files of some pieces, linked by threads, with the table of these files.
fn link_in_shares<R: Threads + Wait, G: Gate>(
    rt: &R,
    alloc: Global,
    all: Share,
    workers: usize,
    gate: &G,
) -> Result<(Table, LinkedShare), AnalyseFault>
    requires first { all.first ≡ 0 }
    requires ordered { Ascends all.pieces.items }
    ensures table { IfOk result (λ r. r.0 ≡ all_facts (workspace_of all.reads_others all.pieces.items)) }
    ensures linked { IfOk result (λ r. IsLinkedIn (workspace_of all.reads_others all.pieces.items) all r.1) }
    ensures threads { result ≡ Err ThreadRefused → 0 < length all.pieces.items }
{
    let count = workers.clamp(1, 64).min(all.pieces.len());
    let shares = cut(alloc, all, count)?;
    let (shares, table) = table_in_shares(rt, alloc, shares)?;
    let answers = link_all(rt, alloc, shares, &table, gate)?;
    let linked = gather(alloc, answers)?;
    Ok((table, linked))
}

/// How threads analyse a workspace.
#[derive(Clone, Copy)]
pub struct AnalysisSettings {
    /// How many threads share the work: 0 counts as 1, and over 64 as 64.
    pub workers: usize,
    /// Whether texts that aren't proto3 are read for what they declare.
    pub reads_others: bool,
}

/// The analysis of the workspace of lent pieces, which come back as they were. It is the one that [`analyse_here`](work_index::analyse_here)
/// makes of them. As many threads as there are `workers` gather the declarations of the files by name, and later as many link the
/// files: 0 counts as 1, and over 64 as 64, and there are never more than there are files. Each takes a run of consecutive files; the
/// runs differ in length by at most one, the longer ones first. A thread enters the gate with the path and the stamp of each of its files
/// before it links it. In between this thread, and with 64 files or more two others, however many workers there are, put all names in order and
/// make the graph of imports. The number of threads takes no part in what is made. It waits until each of them has ended.
///
/// `Memory` if memory was refused, here or in a thread, and `ThreadRefused` if a thread couldn't be started, which comes only if there is a piece.
/// The pieces are gone then.
pub fn analyse_in_shares<R: Threads + Wait, G: Gate>(
    rt: &R,
    alloc: Global,
    lent: Lent<FileWork>,
    settings: AnalysisSettings,
    gate: &G,
) -> Result<(Lent<FileWork>, Analysis), AnalyseFault>
    ensures pieces { IfOk result (λ r. r.0 ≡ lent) }
    ensures analysis { IfOk result (λ r. r.1 ≡ analysis (workspace_of settings.reads_others lent)) }
    ensures threads { result ≡ Err ThreadRefused → 0 < length lent }
{
    let pieces = lent.into_pieces();
    let all = Share {
        first: 0,
        pieces,
        keeps_links: true,
        reads_others: settings.reads_others,
    };
    let (table, linked) = link_in_shares(rt, alloc, all, settings.workers, gate)?;
    let LinkedShare {
        pieces,
        resolutions,
    } = linked;
    let files = files_of(alloc, pieces.as_slice(), settings.reads_others)?;
    let analysis = Analysis::of_parts(AnalysisParts {
        table,
        files,
        resolutions,
    });
    Ok((Lent::of(pieces), analysis))
}

/// What is wrong in the files of lent pieces, which are freed with the diagnosis. It is what [`analyse_in_shares`] finds, by as many
/// threads, and is refused as that is. What names mean isn't kept, so that less memory is taken.
pub fn diagnose<R: Threads + Wait, G: Gate>(
    rt: &R,
    alloc: Global,
    lent: Lent<FileWork>,
    settings: AnalysisSettings,
    gate: &G,
) -> Result<Diagnosis, AnalyseFault>
    ensures diagnosis { IfOk result (λ found. found ≡ diagnosis (workspace_of settings.reads_others lent)) }
    ensures threads { result ≡ Err ThreadRefused → 0 < length lent }
{
    let pieces = lent.into_pieces();
    let all = Share {
        first: 0,
        pieces,
        keeps_links: false,
        reads_others: settings.reads_others,
    };
    let (table, linked) = link_in_shares(rt, alloc, all, settings.workers, gate)?;
    let LinkedShare {
        pieces,
        resolutions,
    } = linked;
    let Resolutions { diagnostics, .. } = resolutions;
    Ok(Diagnosis {
        pieces,
        reads_others: settings.reads_others,
        diagnostics,
        table,
    })
}
