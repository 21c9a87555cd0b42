// The work on the files of a configuration, and their analysis, by workers.
ghost use Rattle.std.specs.Prelude.{◌≡◌, ◌++◌, IfOk, IfErr, OnOk};
ghost use Rattle.piece_collector.specs.Board.{IsFull};
ghost use Rattle.work_config.specs.Configuration.{files_of};
ghost use Rattle.work_config.specs.Fault.{IsOfWorkers};
ghost use Rattle.work_files.specs.Files as texts;
ghost use Rattle.work_files.specs.View.{file_view};
ghost use Rattle.work_files.specs.Files.{text_of};
ghost use Rattle.work_check.specs.Listing.{root_of_text, file_roots, sources_in};
ghost use Rattle.work_index.specs.Workspace.{sources_of};

use std::alloc::{AllocError, Global};
use std::marker::Send;
use std::sync::{Arc, Wait};
use std::thread::Threads;
use work_config::{Config, CoreFault, ServeFault};
use work_dispatch::{bring_result, hand_out_jobs};
use work_files::{FileEntry, Files};
use work_index::{FileWork, Gate};
use work_pool::{Pool, PoolFault};
use work_space::{DiagnosedFiles, Workspace};

// The workspace of the files of a configuration, on which no work is done yet.
fn start_workspace(alloc: Global, config: Config) -> Result<Workspace, ServeFault>
    ensures files { IfOk result (λ w. w.files ≡ files_of config) }
    ensures others { IfOk result (λ w. w.reads_others ≡ config.reads_others) }
    ensures fault { IfErr result IsOfWorkers }
{
    let reads_others = config.reads_others();
    let Ok(files) = config.into_files() else {
        return Err(ServeFault::Memory);
    };
    match Workspace::from_disk(alloc, files, 0, reads_others) {
        Ok(workspace) => Ok(workspace),
        // There are fewer files than stamps, so only memory can be refused.
        Err(_) => Err(ServeFault::Memory),
    }
}

// Hands out jobs, and brings what became of one.
fn work_on<R: Wait>(rt: &R, workspace: &mut Workspace, pool: &mut Pool) -> Result<(), PoolFault>
    ensures files { workspace.new.files ≡ workspace.old.files }
    ensures others { workspace.new.reads_others ≡ workspace.old.reads_others }
{
    hand_out_jobs(rt, workspace, pool)?;
    bring_result(rt, workspace, pool)
}

// Lets the workers work until the work on each text is there.
fn await_work<R: Wait>(rt: &R, workspace: &mut Workspace, pool: &mut Pool) -> Result<(), PoolFault>
    ensures files { workspace.new.files ≡ workspace.old.files }
    ensures others { workspace.new.reads_others ≡ workspace.old.reads_others }
    ensures full { OnOk result (IsFull workspace.new.board) }
{
    for _result in rt.forever() {
        if workspace.is_complete() {
            return Ok(());
        }
        work_on(rt, workspace, pool)?;
    }
    unreachable!()
}

// Starts workers, has them work on each text, and ends them.
fn work_on_all<R: Threads + Wait + Clone + Send + Drop + 'static, G: Gate + 'static>(
    rt: &R,
    alloc: Global,
    gate: &Arc<G>,
    workspace: &mut Workspace,
    workers: usize,
) -> Result<(), PoolFault>
    ensures files { workspace.new.files ≡ workspace.old.files }
    ensures others { workspace.new.reads_others ≡ workspace.old.reads_others }
    ensures full { OnOk result (IsFull workspace.new.board) }
{
    let mut pool = Pool::start(rt, FileWork::linking_once(alloc), workers, gate)?;
    let worked = await_work(rt, workspace, &mut pool);
    pool.close(rt);
    worked
}

// The files of a workspace with what is wrong in them, and the number of the root of each.
#[derive(Drop)]
pub struct DiagnosedRoots {
    pub files: DiagnosedFiles,
    pub roots: Vec<Option<usize>>,
}

// Adds the number of the root of a file, if it has a text.
fn add_root(roots: &mut Vec<Option<usize>>, file: &FileEntry) -> Result<(), AllocError>
    ensures { OnOk result (roots.new.items ≡ roots.old.items ++ root_of_text file.now.root (text_of (file_view file.now))) }
{
    match file.text() {
        Some(_) => roots.push(file.root)?,
        None => {}
    }
    Ok(())
}

// The number of the root under which each file that has a text was found.
fn roots_of(alloc: Global, files: &Files) -> Result<Vec<Option<usize>>, AllocError>
    ensures { IfOk result (λ roots. roots.items ≡ file_roots files.now) }
{
    let mut roots = Vec::with_capacity(alloc, files.by_path().len())?;
    for (path, file) in files.by_path().iter() {
        add_root(&mut roots, file)?;
    }
    Ok(roots)
}

// Has threads find what is wrong in the files of a workspace on which all work is done.
fn diagnose<R: Threads + Wait, G: Gate>(
    rt: &R,
    gate: &G,
    files: Workspace,
    workers: usize,
) -> Result<DiagnosedFiles, ServeFault>
    requires { IsFull files.board }
    ensures files { IfOk result (λ found. found ≡ sources_of files.reads_others (texts.workspace files.files)) }
    ensures fault { IfErr result IsOfWorkers }
{
    match files.into_diagnosed(rt, workers, gate) {
        Ok(found) => Ok(found),
        Err(fault) => Err(ServeFault::from(CoreFault::from(fault))),
    }
}

// Has threads find what is wrong in the files of a workspace on which all work is done, and tells their roots.
fn diagnose_with_roots<R: Threads + Wait, G: Gate>(
    rt: &R,
    alloc: Global,
    gate: &G,
    files: Workspace,
    workers: usize,
) -> Result<DiagnosedRoots, ServeFault>
    requires { IsFull files.board }
    ensures files { IfOk result (λ found. found.files ≡ sources_of files.reads_others (texts.workspace files.files)) }
    ensures roots { IfOk result (λ found. found.roots.items ≡ file_roots files.files) }
    ensures fault { IfErr result IsOfWorkers }
{
    let Ok(roots) = roots_of(alloc, files.files()) else {
        return Err(ServeFault::Memory);
    };
    match diagnose(rt, gate, files, workers) {
        Ok(files) => Ok(DiagnosedRoots { files, roots }),
        Err(fault) => Err(fault),
    }
}

/// The files of a configuration with what is wrong in them, and their roots. So many workers do the work on the texts, and have ended by then;
/// so many threads link the files. Each enters the gate before it works on a text, and before it links a file.
///
/// `Memory` if memory was refused, or a job couldn't be sent, and `ThreadRefused` if a thread was, or if no worker is left.
pub fn diagnose_files<R: Threads + Wait + Clone + Send + Drop + 'static, G: Gate + 'static>(
    rt: &R,
    alloc: Global,
    gate: &Arc<G>,
    config: Config,
    workers: usize,
) -> Result<DiagnosedRoots, ServeFault>
    ensures files { IfOk result (λ found. found.files ≡ sources_in config) }
    ensures roots { IfOk result (λ found. found.roots.items ≡ file_roots (files_of config)) }
    ensures fault { IfErr result IsOfWorkers }
{
    let mut files = start_workspace(alloc, config)?;
    work_on_all(rt, alloc, gate, &mut files, workers)?;
    diagnose_with_roots(rt, alloc, &**gate, files, workers)
}
