// Jobs go out to the workers of a pool, and what became of them comes back.
ghost use Rattle.std.specs.Prelude.{◌≡◌, ◌+◌, ◌<◌, [], ◌∷◌, true, false, None, Err, IfOk, IfErr, OnOk, OnErr};
ghost use Rattle.piece_collector.specs.Board.{IsFirstWanted, WhateverCame, Records};
ghost use Rattle.piece_collector.specs.Events.{NextJob};
ghost use Rattle.piece_collector.specs.Views.{TextAt};
ghost use Rattle.work_dispatch.specs.Dispatch.{event_of, IsCountedFailure, Sends, HandsOut, BringsResult, BringsFailure};

use piece_collector::Verdict;
use std::sync::Wait;
use work_index::Done;
use work_pool::{Pool, PoolFault};
use work_space::Workspace;

// Hands out the next job, and says whether there was one.
fn hand_out_next<R: Wait>(
    rt: &R,
    workspace: &mut Workspace,
    pool: &mut Pool,
) -> Result<bool, PoolFault>
    requires { pool.old.out < 256 }
    ensures files { workspace.new.files ≡ workspace.old.files }
    ensures others { workspace.new.reads_others ≡ workspace.old.reads_others }
    ensures gives { OnOk result (Records workspace.old.board workspace.new.board (NextJob ∷ [])) }
    ensures none { IfOk result (λ more. more ≡ false → WhateverCame workspace.old.board (λ opening events. IsFirstWanted opening events None)) }
    ensures rest { IfOk result (λ more. more ≡ false → pool.new.sent ≡ pool.old.sent) }
    ensures sends { IfOk result (λ more. more ≡ true → (job : TextAt) × Sends workspace.old.board pool.old.sent pool.new.sent (job ∷ [])) }
    ensures out { IfOk result (λ more. more ≡ true → pool.new.out ≡ pool.old.out + 1) }
    ensures memory { IfErr result (λ fault. fault ≡ PoolFault.Memory) }
{
    let Some(job) = workspace.next_job()? else {
        return Ok(false);
    };
    match pool.send(rt, job) {
        Ok(()) => Ok(true),
        Err(_) => Err(PoolFault::Memory),
    }
}

/// Hands out jobs, in the order of the paths, until no text is wanted or the pool has no room. `Memory` if memory is refused or a
/// job can't be sent.
pub fn hand_out_jobs<R: Wait>(
    rt: &R,
    workspace: &mut Workspace,
    pool: &mut Pool,
) -> Result<(), PoolFault>
    ensures files { workspace.new.files ≡ workspace.old.files }
    ensures others { workspace.new.reads_others ≡ workspace.old.reads_others }
    ensures hands { OnOk result (HandsOut workspace.old.board workspace.new.board pool.old.sent pool.new.sent) }
    ensures memory { IfErr result (λ fault. fault ≡ PoolFault.Memory) }
{
    'jobs: while pool.has_room() {
        if !hand_out_next(rt, workspace, pool)? {
            return Ok(());
        }
    }
    Ok(())
}

// Brings what became of a job. `Memory` if the job failed because memory ran out, unless its text no longer counts.
fn bring(workspace: &mut Workspace, done: Done) -> Result<(), PoolFault>
    ensures files { workspace.new.files ≡ workspace.old.files }
    ensures others { workspace.new.reads_others ≡ workspace.old.reads_others }
    ensures brings { Records workspace.old.board workspace.new.board (event_of done ∷ []) }

    // An error is a failure that counts, and none of these is passed over.
    ensures failed { OnOk result (WhateverCame workspace.old.board (λ opening events. ¬ (IsCountedFailure opening events done))) }
    ensures counted { OnErr result (WhateverCame workspace.old.board (λ opening events. IsCountedFailure opening events done)) }
    ensures memory { IfErr result (λ fault. fault ≡ PoolFault.Memory) }
{
    match done {
        Done::Made(piece) => {
            workspace.offer(piece);
            Ok(())
        }
        Done::Failed { path, stamp } => match workspace.fail(path.as_str(), stamp) {
            Verdict::Taken => Err(PoolFault::Memory),
            _ => Ok(()),
        },
    }
}

/// Waits for what becomes of a job, and brings it to the workspace. `Memory` if the job failed because memory ran out, unless its text
/// no longer counts; `ThreadRefused` if nothing can come, since no job is out or no worker is left.
pub fn bring_result<R: Wait>(
    rt: &R,
    workspace: &mut Workspace,
    pool: &mut Pool,
) -> Result<(), PoolFault>
    ensures files { workspace.new.files ≡ workspace.old.files }
    ensures others { workspace.new.reads_others ≡ workspace.old.reads_others }
    ensures brings { OnOk result (BringsResult workspace.old.board workspace.new.board pool.old.sent pool.new.sent) }
    ensures received { OnOk result (pool.old.out ≡ pool.new.out + 1) }

    // Memory ran out only for a failure that counts, which is brought. If nothing can come, nothing is done.
    ensures failed { result ≡ Err PoolFault.Memory → BringsFailure workspace.old.board workspace.new.board pool.old.sent pool.new.sent × (pool.old.out ≡ pool.new.out + 1) }
    ensures refused { result ≡ Err PoolFault.ThreadRefused → (pool.new ≡ pool.old) × (workspace.new.board ≡ workspace.old.board) }
{
    match pool.receive(rt) {
        Some(done) => bring(workspace, done),
        None => Err(PoolFault::ThreadRefused),
    }
}
