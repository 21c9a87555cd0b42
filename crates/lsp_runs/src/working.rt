// The work of a core, done on this thread.
ghost use Rattle.std.specs.Prelude.{◌≡◌, false, None, IfOk, IfErr, OnOk};
ghost use Rattle.piece_collector.specs.Board.{IsFirstWanted};
ghost use Rattle.lsp_core.specs.Core.{Offer, IsAfter, WhateverCame, board_events};
ghost use Rattle.lsp_core.specs.Run.{event_of, with_round};
ghost use Rattle.lsp_core.specs.Steps.{HasWorked};
ghost use Rattle.lsp_core.specs.View.{core_state, last_fault};

use collector_laws::{jobs_and_pieces, rounds_of_work};
use lsp_core::Core;
use piece_collector::{Job, Piece, next_jobs};
use std::alloc::Global;
use work_config::CoreFault;
use work_index::{Done, FileWork};

// Does a job.
fn do_job(alloc: Global, job: Job) -> Result<Done, CoreFault>
    ensures sent { IfOk result (λ sent. event_of sent ≡ Offer job.path job.stamp job.text) }
    ensures memory { IfErr result (λ fault. fault ≡ CoreFault.Memory) }
{
    match Piece::make(&FileWork::new(alloc), job) {
        Ok(piece) => Ok(Done::Made(piece)),
        Err(_) => Err(CoreFault::Memory),
    }
}

// Does the next job, and says whether there was one.
fn do_next(alloc: Global, core: &mut Core) -> Result<bool, CoreFault>
    ensures round { OnOk result (WhateverCame (core_state core.old) (λ opening config h. IsAfter opening config (core_state core.new) (with_round opening config h))) }
    ensures none { IfOk result (λ more. more ≡ false → WhateverCame (core_state core.old) (λ opening config h. IsFirstWanted opening (board_events config h) None)) }
    ensures open { last_fault core.old ≡ None → OnOk result (last_fault core.new ≡ None) }
    ensures memory { last_fault core.old ≡ None → IfErr result (λ fault. fault ≡ CoreFault.Memory) }
{
    next_jobs();
    let Some(job) = core.next_job()? else {
        return Ok(false);
    };
    let sent = do_job(alloc, job)?;
    core.offer(sent)?;
    Ok(true)
}

/// Does all the work that a core has to give. `Memory` where memory is refused.
pub fn do_all(alloc: Global, core: &mut Core) -> Result<(), CoreFault>
    ensures works { OnOk result (WhateverCame (core_state core.old) (λ opening config h. HasWorked opening config (core_state core.new) h)) }
    ensures open { last_fault core.old ≡ None → OnOk result (last_fault core.new ≡ None) }
    ensures memory { last_fault core.old ≡ None → IfErr result (λ fault. fault ≡ CoreFault.Memory) }
{
    next_jobs();
    jobs_and_pieces();
    rounds_of_work();
    for _round in 0..core.last_stamp() {
        if !do_next(alloc, core)? {
            return Ok(());
        }
    }
    Ok(())
}
