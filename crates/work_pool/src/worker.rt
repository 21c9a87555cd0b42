// What a worker does.
ghost use Rattle.work_pool.specs.Outcome.{IsOutcomeOf};

use crossbeam_channel::{Receiver, Sender};
use piece_collector::{Job, Piece};
use std::alloc::Global;
use std::sync::Wait;
use work_index::{Done, FileWork, Gate};

// Does a job: enters the gate with its path and stamp, and works on its text. Gives the piece, or where memory is refused
// the path and the stamp of the job.
fn do_job<G: Gate>(work: FileWork, gate: &G, job: Job) -> Done
    ensures { IsOutcomeOf job result }
{
    gate.enter(job.path(), job.stamp());
    match Piece::make(&work, job) {
        Ok(piece) => Done::Made(piece),
        Err(job) => {
            let stamp = job.stamp();
            Done::Failed {
                path: job.into_path(),
                stamp,
            }
        }
    }
}

/// Does one job after the other: receives it from `jobs`, enters the gate with its path and stamp, works on its text with
/// memory from this allocator, and sends what became of it into `done`: the piece, or where memory was refused the path and
/// the stamp of the job. It waits for jobs, and for room to send. It ends once no job is left and nobody can send another,
/// and where nobody is left to receive what it sends.
pub fn worker_loop<R: Wait, G: Gate>(
    rt: &R,
    alloc: Global,
    jobs: Receiver<Job>,
    done: Sender<Done>,
    gate: &G,
) {
    do_jobs(rt, FileWork::new(alloc), jobs, done, gate);
}

// Does one job after the other, as `worker_loop` does, with this work on each text.
pub(crate) fn do_jobs<R: Wait, G: Gate>(
    rt: &R,
    work: FileWork,
    jobs: Receiver<Job>,
    done: Sender<Done>,
    gate: &G,
) {
    for _ in rt.forever() {
        let Ok(job) = jobs.recv(rt) else {
            break;
        };
        if done.send(rt, do_job(work, gate, job)).is_err() {
            break;
        }
    }
}
