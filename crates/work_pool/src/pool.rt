// The workers, and the main thread's ends of their channels.
ghost use Rattle.std.specs.Prelude.{◌≡◌, ◌+◌, ◌<◌, ◌↔◌, [], ◌∷◌, ◌++◌, length, IsTrue, IfOk, IfErr, IfSome, OnOk, OnErr, OnSome, None};
ghost use Rattle.work_pool.specs.Outcome.{stamp_of};
ghost use Rattle.work_pool.specs.Pool.{pool_of, workers_for};
ghost use Rattle.work_pool.specs.SentJobs.{noted, without_job, HasRoom};

use crate::fault::PoolFault;
use crate::sent_jobs::{MOST_JOBS, SentJob, SentJobs};
use crate::worker::do_jobs;
use crossbeam_channel::{Receiver, Sender};
use piece_collector::Job;
use std::marker::{Model, Send};
use std::sync::{Arc, Wait};
use std::thread;
use std::thread::{JoinHandle, Threads};
use work_index::{Done, FileWork, Gate};

/// Workers in threads of their own. Contracts see how many there are, and the jobs that are out: sent, and their result
/// not received.
///
/// A pool can't be dropped: [`close`](Pool::close) ends it.
pub struct Pool {
    jobs: Sender<Job>,
    results: Receiver<Done>,
    workers: Vec<JoinHandle<()>>,
    sent: SentJobs,
}

impl Model for Pool {
    ghost use Rattle.std.specs.Prelude.{vec_len};
    ghost use Rattle.work_pool.specs.Pool.{PoolView, pool_of};

    ghost Value = { PoolView };

    ghost view = { λ p. pool_of (vec_len p.workers) p.sent };
}

impl Pool {
    /// Starts so many workers that do this work on texts; 0 counts as 1, and over 64 as 64. Each enters the gate before it works on a
    /// text. All memory comes from the allocator of the work. No job is out yet.
    ///
    /// `Memory` where memory was refused, and `ThreadRefused` where a thread was. The workers that were started before have
    /// ended by then.
    pub fn start<R: Threads + Wait + Clone + Send + Drop + 'static, G: Gate + 'static>(
        rt: &R,
        work: FileWork,
        workers: usize,
        gate: &Arc<G>,
    ) -> Result<Pool, PoolFault>
        ensures { IfOk result (λ pool. pool ≡ pool_of (workers_for workers) []) }
    {
        let alloc = work.alloc();
        // Each channel has a place for each job that may be out, so no send waits.
        let (jobs, their_jobs) = crossbeam_channel::bounded(alloc, MOST_JOBS)?;
        let (their_results, results) = crossbeam_channel::bounded(alloc, MOST_JOBS)?;
        let sent = SentJobs::new(alloc)?;
        let mut pool = Pool {
            jobs,
            results,
            workers: Vec::new(alloc),
            sent,
        };
        for _worker in 0..workers.clamp(1, 64) {
            if let Err(fault) = pool.add_worker(rt, work, &their_jobs, &their_results, gate) {
                pool.close(rt);
                return Err(fault);
            }
        }
        Ok(pool)
    }

    // Starts one more worker.
    fn add_worker<R: Threads + Wait + Clone + Send + Drop + 'static, G: Gate + 'static>(
        &mut self,
        rt: &R,
        work: FileWork,
        jobs: &Receiver<Job>,
        results: &Sender<Done>,
        gate: &Arc<G>,
    ) -> Result<(), PoolFault>
        ensures { OnOk result (self.new ≡ record self.old { workers = self.old.workers + 1 }) }
    {
        self.workers.reserve(1)?;
        let rt_there = rt.clone()?;
        let jobs = jobs.clone()?;
        let results = results.clone()?;
        let gate = Arc::try_clone(gate)?;
        let Ok(worker) = thread::spawn(rt, move || {
            do_jobs(&rt_there, work, jobs, results, &*gate)
        }) else {
            return Err(PoolFault::ThreadRefused);
        };
        self.workers.push_reserved(worker);
        Ok(())
    }

    /// Whether a job can be sent: fewer than 256 are out, and their texts have at most 33,554,432 bytes (32 MiB). So it can as long as
    /// none is out, however long its text is.
    pub fn has_room(&self) -> bool
        ensures room { IsTrue result ↔ HasRoom self.now.sent }
        ensures few { IsTrue result → self.now.out < 256 }
        ensures none_out { self.now.out ≡ 0 → IsTrue result }
    {
        self.sent.has_room()
    }

    /// Sends a job, which one of the workers takes. It is out from then on.
    ///
    /// Where it can't be sent, since no worker is left, or since all texts that are out would have more bytes than a `usize` can count, it
    /// comes back, and nothing changes.
    pub fn send<R: Wait>(&mut self, rt: &R, job: Job) -> Result<(), Job>
        requires { self.old.out < 256 }
        ensures ok { OnOk result (self.new ≡ pool_of self.old.workers (self.old.sent ++ noted job ∷ [])) }
        ensures out { OnOk result (self.new.out ≡ self.old.out + 1) }
        ensures bytes { OnOk result (self.new.bytes ≡ self.old.bytes + length job.text) }
        ensures back { IfErr result (λ back. back ≡ job) }
        ensures err { OnErr result (self.new ≡ self.old) }
    {
        let sent = SentJob {
            stamp: job.stamp(),
            bytes: job.text().len(),
        };
        if !self.sent.can_count(sent.bytes) {
            return Err(job);
        }
        if let Err(refused) = self.jobs.send(rt, job) {
            return Err(refused.into_inner());
        }
        self.sent.add(sent);
        Ok(())
    }

    /// Waits until a worker has done a job, and gives what became of it. That job is no longer out: of those with its stamp the one that was
    /// sent first.
    ///
    /// Gives none where none can come, since no job is out or no worker is left. Then nothing changes.
    pub fn receive<R: Wait>(&mut self, rt: &R) -> Option<Done>
        ensures some { IfSome result (λ done. self.new ≡ pool_of self.old.workers (without_job (stamp_of done) self.old.sent)) }
        ensures one_less { OnSome result (self.old.out ≡ self.new.out + 1) }
        ensures none { result ≡ None → self.new ≡ self.old }
    {
        if self.sent.is_empty() {
            return None;
        }
        let Ok(done) = self.results.recv(rt) else {
            return None;
        };
        self.sent.remove(stamp_of(&done));
        Some(done)
    }

    /// Ends the pool: closes both channels, and waits until each worker has ended. A worker that does a job ends after it, or
    /// after one more, since nobody receives its result. The other jobs that are out are dropped, and the results too.
    pub fn close<R: Threads>(self, rt: &R) {
        let Pool {
            jobs,
            results,
            workers,
            sent: _,
        } = self;
        drop(jobs);
        drop(results);
        for worker in workers {
            worker.join(rt);
        }
    }
}

// The stamp of the job that this became of.
fn stamp_of(done: &Done) -> u64
    ensures { result ≡ stamp_of done.now }
{
    match done {
        Done::Made(piece) => piece.stamp(),
        Done::Failed { stamp, .. } => *stamp,
    }
}
