// The jobs that are out: sent, and their result not received.
ghost use Rattle.std.specs.Prelude.{◌≡◌, ◌==◌, ◌+◌, ◌^◌, ◌<◌, ◌↔◌, [], ◌∷◌, ◌++◌, length, position, IsTrue, IfOk, IfSome};
ghost use Rattle.work_pool.specs.SentJobs.{bytes_of, without_job, HasRoom};

use std::alloc::{AllocError, Global};
use std::marker::Model;

/// At most this many jobs are out.
pub(crate) const MOST_JOBS: usize = 256;

// No further job is sent while their texts have more bytes than this.
const MOST_BYTES: usize = 33_554_432;

/// A job that is out: the stamp of its text, and how many bytes this has.
#[derive(Clone, Copy)]
pub(crate) struct SentJob {
    pub stamp: u64,
    pub bytes: usize,
}

/// The jobs that are out, in the order in which they were sent. Contracts see the list of them.
#[derive(Drop)]
pub(crate) struct SentJobs {
    jobs: Vec<SentJob>,
    bytes: usize,
}

impl Model for SentJobs {
    ghost use Rattle.std.specs.Prelude.{◌≡◌, ◌≤◌, List, vec_len, vec_capacity};
    ghost use Rattle.work_pool.specs.declared.sent_jobs.SentJob.{SentJob};
    ghost use Rattle.work_pool.specs.SentJobs.{bytes_of};

    ghost Value = { List SentJob };

    ghost view = { λ s. s.jobs.items };

    ghost invariant = { λ s. (vec_len s.jobs ≤ 256) × (256 ≤ vec_capacity s.jobs) × (s.bytes ≡ bytes_of s.jobs.items) };
}

impl SentJobs {
    /// None is out. There is memory for all that may be.
    pub fn new(alloc: Global) -> Result<SentJobs, AllocError>
        ensures { IfOk result (λ sent. sent ≡ []) }
    {
        Ok(SentJobs {
            jobs: Vec::with_capacity(alloc, MOST_JOBS)?,
            bytes: 0,
        })
    }

    /// Whether none is out.
    pub fn is_empty(&self) -> bool
        ensures { IsTrue result ↔ (self.now ≡ []) }
    {
        self.jobs.is_empty()
    }

    /// Whether another one may be sent.
    pub fn has_room(&self) -> bool
        ensures { IsTrue result ↔ HasRoom self.now }
    {
        self.jobs.len() < MOST_JOBS && self.bytes <= MOST_BYTES
    }

    /// Whether all bytes can be counted if so many more are out.
    pub fn can_count(&self, bytes: usize) -> bool
        ensures { IsTrue result ↔ (bytes_of self.now + bytes < 2 ^ 64) }
    {
        self.bytes.checked_add(bytes).is_some()
    }

    /// One more is out.
    pub fn add(&mut self, job: SentJob)
        requires few { length self.old < 256 }
        requires countable { bytes_of self.old + job.bytes < 2 ^ 64 }
        ensures { self.new ≡ self.old ++ job ∷ [] }
    {
        self.jobs.push_reserved(job);
        self.bytes += job.bytes;
    }

    /// The first job with this stamp is no longer out, or if none has it, the first of all.
    pub fn remove(&mut self, stamp: u64)
        requires { 0 < length self.old }
        ensures jobs { self.new ≡ without_job stamp self.old }
        ensures len { length self.new + 1 ≡ length self.old }
    {
        let place = first_with(self.jobs.as_slice(), stamp).unwrap_or(0);
        let job = self.jobs.remove(place);
        self.bytes -= job.bytes;
    }
}

// The place of the first job with this stamp.
fn first_with(jobs: &[SentJob], stamp: u64) -> Option<usize>
    ensures place { result ≡ position (λ job. job.stamp == stamp) jobs.now }
    ensures in_range { IfSome result (λ place. place < length jobs.now) }
{
    jobs.iter().position(|job| job.stamp == stamp)
}
