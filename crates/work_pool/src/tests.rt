// What pools of several sizes give for the same jobs. The order differs from run to run, so what comes is compared in order
// of path.
use crate::{Gate, OpenGate, Pool};
use piece_collector::Job;
use std::alloc::{AllocError, Global};
use std::marker::Send;
use std::sync::atomic::{AtomicU64, Ordering};
use std::sync::{Arc, Wait};
use std::test::Fail;
use std::thread::Threads;
use work_index::{Done, FileWork, facts_in};

// A gate that counts who enters.
#[derive(Drop)]
struct Counter {
    entered: AtomicU64,
}

impl Gate for Counter {
    fn enter(&self, _path: &str, _stamp: u64) {
        self.entered.fetch_add(1, Ordering::SeqCst);
    }
}

// A file that declares one message. Its stamp is its number.
fn job(alloc: Global, number: u64) -> Result<Job, AllocError> {
    let path = format!(in alloc; "{number:03}.proto")?;
    let text = format!(in alloc; "syntax = \"proto3\"; message M{number} {{}}")?;
    Ok(Job::new(path, number, text))
}

// What is to come of it: path, stamp and the names of what it declares.
fn wanted(alloc: Global, number: u64) -> Result<String, AllocError> {
    format!(in alloc; "{number:03}.proto {number} M{number}")
}

fn shown(alloc: Global, done: &Done) -> Result<String, AllocError> {
    match done {
        Done::Made(piece) => {
            let (path, stamp) = (piece.path(), piece.stamp());
            let mut line = format!(in alloc; "{path} {stamp}")?;
            for decl in facts_in(piece).decls.as_slice() {
                line.push(' ')?;
                line.push_str(decl.full_name.to_text(alloc)?.as_str())?;
            }
            Ok(line)
        }
        Done::Failed { path, stamp } => format!(in alloc; "{path} {stamp} failed"),
    }
}

// Sends the jobs of these numbers. False where one comes back, or there is no room.
fn send_all<R: Wait>(
    rt: &R,
    alloc: Global,
    pool: &mut Pool,
    jobs: u64,
) -> Result<bool, AllocError> {
    for number in 0..jobs {
        if !pool.has_room() || pool.send(rt, job(alloc, number)?).is_err() {
            return Ok(false);
        }
    }
    Ok(true)
}

// All that comes, in order.
fn receive_all<R: Wait>(rt: &R, alloc: Global, pool: &mut Pool) -> Result<Vec<String>, AllocError> {
    let mut lines = Vec::new(alloc);
    for _ in rt.forever() {
        let Some(done) = pool.receive(rt) else {
            break;
        };
        lines.push(shown(alloc, &done)?)?;
    }
    lines.sort()?;
    Ok(lines)
}

// What a pool gives for some jobs.
fn lines_of<R: Wait>(
    rt: &R,
    alloc: Global,
    pool: &mut Pool,
    jobs: u64,
) -> Result<Vec<String>, AllocError> {
    send_all(rt, alloc, pool, jobs)?;
    receive_all(rt, alloc, pool)
}

// What a pool of so many workers gives for some jobs, and how often the gate was entered.
fn worked_on<R: Threads + Wait + Clone + Send + Drop + 'static>(
    rt: &R,
    alloc: Global,
    workers: usize,
    jobs: u64,
) -> Result<(Vec<String>, u64), Fail> {
    let gate = Arc::new(
        alloc,
        Counter {
            entered: AtomicU64::new(0),
        },
    )?;
    let mut pool = Pool::start(rt, FileWork::new(alloc), workers, &gate)?;
    let lines = lines_of(rt, alloc, &mut pool, jobs);
    pool.close(rt);
    Ok((lines?, gate.entered.load(Ordering::SeqCst)))
}

fn all_wanted(alloc: Global, jobs: u64) -> Result<Vec<String>, AllocError> {
    let mut lines = Vec::new(alloc);
    for number in 0..jobs {
        lines.push(wanted(alloc, number)?)?;
    }
    Ok(lines)
}

#[test]
fn pools_of_all_sizes_give_the_same(rt: HostRuntime) -> Result<(), Fail> {
    let alloc = rt.alloc();
    for workers in [0, 1, 3, 4, 64, 65] {
        for jobs in [0, 1, 100, 256] {
            let (lines, entered) = worked_on(&rt, alloc, workers, jobs)?;
            assert_eq!(rt; lines, all_wanted(alloc, jobs)?, "{workers} workers");
            assert_eq!(rt; entered, jobs);
        }
    }
    Ok(())
}

#[test]
fn has_no_room_while_256_jobs_are_out(rt: HostRuntime) -> Result<(), Fail> {
    let alloc = rt.alloc();
    let mut pool = Pool::start(&rt, FileWork::new(alloc), 4, &Arc::new(alloc, OpenGate)?)?;
    let sent = send_all(&rt, alloc, &mut pool, 256);
    let full = !pool.has_room();
    let received = pool.receive(&rt).is_some();
    let room = pool.has_room();
    pool.close(&rt);
    assert!(rt; sent? && full && received && room);
    Ok(())
}
