// Sessions and checks whose workers a gate holds back until something else has happened.
use crate::configs::config_of;
use crate::settings::{bytes_of, put_bytes};
use library_cases::{Line, field};
use lsp_frame::{ByteSink, ByteSource, Fail, FrameReader, MemSink, MemSource};
use lsp_session::{Config, Ended, Gate, ServeFault, check, serve};
use std::alloc::{AllocError, Global};
use std::marker::Send;
use std::sync::atomic::{AtomicU64, Ordering};
use std::sync::{Arc, Wait};
use std::thread;
use std::thread::Threads;

// How often a gate looks before it lets a worker pass that waits in vain.
const TURNS: u64 = 1_000_000;

// How many bytes the sinks take.
const ROOM: usize = 4000;

// Whether a counter comes to be so high within the turns.
fn comes_to(counter: &AtomicU64, wanted: u64) -> bool {
    for _turn in 0..TURNS {
        if counter.load(Ordering::SeqCst) >= wanted {
            return true;
        }
        thread::yield_now();
    }
    false
}

// A gate where the workers of two files wait for each other.
#[derive(Drop)]
struct Meeting {
    first: AtomicU64,
    second: AtomicU64,
    misses: AtomicU64,
}

impl Meeting {
    // A gate that nobody has come to.
    fn new() -> Meeting {
        Meeting {
            first: AtomicU64::new(0),
            second: AtomicU64::new(0),
            misses: AtomicU64::new(0),
        }
    }
}

impl Gate for Meeting {
    fn enter(&self, path: &str, _stamp: u64) {
        let (own, other) = if path == "a.proto" {
            (&self.first, &self.second)
        } else {
            (&self.second, &self.first)
        };
        let before = own.fetch_add(1, Ordering::SeqCst);
        if !comes_to(other, before.saturating_add(1)) {
            self.misses.fetch_add(1, Ordering::SeqCst);
        }
    }
}

// A gate where the first job waits until a device has counted so far.
#[derive(Drop)]
struct Holding {
    entered: AtomicU64,
    counter: Arc<AtomicU64>,
    wanted: u64,
    misses: AtomicU64,
}

impl Holding {
    // A gate that nobody has come to.
    fn until(counter: Arc<AtomicU64>, wanted: u64) -> Holding {
        Holding {
            entered: AtomicU64::new(0),
            counter,
            wanted,
            misses: AtomicU64::new(0),
        }
    }
}

impl Gate for Holding {
    fn enter(&self, _path: &str, _stamp: u64) {
        if self.entered.fetch_add(1, Ordering::SeqCst) == 0
            && !comes_to(&self.counter, self.wanted)
        {
            self.misses.fetch_add(1, Ordering::SeqCst);
        }
    }
}

// A source that counts how often it is asked for the bytes behind the first ones.
#[derive(Drop)]
struct Watched {
    source: MemSource,
    first: usize,
    given: usize,
    asked: Arc<AtomicU64>,
}

impl ByteSource for Watched {
    ghost left = { λ watched. ⟦<MemSource as ByteSource>⟧.left watched.source };

    ghost counts = { λ watched. ⟦<MemSource as ByteSource>⟧.counts watched.source };

    fn read(&mut self, buffer: &mut [u8]) -> Result<usize, Fail> {
        if self.given >= self.first {
            self.asked.fetch_add(1, Ordering::SeqCst);
        }
        let room = buffer
            .len()
            .min(self.first.saturating_sub(self.given).max(1));
        let answer = self.source.read(&mut buffer[..room]);
        if let Ok(count) = answer {
            self.given = self.given.saturating_add(count);
        }
        answer
    }
}

// A sink that counts the bytes that it took.
#[derive(Drop)]
struct Counting {
    sink: MemSink,
    taken: Arc<AtomicU64>,
}

impl ByteSink for Counting {
    ghost written = { λ counting. ⟦<MemSink as ByteSink>⟧.written counting.sink };

    ghost counts = { λ counting. ⟦<MemSink as ByteSink>⟧.counts counting.sink };

    fn write(&mut self, buffer: &[u8]) -> Result<usize, Fail> {
        let answer = self.sink.write(buffer);
        if let Ok(count) = answer {
            self.taken.fetch_add(count as u64, Ordering::SeqCst);
        }
        answer
    }
}

// Writes how a session or a check ended, given in words, and what went out.
fn put_end(line: &mut Line, words: &str, sink: &MemSink) {
    line.put(words);
    line.put(": ");
    put_bytes(line, sink.written());
}

// How a session ended, in words.
fn ended_in(ended: Result<Ended, ServeFault>) -> &'static str {
    match ended {
        Ok(Ended::Exit { after_shutdown }) => {
            if after_shutdown {
                "Exit { after_shutdown: true }"
            } else {
                "Exit { after_shutdown: false }"
            }
        }
        Ok(Ended::InputEnd) => "InputEnd",
        Ok(Ended::BadFrame(_)) => "bad frame",
        Err(_) => "fault",
    }
}

// Whether a check found an error, in words.
fn found_in(found: Result<bool, ServeFault>) -> &'static str {
    match found {
        Ok(true) => "true",
        Ok(false) => "false",
        Err(_) => "fault",
    }
}

// What a session is started with: the files, how many workers there are, and the gate that they pass.
struct Start<'g, G: Gate> {
    config: Config,
    workers: usize,
    gate: &'g Arc<G>,
}

// Serves a session behind a gate, and says in words how it ends.
fn serve_behind<
    R: Threads + Wait + Clone + Send + Drop + 'static,
    S: ByteSource + Drop,
    K: ByteSink,
    G: Gate + 'static,
>(rt: &R, alloc: Global, source: S, sink: &mut K, start: Start<'_, G>) -> &'static str {
    let Start {
        config,
        workers,
        gate,
    } = start;
    let mut reader = FrameReader::new(alloc, source);
    ended_in(serve(rt, alloc, &mut reader, sink, gate, config, workers))
}

// A sink with room for all that goes out.
fn roomy_sink(alloc: Global) -> Result<MemSink, AllocError> {
    MemSink::new(alloc, ROOM, ROOM, 0, false)
}

// A source of all bytes of a field.
fn source_of(alloc: Global, field: &str) -> Result<MemSource, AllocError> {
    Ok(MemSource::new(bytes_of(alloc, field)?, ROOM, 0, false))
}

// Writes how often a worker waited in vain, and how many hold the gate: each worker holds it as long as it lives.
fn put_passed(line: &mut Line, misses: &AtomicU64, holders: usize) {
    line.put("misses ");
    line.put_number(misses.load(Ordering::SeqCst));
    line.put(", holders ");
    line.put_number(holders as u64);
    line.put(", ");
}

// Writes how often the two files came to a gate where their workers met.
fn put_met(line: &mut Line, gate: &Arc<Meeting>) {
    line.put("came ");
    line.put_number(gate.first.load(Ordering::SeqCst));
    line.put(" and ");
    line.put_number(gate.second.load(Ordering::SeqCst));
    line.put(", ");
    put_passed(line, &gate.misses, Arc::strong_count(gate));
}

/// The bytes of a stream and the files a.proto and b.proto: what comes of a session with two workers, which wait for each other
/// before each piece of work.
pub fn meet<R: Threads + Wait + Clone + Send + Drop + 'static>(
    rt: &R,
    alloc: Global,
    line: &mut Line,
    given: &str,
) -> Result<(), AllocError> {
    let gate = Arc::new(alloc, Meeting::new())?;
    let mut sink = roomy_sink(alloc)?;
    let source = source_of(alloc, field(given, 1))?;
    let start = Start {
        config: config_of(alloc, given, 2)?,
        workers: 2,
        gate: &gate,
    };
    let ended = serve_behind(rt, alloc, source, &mut sink, start);
    put_met(line, &gate);
    put_end(line, ended, &sink);
    Ok(())
}

/// The files a.proto and b.proto: what comes of a check with two workers, which wait for each other before each piece of work.
pub fn meet_in_check<R: Threads + Wait + Clone + Send + Drop + 'static>(
    rt: &R,
    alloc: Global,
    line: &mut Line,
    given: &str,
) -> Result<(), AllocError> {
    let gate = Arc::new(alloc, Meeting::new())?;
    let mut sink = roomy_sink(alloc)?;
    let config = config_of(alloc, given, 1)?;
    let found = check(rt, alloc, &mut sink, &gate, config, 2);
    put_met(line, &gate);
    put_end(line, found_in(found), &sink);
    Ok(())
}

// Serves a session with one worker and no files behind a gate that holds the first job.
fn serve_holding<
    R: Threads + Wait + Clone + Send + Drop + 'static,
    S: ByteSource + Drop,
    K: ByteSink,
>(
    rt: &R,
    alloc: Global,
    source: S,
    sink: &mut K,
    gate: &Arc<Holding>,
) -> Result<&'static str, AllocError> {
    let start = Start {
        config: config_of(alloc, "", 1)?,
        workers: 1,
        gate,
    };
    Ok(serve_behind(rt, alloc, source, sink, start))
}

// The first bytes of a stream and the others, which it counts how often it is asked for.
fn source_behind(alloc: Global, asked: Arc<AtomicU64>, given: &str) -> Result<Watched, AllocError> {
    let mut bytes = bytes_of(alloc, field(given, 1))?;
    let first = bytes.len();
    let others = bytes_of(alloc, field(given, 2))?;
    bytes.extend_from_slice(others.as_slice())?;
    Ok(Watched {
        source: MemSource::new(bytes, ROOM, 0, false),
        first,
        given: 0,
        asked,
    })
}

/// The first bytes of a stream and the others: what comes of a session with one worker, whose first piece of work begins when the
/// others are asked for.
pub fn hold<R: Threads + Wait + Clone + Send + Drop + 'static>(
    rt: &R,
    alloc: Global,
    line: &mut Line,
    given: &str,
) -> Result<(), AllocError> {
    let asked = Arc::new(alloc, AtomicU64::new(0))?;
    let gate = Arc::new(alloc, Holding::until(Arc::try_clone(&asked)?, 1))?;
    let mut sink = roomy_sink(alloc)?;
    let source = source_behind(alloc, asked, given)?;
    let ended = serve_holding(rt, alloc, source, &mut sink, &gate)?;
    put_passed(line, &gate.misses, Arc::strong_count(&gate));
    put_end(line, ended, &sink);
    Ok(())
}

/// The bytes of a stream, and those that have to go out first: what comes of a session with one worker, whose first piece of work
/// begins when as many bytes went out.
pub fn hold_until_written<R: Threads + Wait + Clone + Send + Drop + 'static>(
    rt: &R,
    alloc: Global,
    line: &mut Line,
    given: &str,
) -> Result<(), AllocError> {
    let wanted = bytes_of(alloc, field(given, 2))?.len() as u64;
    let taken = Arc::new(alloc, AtomicU64::new(0))?;
    let gate = Arc::new(alloc, Holding::until(Arc::try_clone(&taken)?, wanted))?;
    let mut sink = Counting {
        sink: roomy_sink(alloc)?,
        taken,
    };
    let source = source_of(alloc, field(given, 1))?;
    let ended = serve_holding(rt, alloc, source, &mut sink, &gate)?;
    line.put("came ");
    line.put_number(gate.entered.load(Ordering::SeqCst));
    line.put(", ");
    put_passed(line, &gate.misses, Arc::strong_count(&gate));
    put_end(line, ended, &sink.sink);
    Ok(())
}
