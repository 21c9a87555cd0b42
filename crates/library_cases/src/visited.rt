// Gates that count how often each file passes them.
use crate::line::Line;
use crate::pieces::text_of;
use piece_collector::Piece;
use std::alloc::{AllocError, Global};
use std::sync::atomic::{AtomicU64, Ordering};
use std::thread;
use work_index::{FileWork, Gate};

// How often a file looks for the others before it passes in vain.
const TURNS: u64 = 1_000_000;

// A file, by its path and the stamp of its text, and how often it has come to the gate.
#[derive(Drop)]
struct Visitor {
    path: String,
    stamp: u64,
    times: AtomicU64,
}

/// A gate that counts how often each file comes to it. Where they meet, a file waits until each other one has come as often.
#[derive(Drop)]
pub struct Visited {
    visitors: Vec<Visitor>,
    // How often another file came, or one of these with another stamp.
    strangers: AtomicU64,
    meet: bool,
    // How often a file waited in vain.
    misses: AtomicU64,
}

fn visitor_of(alloc: Global, piece: &Piece<FileWork>) -> Result<Visitor, AllocError> {
    let own = text_of(piece);
    Ok(Visitor {
        path: String::from_str(alloc, own.path)?,
        stamp: own.stamp,
        times: AtomicU64::new(0),
    })
}

impl Visited {
    /// A gate for these files.
    pub fn by(
        alloc: Global,
        pieces: &[Piece<FileWork>],
        meet: bool,
    ) -> Result<Visited, AllocError> {
        let mut visitors = Vec::new(alloc);
        for piece in pieces {
            visitors.push(visitor_of(alloc, piece)?)?;
        }
        Ok(Visited {
            visitors,
            strangers: AtomicU64::new(0),
            meet,
            misses: AtomicU64::new(0),
        })
    }

    // How often a file has come, with this time.
    fn count(&self, path: &str, stamp: u64) -> Option<u64> {
        for visitor in &self.visitors {
            if visitor.path.as_str() == path && visitor.stamp == stamp {
                let before = visitor.times.fetch_add(1, Ordering::SeqCst);
                return Some(before.saturating_add(1));
            }
        }
        None
    }

    // Whether each file has come so often.
    fn all_have_come(&self, times: u64) -> bool {
        for visitor in &self.visitors {
            if visitor.times.load(Ordering::SeqCst) < times {
                return false;
            }
        }
        true
    }

    // Whether each file comes so often within the turns.
    fn all_come(&self, times: u64) -> bool {
        for _turn in 0..TURNS {
            if self.all_have_come(times) {
                return true;
            }
            thread::yield_now();
        }
        false
    }

    /// Writes how often each file came, how often another one did, and how often one waited in vain; the last two where it isn't 0.
    pub fn write(&self, line: &mut Line) {
        line.put("; came:");
        for visitor in &self.visitors {
            write_times(line, visitor.path.as_str(), &visitor.times);
        }
        write_count(line, "strangers", &self.strangers);
        write_count(line, "misses", &self.misses);
    }
}

fn write_count(line: &mut Line, what: &str, count: &AtomicU64) {
    if count.load(Ordering::SeqCst) > 0 {
        write_times(line, what, count);
    }
}

fn write_times(line: &mut Line, what: &str, count: &AtomicU64) {
    line.put(" ");
    line.put(what);
    line.put(" ");
    line.put_number(count.load(Ordering::SeqCst));
}

impl Gate for Visited {
    fn enter(&self, path: &str, stamp: u64) {
        match self.count(path, stamp) {
            None => {
                self.strangers.fetch_add(1, Ordering::SeqCst);
            }
            Some(times) => {
                if self.meet && !self.all_come(times) {
                    self.misses.fetch_add(1, Ordering::SeqCst);
                }
            }
        }
    }
}
