// What waits to be read below the roots, for threads that take it.

use crate::fault::FolderFault;
use crate::found::{Folder, Met, Root};
use crate::listing::{Listing, MAX_ENTRIES};
use std::alloc::{AllocError, Global};
use std::sync::{Condvar, Mutex, Wait};

// How many folders and files a thread takes at most at a time.
const MOST_TAKEN: usize = 8;

#[derive(Drop)]
struct Waiting<'d> {
    // What was met and nobody has taken yet.
    met: Vec<Met<'d>>,
    // How many threads there will be.
    threads: usize,
    // How many threads read what they took, and may meet more.
    busy: usize,
    // How many entries were met.
    entries: u32,
    // What ended the walk, if anything did.
    fault: Option<FolderFault<'d>>,
}

impl<'d> Waiting<'d> {
    // Whether nothing can be taken now, but perhaps later.
    fn is_awaited(&self) -> bool {
        self.met.is_empty() && self.busy != 0 && self.fault.is_none()
    }

    // Takes the part of a thread, what was met last. `None` if nothing waits, if so much does, or if the walk has ended.
    fn take(&mut self, enough: usize) -> Result<Option<Vec<Met<'d>>>, AllocError> {
        let waiting = self.met.len();
        if waiting == 0 || waiting >= enough || self.fault.is_some() {
            return Ok(None);
        }
        let part = waiting.div_ceil(self.threads.max(1)).min(MOST_TAKEN);
        let left = waiting.saturating_sub(part);
        let some = self.met.split_off(left)?;
        self.busy = self.busy.saturating_add(1);
        Ok(Some(some))
    }

    // Takes over what a thread met, which isn't busy any more. An `Err` is what ends the walk: the thread's fault, or too many entries.
    fn bring(&mut self, listing: &mut Listing<'d>) -> Result<(), FolderFault<'d>> {
        self.busy = self.busy.saturating_sub(1);
        self.entries = self.entries.saturating_add(listing.entries);
        listing.entries = 0;
        self.met.append(&mut listing.met)?;
        match listing.fault.take() {
            Some(fault) => Err(fault),
            None if self.entries > MAX_ENTRIES => {
                Err(FolderFault::TooManyEntries { dir: listing.dir })
            }
            None => Ok(()),
        }
    }

    // Ends the walk. The first fault stays.
    fn end(&mut self, fault: FolderFault<'d>) {
        if self.fault.is_none() {
            self.fault = Some(fault);
        }
    }
}

// What was met below the roots and isn't read yet.
#[derive(Drop)]
pub(crate) struct Queue<'d> {
    waiting: Mutex<Waiting<'d>>,
    changed: Condvar,
}

impl<'d> Queue<'d> {
    // The roots themselves, to be listed, for so many threads.
    pub(crate) fn of_roots(
        alloc: Global,
        dirs: &[&'d str],
        threads: usize,
    ) -> Result<Queue<'d>, AllocError> {
        let mut met = Vec::with_capacity(alloc, dirs.len())?;
        for (number, dir) in dirs.iter().enumerate() {
            met.push(Met::Folder(Folder {
                root: Root { number, dir },
                path: String::new(alloc),
                depth: 0,
            }))?;
        }
        Ok(Queue {
            waiting: Mutex::new(Waiting {
                met,
                threads,
                busy: 0,
                entries: 0,
                fault: None,
            }),
            changed: Condvar::new(),
        })
    }

    // Whether something waits, and the walk hasn't ended.
    pub(crate) fn has_more<R: Wait>(&self, rt: &R) -> bool {
        let waiting = self.waiting.lock(rt);
        !waiting.met.is_empty() && waiting.fault.is_none()
    }

    // Takes some of what waits, unless so much does. If nothing does, but another thread may meet more, it waits for that.
    pub(crate) fn take<R: Wait>(&self, rt: &R, enough: usize) -> Option<Vec<Met<'d>>> {
        let mut waiting = self
            .changed
            .wait_while(rt, self.waiting.lock(rt), |it| it.is_awaited());
        match waiting.take(enough) {
            Ok(some) => some,
            Err(_) => {
                // (something waited, so the call that brought it has woken all)
                waiting.end(FolderFault::Memory);
                None
            }
        }
    }

    // Takes over what a thread met while it read what it took.
    pub(crate) fn bring<R: Wait>(&self, rt: &R, listing: &mut Listing<'d>) {
        let mut waiting = self.waiting.lock(rt);
        if let Err(fault) = waiting.bring(listing) {
            waiting.end(fault);
        }
        drop(waiting);
        self.changed.notify_all();
    }

    // What ended the walk, if anything did.
    pub(crate) fn into_fault(self) -> Option<FolderFault<'d>> {
        self.waiting.into_inner().fault
    }
}
