// The walk over folders and the folders below them.

use crate::fault::FolderFault;
use crate::found::FoundFile;
use crate::listing::Listing;
use crate::queue::Queue;
use crate::reader::FolderReader;
use crate::skipping::tell;
use std::alloc::{AllocError, Global};
use std::sync::Wait;
use std::thread::{self, Threads};

// The work of one thread: reads what waits, beside other threads, until nothing waits and none of them may meet more, until so much waits, or
// until the walk has ended.
fn read_on<'d, R: FolderReader + Wait>(
    rt: &R,
    alloc: Global,
    queue: &Queue<'d>,
    enough: usize,
) -> Listing<'d> {
    let mut listing = Listing::new(alloc);
    for _turn in rt.forever() {
        let Some(some) = queue.take(rt, enough) else {
            break;
        };
        listing.read(rt, some);
        queue.bring(rt, &mut listing);
    }
    listing
}

// Has so many threads, if they can be started, read what waits. This one only waits for them: the system puts the first new thread on the
// processor of the one that starts it.
fn read_in_threads<'d, R: FolderReader + Threads + Wait>(
    rt: &R,
    alloc: Global,
    queue: &Queue<'d>,
    threads: usize,
) -> Result<Listing<'d>, AllocError> {
    thread::scope(
        thread::scope_env(),
        rt,
        move |scope| -> Result<Listing<'_>, AllocError> {
            let mut readers = Vec::new(alloc);
            for _thread in 0..threads {
                match scope.spawn(move || read_on(rt, alloc, queue, usize::MAX)) {
                    Ok(reader) => readers.push(reader)?,
                    Err(_) => break,
                }
            }
            let mut found = Listing::new(alloc);
            for reader in readers {
                found.add(reader.join(rt))?;
            }
            Ok(found)
        },
    )
}

// What is below the folders `dirs`. This thread reads it alone until there is something for each of so many threads, and all of it where none
// of these can be started.
fn walk<'d, R: FolderReader + Threads + Wait>(
    rt: &R,
    alloc: Global,
    dirs: &[&'d str],
    threads: usize,
) -> Result<Listing<'d>, AllocError> {
    let queue = Queue::of_roots(alloc, dirs, threads)?;
    let mut found = Listing::new(alloc);
    if threads > 1 {
        found.add(read_on(rt, alloc, &queue, threads))?;
    }
    if threads > 1 && queue.has_more(rt) {
        found.add(read_in_threads(rt, alloc, &queue, threads)?)?;
    }
    found.add(read_on(rt, alloc, &queue, usize::MAX))?;
    found.fault = queue.into_fault();
    Ok(found)
}

/// The files below the folders at the paths `dirs` whose names end in `.proto`, each with the number of its folder and its
/// path below it, in no particular order. A file that is below two of the folders comes once for each.
///
/// Names that begin with `.` and symbolic links are skipped; each of the folders may itself be a link. An entry that can't be
/// read, and one whose name or text isn't UTF-8, is skipped with the line `skipped` on standard error, and a line that
/// says which entry it is, and why. As many threads as are asked for, 64 at most, or as many of them as can be
/// started, list the folders and read the files. The calling thread does it alone until there is something for each of them, and where none
/// can be started.
///
/// # Errors
/// [`FolderFault`] says each.
pub fn read_folders<'d, R: FolderReader + AllocGlobal + Eprint + Threads + Wait>(
    rt: &R,
    dirs: &[&'d str],
    threads: usize,
) -> Result<Vec<FoundFile>, FolderFault<'d>> {
    let found = walk(rt, rt.alloc(), dirs, threads.clamp(1, 64))?;
    tell(rt, found.skipped.as_slice());
    match found.fault {
        Some(fault) => Err(fault),
        None => Ok(found.files),
    }
}
