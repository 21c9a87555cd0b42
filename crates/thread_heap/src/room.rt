// Room for what a thread is about to keep.
use std::alloc::{AllocError, Global};

// How much more a thread's heap gets at once, in bytes, and after how many parts of a text or for how many files.
const ROOM: usize = 1 << 20;

const PARTS: usize = 1024;

const FILES: usize = 16;

// Has the heap of this thread grow by much at once: where it is full, the C library's allocator has it grow by what is asked for just then, so it
// does so some hundred times a megabyte, and each time all threads of the program wait for the system. Memory that isn't used isn't taken.
fn grow(alloc: Global) -> Result<(), AllocError> {
    Vec::<u8>::with_capacity(alloc, ROOM)?;
    Ok(())
}

/// For each 1,024th part of a text, by the parts' numbers from 0, has the heap of this thread grow by much at once, which saves time. An `Err`
/// comes only if memory was refused.
pub fn make_room(alloc: Global, number: usize) -> Result<(), AllocError> {
    if number % PARTS == PARTS - 1 {
        grow(alloc)?;
    }
    Ok(())
}

/// For each sixteenth file, by the files' numbers from 0, has the heap of this thread grow by much at once, which saves time. An `Err` comes only
/// if memory was refused.
pub fn make_room_for_files(alloc: Global, number: usize) -> Result<(), AllocError> {
    if number % FILES == 0 {
        grow(alloc)?;
    }
    Ok(())
}
