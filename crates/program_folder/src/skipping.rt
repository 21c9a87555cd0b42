// What is left out. Standard error says so; where it is closed that changes nothing.

use std::alloc::{AllocError, Global};
use std::io::{self, ErrorKind};

// An entry that is left out: its path below its root, and why.
#[derive(Drop)]
pub(crate) struct Skipped {
    path: String,
    reason: String,
}

impl Skipped {
    // The entry at a path, for this reason.
    pub(crate) fn of(alloc: Global, path: &str, reason: &str) -> Result<Skipped, AllocError> {
        Ok(Skipped {
            path: String::from_str(alloc, path)?,
            reason: String::from_str(alloc, reason)?,
        })
    }

    // The entry of a folder whose name isn't UTF-8. Its bytes beyond ASCII are shown as escapes.
    pub(crate) fn named(alloc: Global, folder: &str, name: &[u8]) -> Result<Skipped, AllocError> {
        let shown = name.escape_ascii();
        let separator = if folder.is_empty() { "" } else { "/" };
        Ok(Skipped {
            path: format!(in alloc; "{folder}{separator}{shown}")?,
            reason: String::from_str(alloc, "the name isn't UTF-8")?,
        })
    }

    // The entry at a path that can't be read, where that isn't for want of memory.
    pub(crate) fn unread(
        alloc: Global,
        path: &str,
        error: &io::Error,
    ) -> Result<Skipped, AllocError> {
        if error.kind() == ErrorKind::OutOfMemory {
            return Err(AllocError);
        }
        Ok(Skipped {
            path: String::from_str(alloc, path)?,
            reason: format!(in alloc; "{error}")?,
        })
    }
}

// Says what is left out.
pub(crate) fn tell(rt: &impl Eprint, skipped: &[Skipped]) {
    for Skipped { path, reason } in skipped {
        let _told = eprintln!(rt; "skipped");
        let _explained = eprintln!(rt; "protols: skipped {path}: {reason}");
    }
}
