// What reads folders and files, in any thread.

use crate::listing::MAX_ENTRIES;
use std::alloc::{AllocError, Global};
use std::fs::{self, Metadata};
use std::io::{self, BufRead, BufReader, ErrorKind, Read};
use std::marker::{Send, Sync};
use std::rt::Files;

// How many names of a folder are read: more than those of as many entries as may be listed.
const MAX_NAMES: u32 = MAX_ENTRIES + 3;

/// What reads folders and files, in any thread.
pub trait FolderReader: Send + Sync {
    /// Adds the names in the folder at a place in the file system, with a byte 0 behind each: those of its entries, and perhaps its own, `.`,
    /// and that of the folder that holds it, `..`. Of more than 100,003 names the first ones. At an error those that were read stay.
    fn add_names(&self, place: &str, names: &mut Vec<u8>) -> io::Result<()>;

    /// What is at a place in the file system. A symbolic link isn't followed.
    fn look_at(&self, place: &str) -> io::Result<Metadata>;

    /// The text of the file at a place in the file system, about `length` bytes long. An error also where it isn't UTF-8.
    fn read_text(&self, place: &str, length: u64) -> io::Result<String>;
}

impl FolderReader for HostRuntime {
    fn add_names(&self, place: &str, names: &mut Vec<u8>) -> io::Result<()> {
        // (the system gives names only into room for a whole entry, which a buffer of its own always has)
        let Ok(mut entries) = BufReader::new(self.alloc(), self.open_dir(place)?) else {
            return Err(io::Error::from(ErrorKind::OutOfMemory));
        };
        for _ in 0..MAX_NAMES {
            if entries.read_until(0, names)? == 0 {
                break;
            }
        }
        Ok(())
    }

    fn look_at(&self, place: &str) -> io::Result<Metadata> {
        fs::symlink_metadata(self, place)
    }

    fn read_text(&self, place: &str, length: u64) -> io::Result<String> {
        let capacity = usize::try_from(length)
            .unwrap_or(usize::MAX)
            .saturating_add(1);
        let mut file = fs::open(self, place)?;
        let mut bytes = Vec::with_capacity(self.alloc(), capacity)?;
        file.read_to_end(&mut bytes)?;
        match String::from_utf8(bytes) {
            Ok(text) => Ok(text),
            Err(_) => Err(io::Error::new(ErrorKind::InvalidData, "not UTF-8")),
        }
    }
}

// The path of a name in a folder. In the folder with the empty path it is the name alone.
pub(crate) fn path_in(alloc: Global, folder: &str, name: &str) -> Result<String, AllocError> {
    if folder.is_empty() {
        return String::from_str(alloc, name);
    }
    let length = folder.len().saturating_add(name.len()).saturating_add(1);
    let mut path = String::with_capacity(alloc, length)?;
    path.push_str(folder)?;
    path.push('/')?;
    path.push_str(name)?;
    Ok(path)
}
