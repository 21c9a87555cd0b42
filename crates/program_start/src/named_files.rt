// Which of the files that were found the command line names.

use crate::failure::{Failure, FileFault};
use program_folder::FoundFile;
use std::alloc::{AllocError, Global};
use std::collections::{BTreeMap, BTreeSet};
use std::io::{self, ErrorKind};
use std::path::PathBuf;
use std::rt::Files;

// The number of the root whose file counts at each path: of files with one path that of the first root.
fn roots_by_path<'f>(
    alloc: Global,
    found: &'f [FoundFile],
) -> Result<BTreeMap<&'f str, usize>, AllocError> {
    let mut roots = BTreeMap::new(alloc);
    for file in found {
        let path = file.path.as_str();
        let root = match roots.get(path) {
            Some(first) => file.root.min(*first),
            None => file.root,
        };
        roots.insert(path, root)?;
    }
    Ok(roots)
}

// Where a file or a folder really is, without links, `.` and `..`.
fn place_of<R: Files + AllocGlobal>(rt: &R, path: &str) -> io::Result<PathBuf> {
    rt.canonicalize(rt.alloc(), path)
}

// Why the file with a name can't be checked, if the system says this of it.
fn unfound<'d>(file: &'d str, error: io::Error) -> Failure<'d> {
    if error.kind() == ErrorKind::OutOfMemory {
        return Failure::from(AllocError);
    }
    Failure::File(file, FileFault::NotFound(error))
}

// Where the folders really are.
fn places_of<'d, R: Files + AllocGlobal>(
    rt: &R,
    dirs: &[&'d str],
) -> Result<Vec<PathBuf>, Failure<'d>> {
    let mut places = Vec::new(rt.alloc());
    for dir in dirs {
        match place_of(rt, dir) {
            Ok(place) => places.push(place)?,
            Err(error) => return Err(unfound(*dir, error)),
        }
    }
    Ok(places)
}

// The path of a place below a folder, if it lies there.
fn path_below<'p>(folder: &str, place: &'p str) -> Option<&'p str> {
    let rest = place.strip_prefix(folder)?;
    if folder.ends_with('/') {
        return Some(rest);
    }
    rest.strip_prefix("/")
}

// The files that were found, as they are named.
#[derive(Drop)]
struct Named<'f> {
    alloc: Global,
    // The number of the root whose file counts at each path.
    roots: BTreeMap<&'f str, usize>,
    // Where the roots' folders really are.
    folders: Vec<PathBuf>,
    // The paths of the files that were named so far.
    paths: BTreeSet<String>,
}

impl<'f> Named<'f> {
    // Names the file at a place, below each folder in which it lies. What is wrong if there is none.
    fn add(&mut self, place: &str) -> Result<Option<FileFault>, AllocError> {
        let mut fault = Some(FileFault::Outside);
        for (root, folder) in self.folders.iter().enumerate() {
            let Some(path) = path_below(folder.as_str(), place) else {
                continue;
            };
            if self.roots.get(path) == Some(&root) {
                self.paths.insert(String::from_str(self.alloc, path)?)?;
                fault = None;
            } else if fault.is_some() {
                fault = Some(FileFault::NotChecked);
            }
        }
        Ok(fault)
    }

    // Names these files.
    fn add_all<'d, R: Files + AllocGlobal>(
        &mut self,
        rt: &R,
        files: &[&'d str],
    ) -> Result<(), Failure<'d>> {
        for file in files {
            let place = match place_of(rt, file) {
                Ok(place) => place,
                Err(error) => return Err(unfound(*file, error)),
            };
            if let Some(fault) = self.add(place.as_str())? {
                return Err(Failure::File(*file, fault));
            }
        }
        Ok(())
    }
}

// The paths of the files with these names among those that were found below these folders; `None`, which means all, if no file is named.
pub fn named_paths<'d, R: Files + AllocGlobal>(
    rt: &R,
    dirs: &[&'d str],
    files: &[&'d str],
    found: &[FoundFile],
) -> Result<Option<BTreeSet<String>>, Failure<'d>> {
    if files.is_empty() {
        return Ok(None);
    }
    let alloc = rt.alloc();
    let mut named = Named {
        alloc,
        roots: roots_by_path(alloc, found)?,
        folders: places_of(rt, dirs)?,
        paths: BTreeSet::new(alloc),
    };
    named.add_all(rt, files)?;
    let Named { paths, .. } = named;
    Ok(Some(paths))
}
