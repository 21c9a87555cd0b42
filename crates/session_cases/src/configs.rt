// What sessions are started with.
use library_cases::{first_word, plain};
use lsp_session::{Config, DiskFile};
use std::alloc::{AllocError, Global};

fn disk_file(alloc: Global, field: &str) -> Result<DiskFile, AllocError> {
    let (path, text) = first_word(field);
    let path = plain(alloc, path)?;
    Ok(DiskFile {
        root: 0,
        path,
        text: plain(alloc, text)?,
    })
}

// The files of the fields behind so many that have no `> ` at the front.
fn files_in(alloc: Global, given: &str, behind: usize) -> Result<Vec<DiskFile>, AllocError> {
    let mut files = Vec::new(alloc);
    for field in given.split(" :: ").skip(behind) {
        if !field.starts_with("> ") {
            files.push(disk_file(alloc, field)?)?;
        }
    }
    Ok(files)
}

fn roots(alloc: Global) -> Result<Vec<String>, AllocError> {
    let mut roots = Vec::new(alloc);
    roots.push(String::from_str(alloc, "file:///w/")?)?;
    Ok(roots)
}

/// The configuration of one root and the files of the fields behind so many, each a path and a text. Fields with `> ` at the front are
/// none.
pub fn config_of(alloc: Global, given: &str, behind: usize) -> Result<Config, AllocError> {
    let files = files_in(alloc, given, behind)?;
    match Config::make(alloc, roots(alloc)?, files, false) {
        Ok(config) => Ok(config),
        Err(_) => Err(AllocError),
    }
}
