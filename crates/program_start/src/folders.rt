// What a session or a check is started with: the roots, and the files below them.
ghost use Rattle.std.specs.Prelude.{◌≡◌, ◌≢◌, [], ◌∷◌, codes, length, map, max, replicate, string_bytes, IfOk};
ghost use Rattle.program_options.specs.Path as url;
ghost use Rattle.work_files.specs.Disk.{disk_view};

use crate::failure::Failure;
use crate::named_files::named_paths;
use crate::summary::tell_empty_folders;
use program_folder::{FolderReader, FoundFile, read_folders};
use program_options::root_url;
use program_options::words::Options;
use std::alloc::{AllocError, Global};
use std::rt::Files;
use std::sync::Wait;
use std::thread::Threads;
use work_check::{Asked, Format, Listing};
use work_config::{Config, DiskFile};

// The files that were found, each with the number of its root.
fn disk_files(alloc: Global, found: Vec<FoundFile>) -> Result<Vec<DiskFile>, AllocError>
    ensures { IfOk result (λ files. map disk_view files.items ≡ map (λ f. record { root = f.root; path = string_bytes f.path; text = string_bytes f.text }) found.items) }
{
    let mut files = Vec::with_capacity(alloc, found.len())?;
    for FoundFile { root, path, text } in found {
        files.push(DiskFile { root, path, text })?;
    }
    Ok(files)
}

// The URLs of these folders.
fn roots_of(alloc: Global, dirs: &[&str]) -> Result<Vec<String>, AllocError>
    ensures { IfOk result (λ roots. map string_bytes roots.items ≡ map (λ dir. url.root_url dir.now) dirs.now) }
{
    let mut roots = Vec::with_capacity(alloc, dirs.len())?;
    for dir in dirs {
        roots.push(root_url(alloc, dir)?)?;
    }
    Ok(roots)
}

// As many times the root of all paths.
fn roots_of_all(alloc: Global, count: usize) -> Result<Vec<String>, AllocError>
    ensures { IfOk result (λ roots. map string_bytes roots.items ≡ replicate count (url.root_url (codes "/"))) }
{
    let mut roots = Vec::with_capacity(alloc, count)?;
    for _root in 0..count {
        roots.push(root_url(alloc, "/")?)?;
    }
    Ok(roots)
}

// What is started with these roots, the files that were found below them, and the choice whether texts that aren't proto3 are read.
fn with_files<'d>(
    alloc: Global,
    roots: Vec<String>,
    found: Vec<FoundFile>,
    reads_others: bool,
) -> Result<Config, Failure<'d>>
    ensures roots { IfOk result (λ config. config.roots ≡ map string_bytes roots.items) }
    ensures files { IfOk result (λ config. config.files ≡ map (λ f. record { root = f.root; path = string_bytes f.path; text = string_bytes f.text }) found.items) }
    ensures others { IfOk result (λ config. config.reads_others ≡ reads_others) }
{
    let files = disk_files(alloc, found)?;
    Ok(Config::make(alloc, roots, files, reads_others)?)
}

/// What a session is started with: the folders as its roots, and the files below them, which so many threads read. With no folder
/// the root is that of all paths, and no file is read. `reads_others` says whether texts that aren't proto3 are read for what they declare.
///
/// `Failure::Folder` if a folder can't be read, and 803 if memory was refused.
pub fn configuration<'d, R: FolderReader + Eprint + AllocGlobal + Threads + Wait>(
    rt: &R,
    dirs: &[&'d str],
    threads: u8,
    reads_others: bool,
) -> Result<Config, Failure<'d>>
    ensures folders { dirs.now ≢ [] → IfOk result (λ config. config.roots ≡ map (λ dir. url.root_url dir.now) dirs.now) }
    ensures all_paths { dirs.now ≡ [] → IfOk result (λ config. config.roots ≡ url.root_url (codes "/") ∷ []) }
    ensures others { IfOk result (λ config. config.reads_others ≡ reads_others) }
{
    let roots = if dirs.is_empty() {
        roots_of_all(rt.alloc(), 1)?
    } else {
        roots_of(rt.alloc(), dirs)?
    };
    let found = read_folders(rt, dirs, usize::from(threads))?;
    with_files(rt.alloc(), roots, found, reads_others)
}

// The folders that are checked: these, or the current one if there are none.
fn checked_dirs<'d>(alloc: Global, dirs: &[&'d str]) -> Result<Vec<&'d str>, AllocError>
    ensures { IfOk result (λ checked. length checked.items ≡ max 1 (length dirs.now)) }
{
    let mut checked = Vec::new(alloc);
    if dirs.is_empty() {
        checked.push(".")?;
    } else {
        checked.extend_from_slice(dirs)?;
    }
    Ok(checked)
}

// How the folders of a check are shown: as they are given, and nothing for the current one if there are none.
fn shown_dirs(alloc: Global, dirs: &[&str]) -> Result<Vec<String>, AllocError> {
    let mut shown = Vec::with_capacity(alloc, dirs.len())?;
    for dir in dirs {
        shown.push(String::from_str(alloc, dir)?)?;
    }
    Ok(shown)
}

// What a check writes: the lines of these files among those that were found, in the format that is asked for.
fn listing<'d, R: Files + AllocGlobal>(
    rt: &R,
    options: &Options<'d>,
    dirs: &[&'d str],
    found: &[FoundFile],
) -> Result<Listing, Failure<'d>> {
    Ok(Listing {
        format: Format::named(options.format).unwrap_or(Format::Plain),
        folders: shown_dirs(rt.alloc(), options.dirs.as_slice())?,
        only: named_paths(rt, dirs, options.files.as_slice(), found)?,
    })
}

/// What a check is asked for: the files of the folders that are given, which as many threads read as there are workers, or of the current
/// one if there are none. The root of each is that of all paths. Unless the options ask for quiet, a line on standard error names each folder below which
/// there is no file.
///
/// `Failure::Folder` if a folder can't be read, `Failure::File` if a file that is named isn't among those that were found, and 803 if memory was
/// refused.
pub fn check_of<'d, R: FolderReader + Files + Eprint + AllocGlobal + Threads + Wait>(
    rt: &R,
    options: &Options<'d>,
) -> Result<Asked, Failure<'d>>
    ensures roots { IfOk result (λ asked. (let config = asked.config in config.roots) ≡ replicate (max 1 (length options.now.dirs.items)) (url.root_url (codes "/"))) }
    ensures others { IfOk result (λ asked. (let config = asked.config in config.reads_others) ≡ options.now.reads_others) }
{
    let alloc = rt.alloc();
    let dirs = checked_dirs(alloc, options.dirs.as_slice())?;
    let found = read_folders(rt, dirs.as_slice(), usize::from(options.workers))?;
    let how = listing(rt, options, dirs.as_slice(), found.as_slice())?;
    if !options.quiet {
        tell_empty_folders(rt, dirs.as_slice(), found.as_slice())?;
    }
    let roots = roots_of_all(alloc, dirs.len())?;
    Ok(Asked {
        config: with_files(alloc, roots, found, options.reads_others)?,
        how,
        workers: usize::from(options.workers),
    })
}
