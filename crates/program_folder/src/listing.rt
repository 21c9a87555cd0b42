// What is in folders: their entries, and the texts of files.
ghost use Rattle.std.specs.Prelude.{◌≡◌, ◌⊎◌, ◌+◌, ◌++◌, ◌∷◌, [], true, false, codes, nat_eq, string_bytes, OnOk};
ghost use Rattle.std.specs.Fs.{IsDir, IsFile, file_type, metadata_len};
ghost use Rattle.std.specs.List.{ends_with};
ghost use Rattle.program_folder.specs.declared.found.FoundFile.{FoundFile};
ghost use Rattle.program_folder.specs.declared.found.Met.TheVariants as met;

use crate::fault::FolderFault;
use crate::found::{Folder, FoundFile, Met, MetFile};
use crate::reader::{FolderReader, path_in};
use crate::skipping::Skipped;
use std::alloc::{AllocError, Global};
use std::fs::Metadata;
use std::io::{self, ErrorKind};
use std::str;
use thread_heap::make_room_for_files;

// How many folders may stand in one another below a root.
pub(crate) const MAX_DEPTH: u32 = 64;

// How many entries may be listed in all roots together, those that are skipped included.
pub(crate) const MAX_ENTRIES: u32 = 100_000;

// What was found in folders, and what ended that, if anything did.
#[derive(Drop)]
pub(crate) struct Listing<'d> {
    alloc: Global,
    // The root of the folder that was listed last; empty before the first.
    pub(crate) dir: &'d str,
    // The files that were read.
    pub(crate) files: Vec<FoundFile>,
    // What was met since the queue took over last, to be read by any thread.
    pub(crate) met: Vec<Met<'d>>,
    pub(crate) skipped: Vec<Skipped>,
    // How many entries were met since then.
    pub(crate) entries: u32,
    pub(crate) fault: Option<FolderFault<'d>>,
}

// Leaves a folder out that can't be listed; a root has to be.
fn skip_unlisted<'d>(
    listing: &mut Listing<'d>,
    folder: &Folder<'d>,
    error: io::Error,
) -> Result<(), FolderFault<'d>> {
    if folder.depth == 0 && error.kind() != ErrorKind::OutOfMemory {
        return Err(FolderFault::Unlisted {
            dir: folder.root.dir,
            error,
        });
    }
    skip_unread(listing, folder.path.as_str(), &error)
}

// Leaves out the entry at a path that can't be read.
fn skip_unread<'d>(
    listing: &mut Listing<'d>,
    path: &str,
    error: &io::Error,
) -> Result<(), FolderFault<'d>>
    ensures { OnOk result (listing.new.files.items ≡ listing.old.files.items) }
{
    let skipped = Skipped::unread(listing.alloc, path, error)?;
    Ok(listing.skipped.push(skipped)?)
}

// Leaves out the entry at a path for a reason.
fn skip<'d>(listing: &mut Listing<'d>, path: &str, reason: &str) -> Result<(), FolderFault<'d>>
    ensures { OnOk result (listing.new.met.items ≡ listing.old.met.items) }
{
    let skipped = Skipped::of(listing.alloc, path, reason)?;
    Ok(listing.skipped.push(skipped)?)
}

// Leaves out the entry of a folder whose name isn't UTF-8.
fn skip_named<'d>(
    listing: &mut Listing<'d>,
    folder: &Folder<'d>,
    name: &[u8],
) -> Result<(), FolderFault<'d>> {
    let skipped = Skipped::named(listing.alloc, folder.path.as_str(), name)?;
    Ok(listing.skipped.push(skipped)?)
}

// Keeps a folder, to be listed later.
fn add_folder<'d>(
    listing: &mut Listing<'d>,
    holder: &Folder<'d>,
    path: String,
) -> Result<(), FolderFault<'d>>
    ensures { OnOk result (listing.new.met.items ≡ listing.old.met.items ++ met.Folder (record { root = holder.now.root; path = path; depth = holder.now.depth + 1 }) ∷ []) }
{
    if holder.depth >= MAX_DEPTH {
        return Err(FolderFault::TooDeep {
            dir: holder.root.dir,
        });
    }
    let root = holder.root;
    let depth = holder.depth + 1;
    Ok(listing.met.push(Met::Folder(Folder { root, path, depth }))?)
}

// Whether a path is that of a file that is read, if it is one.
fn is_proto(path: &str) -> bool
    ensures { result ≡ ends_with nat_eq path.now (codes ".proto") }
{
    path.as_bytes().ends_with(b".proto")
}

// Keeps what was met at a path, if it is a folder or a `.proto` file. Symbolic links aren't followed. What ends in `.proto` and is neither
// a file nor a folder, as a pipe or a socket, can't be read.
fn add_found<'d>(
    listing: &mut Listing<'d>,
    folder: &Folder<'d>,
    path: String,
    found: &Metadata,
) -> Result<(), FolderFault<'d>>
    ensures folder { OnOk result (IsDir (file_type found.now) → listing.new.met.items ≡ listing.old.met.items ++ met.Folder (record { root = folder.now.root; path = path; depth = folder.now.depth + 1 }) ∷ []) }
    ensures file { OnOk result (IsFile (file_type found.now) → ends_with nat_eq (string_bytes path) (codes ".proto") ≡ true → listing.new.met.items ≡ listing.old.met.items ++ met.File (record { root = folder.now.root; path = path; length = metadata_len found.now }) ∷ []) }
    ensures other { OnOk result (¬ (IsDir (file_type found.now)) → ¬ (IsFile (file_type found.now)) ⊎ (ends_with nat_eq (string_bytes path) (codes ".proto") ≡ false) → listing.new.met.items ≡ listing.old.met.items) }
{
    if found.is_dir() {
        return add_folder(listing, folder, path);
    }
    if found.is_symlink() || !is_proto(path.as_str()) {
        return Ok(());
    }
    if !found.is_file() {
        return skip(listing, path.as_str(), "neither a file nor a folder");
    }
    let root = folder.root;
    let length = found.len();
    Ok(listing.met.push(Met::File(MetFile { root, path, length }))?)
}

// Looks at the entry of a folder that has this name.
fn add_named<'d, F: FolderReader>(
    reader: &F,
    listing: &mut Listing<'d>,
    folder: &Folder<'d>,
    name: &str,
) -> Result<(), FolderFault<'d>> {
    let path = path_in(listing.alloc, folder.path.as_str(), name)?;
    let place = path_in(listing.alloc, folder.root.dir, path.as_str())?;
    match reader.look_at(place.as_str()) {
        Ok(found) => add_found(listing, folder, path, &found),
        Err(error) => skip_unread(listing, path.as_str(), &error),
    }
}

// Counts an entry of a folder, and looks at it unless its name begins with `.`. A name that isn't UTF-8 can't be in a
// path, so nothing more can be known of its entry.
fn add_entry<'d, F: FolderReader>(
    reader: &F,
    listing: &mut Listing<'d>,
    folder: &Folder<'d>,
    name: &[u8],
) -> Result<(), FolderFault<'d>> {
    if listing.entries >= MAX_ENTRIES {
        return Err(FolderFault::TooManyEntries {
            dir: folder.root.dir,
        });
    }
    listing.entries += 1;
    if name.starts_with(b".") {
        return Ok(());
    }
    match str::from_utf8(name) {
        Ok(name) => add_named(reader, listing, folder, name),
        Err(_) => skip_named(listing, folder, name),
    }
}

// Whether a name of a listing is one of an entry: each listing has the names of the folder itself and of its holder, and nothing behind
// the last byte 0.
fn is_entry(name: &[u8]) -> bool {
    !name.is_empty() && name != b".".as_slice() && name != b"..".as_slice()
}

// Takes the entries of a listing. The names are read as bytes, since not each of them has to be UTF-8.
fn add_entries<'d, F: FolderReader>(
    reader: &F,
    listing: &mut Listing<'d>,
    folder: &Folder<'d>,
    names: &[u8],
) -> Result<(), FolderFault<'d>> {
    for name in names.split(|byte| *byte == 0) {
        if is_entry(name) {
            add_entry(reader, listing, folder, name)?;
        }
    }
    Ok(())
}

// Lists a folder.
fn list<'d, F: FolderReader>(
    reader: &F,
    listing: &mut Listing<'d>,
    folder: &Folder<'d>,
) -> Result<(), FolderFault<'d>> {
    listing.dir = folder.root.dir;
    // A root's place ends with a slash, so that a symbolic link is followed there, and only there.
    let place = path_in(listing.alloc, folder.root.dir, folder.path.as_str())?;
    let mut names = Vec::new(listing.alloc);
    let ended = reader.add_names(place.as_str(), &mut names);
    add_entries(reader, listing, folder, names.as_slice())?;
    match ended {
        Ok(()) => Ok(()),
        Err(error) => skip_unlisted(listing, folder, error),
    }
}

// Reads a file. One that can't be read is left out.
fn read<'d, F: FolderReader>(
    reader: &F,
    listing: &mut Listing<'d>,
    file: MetFile<'d>,
) -> Result<(), FolderFault<'d>>
    ensures { OnOk result ((listing.new.files.items ≡ listing.old.files.items) ⊎ ((f : FoundFile) × (listing.new.files.items ≡ listing.old.files.items ++ f ∷ []) × (f.root ≡ file.entry.root.number) × (f.path ≡ file.entry.path))) }
{
    let MetFile { root, path, length } = file;
    let place = path_in(listing.alloc, root.dir, path.as_str())?;
    match reader.read_text(place.as_str(), length) {
        Ok(text) => {
            make_room_for_files(listing.alloc, listing.files.len())?;
            let root = root.number;
            Ok(listing.files.push(FoundFile { root, path, text })?)
        }
        Err(error) => skip_unread(listing, path.as_str(), &error),
    }
}

fn read_each<'d, F: FolderReader>(
    reader: &F,
    listing: &mut Listing<'d>,
    met: Vec<Met<'d>>,
) -> Result<(), FolderFault<'d>> {
    for one in met {
        match one {
            Met::Folder(folder) => list(reader, listing, &folder)?,
            Met::File(file) => read(reader, listing, file)?,
        }
    }
    Ok(())
}

impl<'d> Listing<'d> {
    // Nothing yet.
    pub(crate) fn new(alloc: Global) -> Listing<'d> {
        Listing {
            alloc,
            dir: "",
            files: Vec::new(alloc),
            met: Vec::new(alloc),
            skipped: Vec::new(alloc),
            entries: 0,
            fault: None,
        }
    }

    // Lists these folders and reads these files. A fault ends it.
    pub(crate) fn read<F: FolderReader>(&mut self, reader: &F, met: Vec<Met<'d>>) {
        let ended = read_each(reader, self, met);
        self.fault = ended.err();
    }

    // Adds the files that another thread has read, and what it left out.
    pub(crate) fn add(&mut self, other: Listing<'d>) -> Result<(), AllocError> {
        let Listing {
            mut files,
            mut skipped,
            ..
        } = other;
        self.files.append(&mut files)?;
        self.skipped.append(&mut skipped)?;
        Ok(())
    }
}
