// What was met below the folders that were given.

/// A file below one of the folders that were given.
#[derive(Debug, Drop)]
pub struct FoundFile {
    /// The number of that folder among those that were given, from 0.
    pub root: usize,
    /// Its path below that folder, the names joined by `/`.
    pub path: String,
    /// What it holds.
    pub text: String,
}

// A folder that was given: its number among these, and its path in the file system.
#[derive(Clone, Copy, Drop)]
pub(crate) struct Root<'d> {
    pub(crate) number: usize,
    pub(crate) dir: &'d str,
}

// A folder. Its path is the one below its root, whose own path is empty; its depth is how many folders stand on that path.
#[derive(Drop)]
pub(crate) struct Folder<'d> {
    pub(crate) root: Root<'d>,
    pub(crate) path: String,
    pub(crate) depth: u32,
}

// A file: its path below its root, and how many bytes it is said to have.
#[derive(Drop)]
pub(crate) struct MetFile<'d> {
    pub(crate) root: Root<'d>,
    pub(crate) path: String,
    pub(crate) length: u64,
}

// What was met and isn't read yet.
#[derive(Drop)]
pub(crate) enum Met<'d> {
    Folder(Folder<'d>),
    File(MetFile<'d>),
}
