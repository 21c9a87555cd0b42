// Files on disk.

/// A file that was found on disk.
#[derive(Debug, Drop)]
pub struct DiskFile {
    /// The number of its root in the list of roots, from 0.
    pub root: usize,
    /// Its path under the root, segments joined by `/`.
    pub path: String,
    /// What it holds.
    pub text: String,
}
