// A declaration, named by numbers.

/// A declaration.
#[derive(Clone, Copy, Debug, PartialEq, Eq)]
pub struct DeclRef {
    /// The number of its file in the list of all files, counted from 0.
    pub file: usize,
    /// Its number in the file's list of declarations, counted from 0.
    pub number: usize,
}
