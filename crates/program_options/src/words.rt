// What the words of the command line can say.

/// What the command line asks for.
#[derive(Debug, Drop)]
pub struct Options<'a> {
    /// Whether the command is `check`; else it is `serve`.
    pub check: bool,
    /// The folders that are given: that of `--root` if there is one, then those of `--proto-path` in their order. Some may
    /// be the same, or lie in one another.
    pub dirs: Vec<&'a str>,
    /// Whether texts that aren't proto3 are read for what they declare.
    pub reads_others: bool,
    /// How many workers there are, from 1 to 64.
    pub workers: u8,
    /// How the lines of a check are written: one of the names that `check --help` lists.
    pub format: &'a str,
    /// Whether a check leaves out the summary on standard error.
    pub quiet: bool,
    /// The files whose lines a check writes, in their order; those of all files if it is empty.
    pub files: Vec<&'a str>,
}
