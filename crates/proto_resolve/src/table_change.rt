// A change of the files of a table.
use import_graph::{FileNo, NamedFacts, SharedFacts};

/// A change of the files of a table. A file is its number, counted from 0, among all files by path.
#[derive(Drop)]
pub enum TableChange {
    /// A file gets other facts.
    Facts(FileNo, SharedFacts),
    /// A file comes, and gets this number: those from there on have one more then.
    Added(FileNo, NamedFacts),
    /// The file of this number leaves: those behind it have one less then.
    Removed(FileNo),
}
