// The facts of a file.
use crate::name::Name;
use crate::shared_facts::SharedFacts;

/// A file of the workspace: its path, and what its text says by itself.
#[derive(Drop)]
pub struct NamedFacts {
    /// The path in UTF-8 from the workspace's root, its parts joined by `/`; one that begins with `/` is of a file outside,
    /// which no import names.
    pub path: Name,
    /// The facts of the file's text.
    pub facts: SharedFacts,
}
