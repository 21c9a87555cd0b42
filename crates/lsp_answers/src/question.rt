// What an editor asks about the files of a workspace.

/// A place in a document: its path, and an offset in bytes of its text.
#[derive(Debug, Drop)]
pub struct DocumentPlace {
    /// The document's path.
    pub path: String,
    /// How many bytes of its text stand before the place.
    pub offset: usize,
}

/// A question about the files of a workspace.
#[derive(Debug, Drop)]
pub enum Question {
    /// What is wrong in the document at a path.
    Diagnostics {
        /// The document's path.
        path: String,
    },
    /// What is wrong in all files.
    AllDiagnostics,
    /// Which declarations have a full name that contains a text.
    Symbols {
        /// The text. Each name contains the empty one.
        query: String,
    },
    /// Where the name at a place is declared.
    Definition(DocumentPlace),
    /// Where the name at a place is used.
    References {
        /// Where the name stands.
        at: DocumentPlace,
        /// Whether the declaration is asked for too.
        include_declaration: bool,
    },
    /// What gives the name at a place another name.
    Rename {
        /// Where the name stands.
        at: DocumentPlace,
        /// The name that is to stand in its place.
        new_name: String,
    },
}
