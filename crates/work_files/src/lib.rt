//! The files that an editor's session knows: the documents that are open, and the texts that are kept for their paths.
//!
//! [`Files`] are made of the files on disk. Documents are opened in them, edited, saved and closed. Offsets are in bytes; nothing here knows how an
//! editor writes them.
#![tactic(auto)]

mod disk;
mod document;
mod entry;
mod files;
mod laws;

pub use disk::DiskFile;
pub use document::{Document, VersionedChanges};
pub use entry::FileEntry;
pub use files::Files;
pub use laws::{
    documents_change_one_text, files_in_path_order_are_apart, files_stay_in_path_order, roots_stay,
    texts_are_of_the_workspace,
};
