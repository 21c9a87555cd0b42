//! The `.proto` files of folders and of the folders below them, as the file system has them.
#![tactic(auto)]

mod fault;
mod found;
mod listing;
mod queue;
mod reader;
mod skipping;
mod walk;

pub use fault::FolderFault;
pub use found::FoundFile;
pub use reader::FolderReader;
pub use walk::read_folders;
