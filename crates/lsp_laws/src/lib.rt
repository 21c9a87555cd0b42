//! Laws of the session's core, of a rename's edits, and of the URIs of files.
//!
//! `board_follows_the_session`: the texts of the board are those of the workspace of the moment, in whatever order work comes.
//! `worked_messages_are_processed`: messages that are each followed by all work get the replies of the sequential session.
//! `files_once`: the places of a rename are put together by their files. `documents_of_a_rename`: the edits of each document
//! give its text the new name at all of the rename's places in it, and change nothing else. `renames_edit_the_workspace`: together
//! they make the workspace of which `rename` says that no meaning changes, and so do the edits that the reply has under the URIs of
//! the files, if no two files have one. `uris_stay_apart`: no two files have one, whatever messages came.
#![tactic(auto)]

mod core_laws;
mod document_laws;
mod uri_laws;

pub use core_laws::{board_follows_the_session, worked_messages_are_processed};
pub use document_laws::{documents_of_a_rename, files_once, renames_edit_the_workspace};
pub use uri_laws::uris_stay_apart;
