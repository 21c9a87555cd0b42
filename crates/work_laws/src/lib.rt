//! Laws of whole workspaces and of the edits of a rename.
//!
//! `uses_of_names`: which uses the names of the files of a workspace have.
//! `edits_change_the_places`: changes that give a new text to places that don't touch change these places and nothing else.
//! `renames_change_the_names`: so do the changes of a rename.
#![tactic(auto)]

mod edit_laws;
mod use_laws;

pub use edit_laws::{edits_change_the_places, renames_change_the_names};
pub use use_laws::uses_of_names;
