//! Another name for a declaration: the edits that give it, or why it can't have it.
//!
//! [`rename`] answers by [`Edits`], whose places are in bytes; nothing here knows of positions, URIs or the protocol. What a new name
//! changes is said in specs/Renaming.antt, which declarations may have uses that aren't known in specs/UnknownUses.antt, the texts that it makes in
//! specs/Edited.antt, and when it changes the meaning of a name in specs/Bindings.antt of `work_meaning`.
#![tactic(auto)]

mod edited;
mod fault;
mod laws;
mod renaming;
mod unknown_uses;

pub use fault::RenameFault;
pub use laws::{
    full_name_scope_law, identifier_form_law, meaning_law, taken_law, unknown_uses_law,
};
pub use renaming::{Edits, rename};
