//! The files of a workspace by their paths and by the URIs of an editor.
//!
//! The [`Roots`] are the folders that a workspace stands in. They tell where a URI's document is, below one of them or
//! outside, and give a file of the workspace its URI. Nothing here looks at a disk.
#![tactic(auto)]

mod laws;
mod path;
mod root;
mod roots;
mod uri_place;
mod url_text;

pub use laws::{file_uris_lead_back, file_uris_of_several_roots, folders_have_written_roots};
pub use path::is_workspace_path;
pub use roots::Roots;
pub use uri_place::UriPlace;
pub use url_text::escape_path;
