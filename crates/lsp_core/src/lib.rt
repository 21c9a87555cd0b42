//! What a session with an editor keeps, and what it replies (Language Server Protocol 3.17). It knows no streams.
//!
//! A [`Core`] takes the bodies of messages and gives the bodies of replies. It gives a [`Job`] for each text, and takes what is made of it in any order.
//! Requests about files wait until all work is there, and so does each notification after which diagnostics are published, to an editor that doesn't ask
//! for them.
#![tactic(auto)]

mod documents;
mod laws;
mod pending;
mod phase;
mod questions;
mod reply;
mod session;
mod session_core;
mod step;

pub use laws::{
    client_stays, documents_are_of_the_workspace, files_are_in_path_order, publications_agree,
    reports_agree,
};
pub use lsp_answers::reports_agree_with_documents;
pub use piece_collector::{Job, Piece, Verdict};
pub use reply::Reply;
pub use session_core::Core;
pub use work_config::{Config, CoreFault, DiskFile};
pub use work_index::{Done, FileWork, Gate, OpenGate};
