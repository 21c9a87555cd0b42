//! A session with an editor over streams (Language Server Protocol 3.17).
//!
//! [`serve`] reads the messages from a stream of frames, gives them to a [`Core`], lets workers do the work, and writes the replies to another stream,
//! until the editor ends the session or the stream ends. [`check`] lists what is wrong in the files of a configuration, without an editor.
#![tactic(auto)]

mod dispatch;
mod ended;
mod laws;
mod serving;
mod taking;
mod threading;

pub use ended::Ended;
pub use laws::nothing_follows_an_exit;
pub use lsp_core::{
    Core, Reply, client_stays, documents_are_of_the_workspace, files_are_in_path_order,
    publications_agree, reports_agree, reports_agree_with_documents,
};
pub use piece_collector::{Job, Piece, Verdict};
pub use serving::serve;
pub use work_check::check;
pub use work_config::{Config, CoreFault, DiskFile, ServeFault};
pub use work_index::{Done, FileWork, Gate, OpenGate};
