//! What is known of a workspace: texts in, facts, names and diagnostics out.
//!
//! [`FileWork`] is the work on one file, whose product stands for its text; [`analyse_here`] links the products of all files on the calling thread. What
//! the analysis of a workspace is, is defined in specs/Workspace.antt as a function of the list of paths and texts, with the choice whether texts that
//! aren't proto3 are read for what they declare; the products save time and take no part in it. An analysis is made of [`AnalysisParts`], by which the
//! crates above bring it up to other texts, and have several threads make it, each of which links a run of the files ([`link_files`], [`diagnose_files`]).
#![tactic(auto)]

mod analyse;
mod analysis;
mod done;
mod file_tables;
mod file_work;
mod gate;
mod shared_links;
mod snapshot;
mod source_file;

pub use analyse::{
    analyse_here, diagnose_files, diagnostics_of, files_of, link_files, push_found, resolution_of,
};
pub use analysis::{Analysis, AnalysisParts, Resolutions};
pub use done::Done;
pub use file_tables::{all_facts, named_facts, table_of};
pub use file_work::{FileOut, FileWork, KnownText, facts_in, known_in, tree_in, tree_of};
pub use gate::{Gate, OpenGate};
pub use shared_links::SharedLinks;
pub use snapshot::Snapshot;
pub use source_file::SourceFile;
