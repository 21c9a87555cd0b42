#![tactic(auto)]
//! What the bodies of a language server's messages mean, and what the bodies of its replies and notifications are:
//! JSON-RPC 2.0, with the methods, params and results of the Language Server Protocol 3.17.
//!
//! `Message::parse` reads a body, `ClientCapabilities`, `DidOpenParams`, `DidChangeParams` and `document_uri` its params, and
//! `report_reply` and its kin write a reply, `publication` a notification, token by token straight into its bytes. Nothing
//! here knows of sessions.

mod body;
mod client_capabilities;
mod diagnostic;
mod encoding;
mod error_code;
mod id;
mod initialize;
mod laws;
mod location;
mod message;
mod method;
mod notification;
mod params;
mod reply;
mod request_params;
mod symbol;
mod workspace;
mod workspace_edit;

pub use client_capabilities::ClientCapabilities;
pub use diagnostic::{Diagnostic, Severity};
pub use error_code::{ErrorCode, RenameRefusal};
pub use id::Id;
pub use laws::{
    batches, diagnostic_text, edit_ranges, edit_uris, encodings, error_text, initialize_text,
    locations_text, notifications, parse_errors, publication_text, pulling, report_text, requests,
    result_text, symbols_text, workspace_edit_text, workspace_text,
};
pub use location::DocumentRanges;
pub use message::Message;
pub use method::Method;
pub use notification::publication;
pub use params::{DidChangeParams, DidOpenParams, VersionedDocument, document_uri};
pub use reply::{
    error_reply, initialize_reply, locations_reply, null_reply, rename_reply, report_reply,
    symbols_reply, workspace_reply,
};
pub use request_params::{DocumentPosition, ReferenceParams, RenameParams, symbol_query};
pub use symbol::{DocumentSymbols, Symbol, SymbolKind};
pub use workspace::DocumentReport;
