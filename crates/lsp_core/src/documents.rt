// Documents of a session: their paths, and what the editor does to them.
ghost use Rattle.std.specs.Prelude.{◌≡◌, ◌∷◌, [], Err, IfOk, OnOk, OnErr, option_map, string_bytes};
ghost use Rattle.serde_json.specs.View.{view};
ghost use Rattle.lsp_rpc.specs.Params.{opened_of, changed_of};
ghost use Rattle.work_files.specs.Files.{root_at};
ghost use Rattle.piece_collector.specs.Board.{Records};
ghost use Rattle.work_space.specs.BoardTexts.{event_at, events_at};
ghost use Rattle.lsp_core.specs.Session as spec;
ghost use Rattle.lsp_core.specs.BoardEvents as on_board;

use crate::pending::Pending;
use crate::session::Session;
use lsp_rpc::{DidChangeParams, DidOpenParams, document_uri};
use piece_collector::{BoardFault, SharedText};
use serde_json::Value;
use std::alloc::{AllocError, Global};
use work_files::{Document, Files, VersionedChanges};
use work_space::Workspace;

// The number of the root under which the file at a path was found on disk.
fn root_at(workspace: &Workspace, path: &str) -> Option<usize>
    ensures { result ≡ root_at workspace.now.files path.now }
{
    workspace.files().get(path)?.root
}

// The URI of the last open of the document at a path, if it is open.
fn open_uri(alloc: Global, files: &Files, path: &str) -> Result<Option<String>, AllocError>
    ensures { IfOk result (λ uri. option_map string_bytes uri ≡ spec.open_uri files.now path.now) }
{
    if !files.is_open(path) {
        return Ok(None);
    }
    let Some(file) = files.get(path) else {
        return Ok(None);
    };
    match &file.uri {
        Some(uri) => Ok(Some(String::from_str(alloc, uri.as_str())?)),
        None => Ok(None),
    }
}

impl Session {
    ghost use Rattle.lsp_core.specs.View.{state_of, pending_view, IsExhausted};

    // The path of the document with a URI, unless that is no URL.
    pub(crate) fn path_of(
        &self,
        workspace: &Workspace,
        uri: &str,
    ) -> Result<Option<String>, AllocError>
        ensures { IfOk result (λ o. option_map string_bytes o ≡ spec.path_of (state_of self.now workspace.now) uri.now) }
    {
        let Some(place) = self.roots.place_of(self.alloc, uri)? else {
            return Ok(None);
        };
        let owner = match place.path_below() {
            Some(path) => root_at(workspace, path),
            None => None,
        };
        Ok(Some(place.into_path(owner)))
    }

    // The path of the document that the params name, unless its URI is no URL.
    pub(crate) fn path_in(
        &self,
        workspace: &Workspace,
        params: &Value,
    ) -> Result<Option<String>, AllocError>
        ensures { IfOk result (λ o. option_map string_bytes o ≡ spec.path_in (state_of self.now workspace.now) (view params.now)) }
    {
        match document_uri(params) {
            Some(uri) => self.path_of(workspace, uri),
            None => Ok(None),
        }
    }

    // Opens a document, and gives what is to be published.
    pub(crate) fn open(
        &self,
        workspace: &mut Workspace,
        params: Value,
    ) -> Result<Pending, BoardFault>
        ensures state { OnOk result (state_of self.now workspace.new ≡ spec.opened (state_of self.now workspace.old) (opened_of (view params))) }
        ensures pending { IfOk result (λ p. pending_view p ≡ spec.after_open (spec.opened_path (state_of self.now workspace.old) (view params))) }
        ensures board { OnOk result (Records workspace.old.board workspace.new.board (on_board.events_for_path (λ path. event_at path workspace.new.files ∷ []) (spec.opened_path (state_of self.now workspace.old) (view params)))) }
        ensures exhausted { result ≡ Err BoardFault.Exhausted → IsExhausted workspace.new.board }
        ensures needed { result ≡ Err BoardFault.Exhausted → on_board.SetsText (on_board.events_for_path (λ path. event_at path (spec.opened (state_of self.now workspace.old) (opened_of (view params))).files ∷ []) (spec.opened_path (state_of self.now workspace.old) (view params))) }
        ensures err { OnErr result (workspace.new.board ≡ workspace.old.board) }
    {
        let Some(opened) = DidOpenParams::from_value(params) else {
            return Ok(Pending::Nothing);
        };
        let Some(path) = self.path_of(workspace, opened.uri.as_str())? else {
            return Ok(Pending::Nothing);
        };
        let document = Document {
            version: opened.version,
            text: SharedText::shared(self.alloc, opened.text)?,
        };
        workspace.open(path.as_str(), opened.uri, document)?;
        Ok(Pending::Publish)
    }

    // Changes a document that is open, and gives what is to be published.
    pub(crate) fn change(
        &self,
        workspace: &mut Workspace,
        params: Value,
    ) -> Result<Pending, BoardFault>
        ensures state { OnOk result (state_of self.now workspace.new ≡ spec.changed (state_of self.now workspace.old) (changed_of (view params))) }
        ensures pending { IfOk result (λ p. pending_view p ≡ spec.after_change workspace.old.files (spec.changed_path (state_of self.now workspace.old) (view params))) }
        ensures board { OnOk result (Records workspace.old.board workspace.new.board (on_board.events_for_path (λ path. events_at path workspace.old.files workspace.new.files) (spec.changed_path (state_of self.now workspace.old) (view params)))) }
        ensures exhausted { result ≡ Err BoardFault.Exhausted → IsExhausted workspace.new.board }
        ensures needed { result ≡ Err BoardFault.Exhausted → on_board.SetsText (on_board.events_for_path (λ path. events_at path workspace.old.files (spec.changed (state_of self.now workspace.old) (changed_of (view params))).files) (spec.changed_path (state_of self.now workspace.old) (view params))) }
        ensures err { OnErr result (workspace.new.board ≡ workspace.old.board) }
    {
        let Some(changed) = DidChangeParams::from_value(self.alloc, params)? else {
            return Ok(Pending::Nothing);
        };
        let Some(path) = self.path_of(workspace, changed.document.uri.as_str())? else {
            return Ok(Pending::Nothing);
        };
        let encoding = self.client.encoding;
        let edits = VersionedChanges {
            version: changed.document.version,
            encoding,
            changes: changed.changes,
        };
        let is_open = workspace.files().is_open(path.as_str());
        workspace.change(path.as_str(), edits)?;
        Ok(Pending::after_change(is_open))
    }

    // Keeps the text of a document that is open, and gives what is to be published.
    pub(crate) fn save(
        &self,
        workspace: &mut Workspace,
        params: &Value,
    ) -> Result<Pending, AllocError>
        ensures state { OnOk result (state_of self.now workspace.new ≡ spec.saved (state_of self.now workspace.old) (view params.now)) }
        ensures pending { IfOk result (λ p. pending_view p ≡ spec.after_change workspace.old.files (spec.path_in (state_of self.now workspace.old) (view params.now))) }
        ensures board { workspace.new.board ≡ workspace.old.board }
    {
        let Some(path) = self.path_in(workspace, params)? else {
            return Ok(Pending::Nothing);
        };
        let is_open = workspace.files().is_open(path.as_str());
        workspace.save(path.as_str())?;
        Ok(Pending::after_change(is_open))
    }

    // Closes a document that is open, and gives what is to be published.
    pub(crate) fn close(
        &self,
        workspace: &mut Workspace,
        params: &Value,
    ) -> Result<Pending, BoardFault>
        ensures state { OnOk result (state_of self.now workspace.new ≡ spec.closed (state_of self.now workspace.old) (view params.now)) }
        ensures pending { IfOk result (λ p. pending_view p ≡ spec.after_close workspace.old.files (spec.path_in (state_of self.now workspace.old) (view params.now))) }
        ensures board { OnOk result (Records workspace.old.board workspace.new.board (on_board.events_for_path (λ path. events_at path workspace.old.files workspace.new.files) (spec.path_in (state_of self.now workspace.old) (view params.now)))) }
        ensures exhausted { result ≡ Err BoardFault.Exhausted → IsExhausted workspace.new.board }
        ensures needed { result ≡ Err BoardFault.Exhausted → on_board.SetsText (on_board.events_for_path (λ path. events_at path workspace.old.files (spec.closed (state_of self.now workspace.old) (view params.now)).files) (spec.path_in (state_of self.now workspace.old) (view params.now))) }
        ensures err { OnErr result (workspace.new.board ≡ workspace.old.board) }
    {
        let Some(path) = self.path_in(workspace, params)? else {
            return Ok(Pending::Nothing);
        };
        let uri = open_uri(self.alloc, workspace.files(), path.as_str())?;
        workspace.close(path.as_str())?;
        Ok(Pending::cleared(uri))
    }
}
