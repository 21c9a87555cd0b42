// The session: what a message changes, and what is left to be answered to it.
ghost use Rattle.std.specs.Prelude.{◌≡◌, ◌++◌, ◌∷◌, [], Err, IfOk, OnOk, OnErr, IsTrue, true, map, string_bytes};
ghost use Rattle.serde_json.specs.View.{view};
ghost use Rattle.serde_json.specs.Written.{compact_text};
ghost use Rattle.lsp_rpc.specs.ClientCapabilities.{default_client};
ghost use Rattle.lsp_rpc.specs.Message.{id_view, message_view};
ghost use Rattle.workspace_uri.specs.View.{roots_texts};
ghost use Rattle.piece_collector.specs.Board.{Records};
ghost use Rattle.work_space.specs.View.{WorkspaceData};
ghost use Rattle.lsp_answers.specs.Questions.{answer};
ghost use Rattle.lsp_answers.specs.Reports.{publications};
ghost use Rattle.lsp_answers.specs.Views.{question_view};
ghost use Rattle.lsp_core.specs.Session as spec;
ghost use Rattle.lsp_core.specs.BoardEvents as on_board;

use crate::pending::Pending;
use crate::phase::Phase;
use crate::reply::{Reply, push, push_all};
use doc_text::Encoding;
use lsp_answers::{Answers, Question};
use lsp_rpc::{
    ClientCapabilities, DocumentReport, ErrorCode, Id, Message, Method, error_reply,
    initialize_reply, null_reply, publication,
};
use piece_collector::BoardFault;
use serde_json::Value;
use std::alloc::{AllocError, Global};
use work_space::Workspace;
use workspace_uri::Roots;

/// A session with an editor, without its files.
#[derive(Drop)]
pub struct Session {
    pub(crate) alloc: Global,
    pub(crate) roots: Roots,
    pub(crate) client: ClientCapabilities,
    phase: Phase,
}

// The publication that nothing is wrong in the document with a URI, which was closed.
fn clearing(alloc: Global, uri: String) -> Result<Vec<u8>, AllocError>
    ensures { IfOk result (λ body. body.items ≡ compact_text (spec.clearing (string_bytes uri))) }
{
    let report = DocumentReport {
        diagnostics: Vec::new(alloc),
        uri,
        version: None,
    };
    publication(alloc, &report)
}

impl Session {
    ghost use Rattle.lsp_core.specs.View.{phase_of, state_of, pending_view, IsExhausted};

    /// The session before its first message.
    pub fn new(alloc: Global, roots: Roots) -> Session
        ensures { (w : WorkspaceData) → state_of result w ≡ record { roots = roots_texts roots; client = default_client; phase = Phase.Uninitialized; files = w.files; reads_others = w.reads_others } }
    {
        Session {
            alloc,
            roots,
            client: ClientCapabilities {
                encoding: Encoding::Utf16,
                pulls_diagnostics: false,
            },
            phase: Phase::Uninitialized,
        }
    }

    /// How far it has come.
    pub fn phase(&self) -> Phase
        ensures { result ≡ phase_of self.now }
    {
        self.phase
    }

    // ---- a message begins

    fn running_request(
        &mut self,
        workspace: &Workspace,
        id: Id,
        method: Option<Method>,
        params: &Value,
    ) -> Result<Pending, AllocError>
        ensures state { OnOk result (state_of self.new workspace.now ≡ (spec.running_request (state_of self.old workspace.now) (id_view id) method (view params.now)).state) }
        ensures pending { IfOk result (λ p. pending_view p ≡ (spec.running_request (state_of self.old workspace.now) (id_view id) method (view params.now)).pending) }
    {
        match method {
            Some(Method::Initialize) => Ok(Pending::refusal(id, ErrorCode::InvalidRequest)),
            Some(Method::Shutdown) => {
                self.phase = Phase::Shut;
                Ok(Pending::Null { id })
            }
            Some(Method::DocumentDiagnostic) => {
                Ok(Pending::asked(id, self.diagnostics_in(workspace, params)?))
            }
            Some(Method::WorkspaceDiagnostic) => Ok(Pending::asked(
                id,
                Some(Question::AllDiagnostics),
            )),
            Some(Method::WorkspaceSymbol) => Ok(Pending::asked(id, self.symbols_in(params)?)),
            Some(Method::Definition) => Ok(Pending::asked(
                id,
                self.definition_in(workspace, params)?,
            )),
            Some(Method::References) => Ok(Pending::asked(
                id,
                self.references_in(workspace, params)?,
            )),
            Some(Method::Rename) => Ok(Pending::asked(id, self.rename_in(workspace, params)?)),
            _ => Ok(Pending::refusal(id, ErrorCode::MethodNotFound)),
        }
    }

    fn request(
        &mut self,
        workspace: &Workspace,
        id: Id,
        method: Option<Method>,
        params: &Value,
    ) -> Result<Pending, AllocError>
        ensures state { OnOk result (state_of self.new workspace.now
            ≡ (spec.requested (phase_of self.old) (state_of self.old workspace.now) (id_view id) method (view params.now)).state) }
        ensures pending { IfOk result (λ p. pending_view p
            ≡ (spec.requested (phase_of self.old) (state_of self.old workspace.now) (id_view id) method (view params.now)).pending) }
    {
        match (self.phase, method) {
            (Phase::Exited { .. }, _) => Ok(Pending::Nothing),
            (Phase::Uninitialized, Some(Method::Initialize)) => {
                let client = ClientCapabilities::from_value(params);
                self.client = client;
                self.phase = Phase::Running;
                Ok(Pending::Capabilities {
                    id,
                    encoding: client.encoding,
                })
            }
            (Phase::Uninitialized, _) => Ok(Pending::refusal(id, ErrorCode::ServerNotInitialized)),
            (Phase::Running, _) => self.running_request(workspace, id, method, params),
            (Phase::Shut, _) => Ok(Pending::refusal(id, ErrorCode::InvalidRequest)),
        }
    }

    fn running_notification(
        &mut self,
        workspace: &mut Workspace,
        method: Option<Method>,
        params: Value,
    ) -> Result<Pending, BoardFault>
        ensures state { OnOk result (state_of self.new workspace.new ≡ spec.running_notification (state_of self.old workspace.old) method (view params)) }
        ensures pending { IfOk result (λ p. pending_view p ≡ spec.running_publishes (state_of self.old workspace.old) method (view params)) }
        ensures board { OnOk result (Records workspace.old.board workspace.new.board (on_board.events_by_method (state_of self.old workspace.old) method (view params) workspace.new.files)) }
        ensures exhausted { result ≡ Err BoardFault.Exhausted → IsExhausted workspace.new.board }
        ensures needed { result ≡ Err BoardFault.Exhausted → on_board.SetsText (on_board.events_by_method (state_of self.old workspace.old) method (view params) (spec.running_notification (state_of self.old workspace.old) method (view params)).files) }
        ensures err { OnErr result (workspace.new.board ≡ workspace.old.board) }
    {
        match method {
            Some(Method::Exit) => {
                self.phase = Phase::Exited {
                    after_shutdown: false,
                };
                Ok(Pending::Nothing)
            }
            Some(Method::DidOpen) => self.open(workspace, params),
            Some(Method::DidChange) => self.change(workspace, params),
            Some(Method::DidSave) => Ok(self.save(workspace, &params)?),
            Some(Method::DidClose) => self.close(workspace, &params),
            _ => Ok(Pending::Nothing),
        }
    }

    fn notification(
        &mut self,
        workspace: &mut Workspace,
        method: Option<Method>,
        params: Value,
    ) -> Result<Pending, BoardFault>
        ensures state { OnOk result (state_of self.new workspace.new
            ≡ spec.notified (phase_of self.old) (state_of self.old workspace.old) method (view params)) }
        ensures pending { IfOk result (λ p. pending_view p
            ≡ spec.publishes (phase_of self.old) (state_of self.old workspace.old) method (view params)) }
        ensures board { OnOk result (Records workspace.old.board workspace.new.board (on_board.events_in_phase (phase_of self.old) (state_of self.old workspace.old) method (view params) workspace.new.files)) }
        ensures exhausted { result ≡ Err BoardFault.Exhausted → IsExhausted workspace.new.board }
        ensures needed { result ≡ Err BoardFault.Exhausted → on_board.SetsText (on_board.events_in_phase (phase_of self.old) (state_of self.old workspace.old) method (view params) (spec.notified (phase_of self.old) (state_of self.old workspace.old) method (view params)).files) }
        ensures err { OnErr result (workspace.new.board ≡ workspace.old.board) }
    {
        match (self.phase, method) {
            (Phase::Running, _) => {
                let client = self.client;
                let pending = self.running_notification(workspace, method, params)?;
                Ok(pending.for_client(client))
            }
            (Phase::Uninitialized, Some(Method::Exit)) => {
                self.phase = Phase::Exited {
                    after_shutdown: false,
                };
                Ok(Pending::Nothing)
            }
            (Phase::Shut, Some(Method::Exit)) => {
                self.phase = Phase::Exited {
                    after_shutdown: true,
                };
                Ok(Pending::Nothing)
            }
            _ => Ok(Pending::Nothing),
        }
    }

    fn receive(
        &mut self,
        workspace: &mut Workspace,
        message: Message,
    ) -> Result<Pending, BoardFault>
        ensures state { OnOk result (state_of self.new workspace.new ≡ (spec.received (state_of self.old workspace.old) (message_view message)).state) }
        ensures pending { IfOk result (λ p. pending_view p ≡ (spec.received (state_of self.old workspace.old) (message_view message)).pending) }
        ensures board { OnOk result (Records workspace.old.board workspace.new.board (on_board.events_of (state_of self.old workspace.old) (message_view message) workspace.new.files)) }
        ensures exhausted { result ≡ Err BoardFault.Exhausted → IsExhausted workspace.new.board }
        ensures needed { result ≡ Err BoardFault.Exhausted → on_board.SetsText (on_board.events_of (state_of self.old workspace.old) (message_view message) (spec.received (state_of self.old workspace.old) (message_view message)).state.files) }
        ensures err { OnErr result (workspace.new.board ≡ workspace.old.board) }
    {
        match message {
            Message::ParseError => Ok(Pending::Refusal {
                id: None,
                code: ErrorCode::ParseError,
            }),
            Message::InvalidRequest { id } => Ok(Pending::Refusal {
                id,
                code: ErrorCode::InvalidRequest,
            }),
            Message::Response => Ok(Pending::Nothing),
            Message::Request { id, method, params } => {
                Ok(self.request(workspace, id, method, &params)?)
            }
            Message::Notification { method, params } => {
                self.notification(workspace, method, params)
            }
        }
    }

    /// Lets a message change the session and its files, and gives what is left to be answered to it.
    pub fn begin(
        &mut self,
        workspace: &mut Workspace,
        message: Message,
    ) -> Result<Pending, BoardFault>
        ensures state { OnOk result (state_of self.new workspace.new ≡ (spec.turn (state_of self.old workspace.old) (message_view message)).state) }
        ensures pending { IfOk result (λ p. pending_view p ≡ (spec.turn (state_of self.old workspace.old) (message_view message)).pending) }
        ensures board { OnOk result (Records workspace.old.board workspace.new.board (on_board.board_events_of (state_of self.old workspace.old) (message_view message))) }

        // No stamp is left only where the last one was given, and the message sets a text.
        ensures exhausted { result ≡ Err BoardFault.Exhausted → IsExhausted workspace.new.board }
        ensures needed { result ≡ Err BoardFault.Exhausted → on_board.SetsText (on_board.board_events_of (state_of self.old workspace.old) (message_view message)) }
        ensures err { OnErr result (workspace.new.board ≡ workspace.old.board) }
    {
        match self.phase {
            Phase::Exited { .. } => Ok(Pending::Nothing),
            _ => self.receive(workspace, message),
        }
    }

    // ---- it finishes

    // The answer to a question about the files.
    fn answer(
        &self,
        workspace: &Workspace,
        id: &Id,
        question: &Question,
    ) -> Result<Vec<u8>, AllocError>
        requires { IsTrue workspace.now.is_current }
        ensures { IfOk result (λ body. body.items ∷ [] ≡ map compact_text (answer (spec.context_of (state_of self.now workspace.now)) (id_view id.now) (question_view question.now))) }
    {
        let snapshot = workspace.snapshot();
        let answers = Answers {
            alloc: self.alloc,
            roots: &self.roots,
            encoding: self.client.encoding,
            files: workspace.files(),
            snapshot: &snapshot,
        };
        answers.reply(id, question)
    }

    // The publications of all open documents.
    fn publications(&self, workspace: &Workspace) -> Result<Vec<Vec<u8>>, AllocError>
        requires { IsTrue workspace.now.is_current }
        ensures { IfOk result (λ bodies. map (λ body. body.items) bodies.items ≡ map compact_text (publications (spec.context_of (state_of self.now workspace.now)))) }
    {
        let snapshot = workspace.snapshot();
        let answers = Answers {
            alloc: self.alloc,
            roots: &self.roots,
            encoding: self.client.encoding,
            files: workspace.files(),
            snapshot: &snapshot,
        };
        answers.publications()
    }

    /// Adds the replies that were left to be given. The files have to be analysed if these need it.
    pub fn finish(
        &self,
        workspace: &Workspace,
        pending: Pending,
        replies: &mut Vec<Reply>,
    ) -> Result<(), AllocError>
        requires { spec.needs_analysis (pending_view pending) ≡ true → IsTrue workspace.now.is_current }
        ensures { OnOk result (replies.new.items ≡ replies.old.items ++ map compact_text (spec.replies_of (state_of self.now workspace.now) (pending_view pending))) }
    {
        match pending {
            Pending::Nothing => Ok(()),
            Pending::Refusal { id, code } => {
                push(replies, error_reply(self.alloc, id.as_ref(), code)?)
            }
            Pending::Capabilities { id, encoding } => {
                push(replies, initialize_reply(self.alloc, &id, encoding)?)
            }
            Pending::Null { id } => push(replies, null_reply(self.alloc, &id)?),
            Pending::Ask { id, question } => push(replies, self.answer(workspace, &id, &question)?),
            Pending::Publish => push_all(replies, self.publications(workspace)?),
            Pending::Clear { uri } => push(replies, clearing(self.alloc, uri)?),
        }
    }
}
