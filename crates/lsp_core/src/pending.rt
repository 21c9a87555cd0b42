// What is left to be answered to a message.
ghost use Rattle.std.specs.Prelude.{◌≡◌, Some, [], ◌∷◌, option_map, string_bytes, true, if◌then◌else◌};
ghost use Rattle.lsp_rpc.specs.ClientCapabilities.{client_view};
ghost use Rattle.lsp_rpc.specs.Message.{id_view};
ghost use Rattle.lsp_rpc.specs.Reply.{error_reply};
ghost use Rattle.lsp_answers.specs.Views.{question_view};
ghost use Rattle.lsp_core.specs.Session as spec;

use doc_text::Encoding;
use lsp_answers::Question;
use lsp_rpc::{ClientCapabilities, ErrorCode, Id};

/// What is left to be answered to a message that has begun.
#[derive(Drop)]
pub enum Pending {
    /// Nothing.
    Nothing,
    /// An error, under the id of the request if it has one.
    Refusal { id: Option<Id>, code: ErrorCode },
    /// What the server can do, and how it counts the characters of positions.
    Capabilities { id: Id, encoding: Encoding },
    /// The result `null`.
    Null { id: Id },
    /// The answer to a question about the files.
    Ask { id: Id, question: Question },
    /// What is wrong in each open document.
    Publish,
    /// That nothing is wrong in a document that was closed, under the URI of its last open.
    Clear { uri: String },
}

impl Pending {
    ghost use Rattle.lsp_core.specs.View.{pending_view};

    /// The refusal of a request.
    pub fn refusal(id: Id, code: ErrorCode) -> Pending
        ensures { pending_view result ≡ spec.Now (error_reply (Some (id_view id)) code ∷ []) }
    {
        Pending::Refusal { id: Some(id), code }
    }

    /// What a request asks, or its refusal if it asks nothing.
    pub fn asked(id: Id, question: Option<Question>) -> Pending
        ensures { pending_view result ≡ spec.asked (id_view id) (option_map question_view question) }
    {
        match question {
            Some(question) => Pending::Ask { id, question },
            None => Pending::refusal(id, ErrorCode::InvalidParams),
        }
    }

    /// What is published after a change or a save of a document, by whether that is open.
    pub fn after_change(is_open: bool) -> Pending
        ensures { pending_view result ≡ (if is_open then spec.Publish else spec.Now []) }
    {
        if is_open {
            Pending::Publish
        } else {
            Pending::Nothing
        }
    }

    /// What is published after a close, by the URI that the document had if it was open.
    pub fn cleared(uri: Option<String>) -> Pending
        ensures { pending_view result ≡ spec.cleared (option_map string_bytes uri) }
    {
        match uri {
            Some(uri) => Pending::Clear { uri },
            None => Pending::Nothing,
        }
    }

    /// What is left for this client: nothing is published to one that asks for diagnostics itself.
    pub fn for_client(self, client: ClientCapabilities) -> Pending
        ensures { pending_view result ≡ spec.for_client (client_view client) (pending_view self) }
    {
        if client.pulls_diagnostics {
            Pending::Nothing
        } else {
            self
        }
    }

    /// Whether it can't be answered before the work on each text is there.
    pub fn waits(&self) -> bool
        ensures { result ≡ spec.waits (pending_view self.now) }
    {
        matches!(
            self,
            Pending::Ask { .. } | Pending::Publish | Pending::Clear { .. }
        )
    }

    /// Whether it is answered from an analysis of the files, for which the work on each text has to be there.
    pub fn needs_analysis(&self) -> bool
        ensures needs { result ≡ spec.needs_analysis (pending_view self.now) }
        ensures waits { result ≡ true → spec.waits (pending_view self.now) ≡ true }
    {
        matches!(self, Pending::Ask { .. } | Pending::Publish)
    }
}
