// Answers, and the replies to questions.
ghost use Rattle.std.specs.Prelude.{◌≡◌, [], ◌∷◌, map, IfOk};
ghost use Rattle.serde_json.specs.Written.{compact_text};
ghost use Rattle.lsp_rpc.specs.Message.{id_view};
ghost use Rattle.lsp_answers.specs.Questions as spec;
ghost use Rattle.lsp_answers.specs.Views.{place_view, question_view};

use crate::names::{places_reply, refused_reply};
use crate::question::{DocumentPlace, Question};
use doc_text::Encoding;
use lsp_rpc::{Id, rename_reply, report_reply, symbols_reply, workspace_reply};
use std::alloc::{AllocError, Global};
use std::marker::Model;
use work_files::Files;
use work_index::Snapshot;
use workspace_uri::Roots;

/// The files of a session with their analysis, about which questions are answered. Contracts see the texts of the roots, the
/// encoding, the files, and the workspace.
#[derive(Drop)]
pub struct Answers<'s> {
    /// Where memory comes from.
    pub alloc: Global,
    /// The folders below which the files have their URIs, except those that were opened.
    pub roots: &'s Roots,
    /// The units in which the positions of all answers count characters.
    pub encoding: Encoding,
    /// The files that the session knows.
    pub files: &'s Files,
    /// Those that have a text, with their analysis.
    pub snapshot: &'s Snapshot<'s>,
}

impl<'s> Model for Answers<'s> {
    ghost use Rattle.workspace_uri.specs.View.{roots_texts};
    ghost use Rattle.lsp_answers.specs.Context.{Context};

    ghost Value = { Context };

    ghost view = { λ a. record { roots = roots_texts a.roots.now; encoding = a.encoding; files = a.files.now; workspace = a.snapshot.now } };
}

impl<'s> Answers<'s> {
    /// The body of the reply to a question, under the id of the request. A path that no file of the workspace has gets the answer of
    /// an empty file: no diagnostics, no places, and a refusal of a rename. An `Err` comes only where memory was refused.
    pub fn reply(&self, id: &Id, question: &Question) -> Result<Vec<u8>, AllocError>
        ensures { IfOk result (λ body. body.items ∷ [] ≡ map compact_text (spec.answer self.now (id_view id.now) (question_view question.now))) }
    {
        match question {
            Question::Diagnostics { path } => self.diagnostics_reply(id, path.as_str()),
            Question::AllDiagnostics => self.all_diagnostics_reply(id),
            Question::Symbols { query } => self.symbols_reply(id, query.as_str()),
            Question::Definition(at) => self.definition_reply(id, at),
            Question::References {
                at,
                include_declaration,
            } => self.references_reply(id, at, *include_declaration),
            Question::Rename { at, new_name } => self.rename_reply(id, at, new_name.as_str()),
        }
    }

    fn diagnostics_reply(&self, id: &Id, path: &str) -> Result<Vec<u8>, AllocError>
        ensures { IfOk result (λ body. body.items ∷ [] ≡ map compact_text (spec.answer self.now (id_view id.now) (spec.Diagnostics path.now))) }
    {
        let found = self.document_diagnostics(path)?;
        let body = report_reply(self.alloc, id, found.as_slice())?;
        Ok(body)
    }

    fn all_diagnostics_reply(&self, id: &Id) -> Result<Vec<u8>, AllocError>
        ensures { IfOk result (λ body. body.items ∷ [] ≡ map compact_text (spec.answer self.now (id_view id.now) spec.AllDiagnostics)) }
    {
        let reports = self.workspace_reports()?;
        let body = workspace_reply(self.alloc, id, reports.as_slice())?;
        Ok(body)
    }

    fn symbols_reply(&self, id: &Id, query: &str) -> Result<Vec<u8>, AllocError>
        ensures { IfOk result (λ body. body.items ∷ [] ≡ map compact_text (spec.answer self.now (id_view id.now) (spec.Symbols query.now))) }
    {
        let found = self.symbols_for(query)?;
        let body = symbols_reply(self.alloc, id, found.as_slice())?;
        Ok(body)
    }

    fn definition_reply(&self, id: &Id, at: &DocumentPlace) -> Result<Vec<u8>, AllocError>
        ensures { IfOk result (λ body. body.items ∷ [] ≡ map compact_text (spec.answer self.now (id_view id.now) (spec.Definition (place_view at.now)))) }
    {
        let found = self.definition_at(at)?;
        let body = places_reply(self.alloc, id, found)?;
        Ok(body)
    }

    fn references_reply(
        &self,
        id: &Id,
        at: &DocumentPlace,
        include_declaration: bool,
    ) -> Result<Vec<u8>, AllocError>
        ensures { IfOk result (λ body. body.items ∷ [] ≡ map compact_text (spec.answer self.now (id_view id.now) (spec.References (place_view at.now) include_declaration))) }
    {
        let found = self.references_at(at, include_declaration)?;
        let body = places_reply(self.alloc, id, found)?;
        Ok(body)
    }

    fn rename_reply(
        &self,
        id: &Id,
        at: &DocumentPlace,
        new_name: &str,
    ) -> Result<Vec<u8>, AllocError>
        ensures { IfOk result (λ body. body.items ∷ [] ≡ map compact_text (spec.answer self.now (id_view id.now) (spec.Rename (place_view at.now) new_name.now))) }
    {
        match self.edits_at(at, new_name) {
            Ok(documents) => rename_reply(self.alloc, id, documents, new_name),
            Err(fault) => refused_reply(self.alloc, id, fault),
        }
    }
}
