// What an editor asks about the files of a session.
ghost use Rattle.std.specs.Prelude.{◌≡◌, IfOk, option_map};
ghost use Rattle.serde_json.specs.View.{view};
ghost use Rattle.lsp_rpc.specs.RequestParams as wire;
ghost use Rattle.lsp_rpc.specs.declared.method.Method.TheVariants as method;
ghost use Rattle.work_files.specs.Files.{text_at};
ghost use Rattle.lsp_answers.specs.Questions.{Symbols};
ghost use Rattle.lsp_answers.specs.Views.{place_view, question_view};
ghost use Rattle.lsp_core.specs.Session as spec;

use crate::session::Session;
use doc_text::offset_of;
use lsp_answers::{DocumentPlace, Question};
use lsp_rpc::{DocumentPosition, ReferenceParams, RenameParams, symbol_query};
use serde_json::Value;
use std::alloc::AllocError;
use work_space::Workspace;

// The text at a path, if it is one of the workspace.
fn text_at<'w>(workspace: &'w Workspace, path: &str) -> Option<&'w str>
    ensures { option_map (λ t. t.now) result ≡ text_at path.now workspace.now.files }
{
    workspace.files().get(path)?.text()
}

impl Session {
    ghost use Rattle.lsp_core.specs.View.{state_of};

    // The path of a document of the workspace, and the offset of a position in it.
    fn place_in(
        &self,
        workspace: &Workspace,
        at: DocumentPosition<'_>,
    ) -> Result<Option<DocumentPlace>, AllocError>
        ensures { IfOk result (λ o. option_map place_view o ≡ spec.place_in (state_of self.now workspace.now) (wire.place_view at.entry)) }
    {
        let Some(path) = self.path_of(workspace, at.uri)? else {
            return Ok(None);
        };
        match text_at(workspace, path.as_str()) {
            Some(text) => {
                let offset = offset_of(text, at.position, self.client.encoding);
                Ok(Some(DocumentPlace { path, offset }))
            }
            None => Ok(None),
        }
    }

    // What `textDocument/diagnostic` asks.
    pub(crate) fn diagnostics_in(
        &self,
        workspace: &Workspace,
        params: &Value,
    ) -> Result<Option<Question>, AllocError>
        ensures { IfOk result (λ o. option_map question_view o ≡ spec.question (state_of self.now workspace.now) method.DocumentDiagnostic (view params.now)) }
    {
        let Some(path) = self.path_in(workspace, params)? else {
            return Ok(None);
        };
        match text_at(workspace, path.as_str()) {
            Some(_) => Ok(Some(Question::Diagnostics { path })),
            None => Ok(None),
        }
    }

    // What `workspace/symbol` asks.
    pub(crate) fn symbols_in(&self, params: &Value) -> Result<Option<Question>, AllocError>
        ensures { IfOk result (λ o. option_map question_view o ≡ option_map Symbols (wire.query_of (view params.now))) }
    {
        match symbol_query(params) {
            Some(query) => Ok(Some(Question::Symbols {
                query: String::from_str(self.alloc, query)?,
            })),
            None => Ok(None),
        }
    }

    // What `textDocument/definition` asks.
    pub(crate) fn definition_in(
        &self,
        workspace: &Workspace,
        params: &Value,
    ) -> Result<Option<Question>, AllocError>
        ensures { IfOk result (λ o. option_map question_view o ≡ spec.question (state_of self.now workspace.now) method.Definition (view params.now)) }
    {
        let Some(position) = DocumentPosition::from_value(params) else {
            return Ok(None);
        };
        match self.place_in(workspace, position)? {
            Some(at) => Ok(Some(Question::Definition(at))),
            None => Ok(None),
        }
    }

    // What `textDocument/references` asks.
    pub(crate) fn references_in(
        &self,
        workspace: &Workspace,
        params: &Value,
    ) -> Result<Option<Question>, AllocError>
        ensures { IfOk result (λ o. option_map question_view o ≡ spec.question (state_of self.now workspace.now) method.References (view params.now)) }
    {
        let Some(asked) = ReferenceParams::from_value(params) else {
            return Ok(None);
        };
        match self.place_in(workspace, asked.place)? {
            Some(at) => Ok(Some(Question::References {
                at,
                include_declaration: asked.include_declaration,
            })),
            None => Ok(None),
        }
    }

    // What `textDocument/rename` asks.
    pub(crate) fn rename_in(
        &self,
        workspace: &Workspace,
        params: &Value,
    ) -> Result<Option<Question>, AllocError>
        ensures { IfOk result (λ o. option_map question_view o ≡ spec.question (state_of self.now workspace.now) method.Rename (view params.now)) }
    {
        let Some(asked) = RenameParams::from_value(params) else {
            return Ok(None);
        };
        match self.place_in(workspace, asked.place)? {
            Some(at) => Ok(Some(Question::Rename {
                at,
                new_name: String::from_str(self.alloc, asked.new_name)?,
            })),
            None => Ok(None),
        }
    }
}
