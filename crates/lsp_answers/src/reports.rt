// The diagnostics of documents, as the editor gets them.
ghost use Rattle.std.specs.Prelude.{◌≡◌, ◌<◌, length, map, option_map, slice_index_or, string_bytes, IfOk};
ghost use Rattle.std.specs.List.{enumerate_from};
ghost use Rattle.lsp_rpc.specs.Diagnostic.{diagnostic_view};
ghost use Rattle.lsp_rpc.specs.Workspace.{document_view};
ghost use Rattle.work_index.specs.Workspace.{analysis, diags_at, no_file};
ghost use Rattle.work_files.specs.Files.{file_at};
ghost use Rattle.work_files.specs.View.{file_view};
ghost use Rattle.lsp_answers.specs.Reports as spec;

use crate::answers::Answers;
use crate::diagnostics::placed;
use lsp_queries::report;
use lsp_rpc::{Diagnostic, DocumentReport};
use proto_decls::Diag;
use std::alloc::AllocError;
use work_files::FileEntry;
use work_index::Snapshot;

// What is wrong in the file with a path; nothing where there is none.
fn diagnostics_at<'s>(snapshot: &Snapshot<'s>, path: &str) -> &'s [Diag]
    ensures { result.now ≡ diags_at (analysis snapshot.now) path.now }
{
    match snapshot.number_of(path) {
        Some(number) => report(snapshot.analysis(), number),
        None => &[],
    }
}

// The version of the document of a file, if one is open.
pub fn version_of(file: Option<&FileEntry>) -> Option<i64>
    ensures { result ≡ spec.version_of (option_map (λ f. file_view f.now) file.entry) }
{
    match &file?.document {
        Some(document) => Some(document.version),
        None => None,
    }
}

impl<'s> Answers<'s> {
    // The file at a path; `None` where there is none.
    fn file_at(&self, path: &str) -> Option<&'s FileEntry>
        ensures { option_map (λ f. file_view f.now) result ≡ file_at path.now self.now.files }
    {
        self.files.get(path)
    }

    // The text of the file at a path; empty if it has none.
    fn document_text(&self, path: &str) -> &'s str
        ensures { result.now ≡ spec.document_text self.now path.now }
    {
        let Some(file) = self.file_at(path) else {
            return "";
        };
        match file.text() {
            Some(text) => text,
            None => "",
        }
    }

    // What is wrong in the document at a path, by start, end, number and words.
    pub(crate) fn document_diagnostics(
        &self,
        path: &str,
    ) -> Result<Vec<Diagnostic<'static>>, AllocError>
        ensures { IfOk result (λ found. map diagnostic_view found.items ≡ spec.document_diagnostics self.now path.now) }
    {
        let diags = diagnostics_at(self.snapshot, path);
        let text = self.document_text(path);
        let found = placed(self.alloc, self.encoding, text, diags)?;
        Ok(found)
    }

    // The URI of the last open of a file, given its path, or else that of the path below the root under which it was found.
    pub(crate) fn uri_of_file(
        &self,
        path: &str,
        file: Option<&FileEntry>,
    ) -> Result<String, AllocError>
        ensures { IfOk result (λ uri. string_bytes uri ≡ spec.uri_of self.now.roots path.now (option_map (λ f. file_view f.now) file.entry)) }
    {
        let Some(file) = file else {
            return self.roots.uri_of(self.alloc, None, path);
        };
        match &file.uri {
            Some(uri) => String::from_str(self.alloc, uri.as_str()),
            None => self.roots.uri_of(self.alloc, file.root, path),
        }
    }

    // The URI of the last open of the file at a path, or else that of the path below the root under which it was found.
    pub(crate) fn uri_of(&self, path: &str) -> Result<String, AllocError>
        ensures { IfOk result (λ uri. string_bytes uri ≡ spec.uri_of self.now.roots path.now (file_at path.now self.now.files)) }
    {
        self.uri_of_file(path, self.file_at(path))
    }

    // The report of a file, given its path and its text, and what is wrong in it.
    fn report_of(
        &self,
        file: (&str, &str),
        diags: &[Diag],
    ) -> Result<DocumentReport<'static>, AllocError>
        ensures { IfOk result (λ report. document_view report ≡ spec.report_of self.now diags.now (file.entry.0.now, file.entry.1.now)) }
    {
        let (path, text) = file;
        Ok(DocumentReport {
            diagnostics: placed(self.alloc, self.encoding, text, diags)?,
            uri: self.uri_of(path)?,
            version: version_of(self.file_at(path)),
        })
    }

    // The report of a file of the workspace, given its number.
    fn numbered_report(&self, number: usize) -> Result<DocumentReport<'static>, AllocError>
        requires { number < length self.now.workspace }
        ensures { IfOk result (λ found. document_view found ≡ spec.numbered_report self.now (number, slice_index_or self.now.workspace number no_file)) }
    {
        let snapshot = self.snapshot;
        let file = (snapshot.path(number), snapshot.text(number));
        let diags = report(snapshot.analysis(), number);
        self.report_of(file, diags)
    }

    // The reports of all files of the workspace, by path.
    pub(crate) fn workspace_reports(&self) -> Result<Vec<DocumentReport<'static>>, AllocError>
        ensures { IfOk result (λ reports. map document_view reports.items ≡ spec.workspace_reports self.now) }
    {
        let mut reports = Vec::new(self.alloc);
        for number in 0..self.file_count() {
            reports.push(self.numbered_report(number)?)?;
        }
        Ok(reports)
    }

    // How many files the workspace has.
    fn file_count(&self) -> usize
        ensures { result ≡ length self.now.workspace }
    {
        self.snapshot.file_count()
    }
}
