// The notifications that publish what is wrong in the open documents.
ghost use Rattle.std.specs.Prelude.{◌≡◌, ◌++◌, ◌∷◌, [], map, IfOk, OnOk};
ghost use Rattle.serde_json.specs.Written.{compact_text};
ghost use Rattle.lsp_rpc.specs.Workspace.{document_view};
ghost use Rattle.work_files.specs.View.{file_view};
ghost use Rattle.lsp_answers.specs.Reports as spec;

use crate::answers::Answers;
use crate::reports::version_of;
use lsp_rpc::{DocumentReport, publication};
use std::alloc::AllocError;
use work_files::FileEntry;

impl<'s> Answers<'s> {
    /// The bodies of the notifications that publish what is wrong in each open document, in the order of the paths, each with the
    /// version of its document and the URI of the last open. An `Err` comes only where memory was refused.
    pub fn publications(&self) -> Result<Vec<Vec<u8>>, AllocError>
        ensures { IfOk result (λ bodies. map (λ body. body.items) bodies.items ≡ map compact_text (spec.publications self.now)) }
    {
        let mut bodies = Vec::new(self.alloc);
        for (path, file) in self.files.by_path().iter() {
            self.publish(&mut bodies, path.as_str(), file)?;
        }
        Ok(bodies)
    }

    // Adds the publication of a file, given its path, if its document is open.
    fn publish(
        &self,
        bodies: &mut Vec<Vec<u8>>,
        path: &str,
        file: &FileEntry,
    ) -> Result<(), AllocError>
        ensures { OnOk result (map (λ body. body.items) bodies.new.items ≡ map (λ body. body.items) bodies.old.items ++ map compact_text (spec.publications_in self.now ((path.now, file_view file.now) ∷ []))) }
    {
        if file.document.is_none() {
            return Ok(());
        }
        let report = self.published_report(path, file)?;
        let body = publication(self.alloc, &report)?;
        bodies.push(body)?;
        Ok(())
    }

    // What is published of a file, given its path.
    fn published_report(
        &self,
        path: &str,
        file: &FileEntry,
    ) -> Result<DocumentReport<'static>, AllocError>
        ensures { IfOk result (λ report. document_view report ≡ spec.published_report self.now (path.now, file_view file.now)) }
    {
        Ok(DocumentReport {
            diagnostics: self.document_diagnostics(path)?,
            uri: self.uri_of_file(path, Some(file))?,
            version: version_of(Some(file)),
        })
    }
}
