// What is known at a path.
ghost use Rattle.std.specs.Prelude.{◌≡◌, IfOk, Some, option_map, string_bytes};
ghost use Rattle.work_files.specs.Files.{text_of, opened_file};
ghost use Rattle.work_files.specs.Steps.{with_new_document, with_new_kept, leaves};
ghost use Rattle.work_files.specs.View.{document_view, file_view};

use crate::document::Document;
use piece_collector::SharedText;
use std::alloc::AllocError;

/// What is known at a path.
#[derive(Drop)]
pub struct FileEntry {
    /// The document that is open there.
    pub document: Option<Document>,
    /// The text that was on disk there at the start, or that was saved last.
    pub kept: Option<SharedText>,
    /// The URI of the last open.
    pub uri: Option<String>,
    /// The number of the root under which the file was found on disk at the start.
    pub root: Option<usize>,
}

impl FileEntry {
    /// The open text, or else the kept one.
    pub fn text(&self) -> Option<&str>
        ensures { option_map (λ t. t.now) result ≡ text_of (file_view self.now) }
    {
        match &self.document {
            Some(document) => Some(document.text.as_str()),
            None => Some(self.kept.as_ref()?.as_str()),
        }
    }

    /// The same text, shared for a board. An `Err` comes only where it is shared 2 to the power of 63 times.
    pub fn shared_text(&self) -> Result<Option<SharedText>, AllocError>
        ensures { IfOk result (λ text. text ≡ text_of (file_view self.now)) }
    {
        match (&self.document, &self.kept) {
            (Some(document), _) => Ok(Some(document.text.another()?)),
            (None, Some(kept)) => Ok(Some(kept.another()?)),
            (None, None) => Ok(None),
        }
    }

    /// Opens a document in the place of one that is open, and notes its URI. The kept text stays.
    pub fn open(&mut self, uri: String, document: Document)
        ensures { file_view self.new ≡ opened_file (string_bytes uri) (document_view document) (file_view self.old) }
    {
        self.document = Some(document);
        self.uri = Some(uri);
    }

    /// Puts another document in the place of the one that is open. If none is, nothing changes.
    pub fn set_document(&mut self, document: Document)
        ensures { file_view self.new ≡ with_new_document (document_view document) (file_view self.old) (file_view self.old).document }
    {
        if self.document.is_some() {
            self.document = Some(document);
        }
    }

    /// Keeps a text if a document is open.
    pub fn keep(&mut self, text: SharedText)
        ensures { file_view self.new ≡ with_new_kept text (file_view self.old) (file_view self.old).document }
    {
        if self.document.is_some() {
            self.kept = Some(text);
        }
    }

    /// Closes the document, and says whether one was open and no text is kept.
    pub fn close(&mut self) -> bool
        ensures leaves { result ≡ leaves (Some (file_view self.old)) }
        ensures closed { file_view self.new ≡ record (file_view self.old) { document = None } }
    {
        let leaves = self.document.is_some() && self.kept.is_none();
        self.document = None;
        leaves
    }
}
