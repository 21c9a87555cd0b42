// The files by their paths.
ghost use Rattle.std.specs.Prelude.{◌≡◌, ℕ, List, [], OnOk, OnErr, IfOk, map, option_map, option_and_then, string_bytes, IsSome};
ghost use Rattle.doc_text.specs.Edits.{change_view};
ghost use Rattle.work_files.specs.Disk.{disk_view};
ghost use Rattle.work_files.specs.Files.{file_at, text_at, with_file, without_file, disk_file, from_disk, opened_files, edited_all, closed_files, AreInPathOrder};
ghost use Rattle.work_files.specs.Steps.{with_room, with_document_at, with_kept_at, leaves, with_none_open};
ghost use Rattle.work_files.specs.Texts.{open_document, is_open};
ghost use Rattle.work_files.specs.View.{document_view, file_view, files_view};

use crate::disk::DiskFile;
use crate::document::{self, Document, VersionedChanges};
use crate::entry::FileEntry;
use piece_collector::SharedText;
use std::alloc::{AllocError, Global};
use std::collections::BTreeMap;
use std::marker::Model;

/// The files by their paths: the documents that are open, and the texts that are kept. Contracts see a list, in the order of the paths' bytes.
#[derive(Drop)]
pub struct Files {
    by_path: BTreeMap<String, FileEntry>,
}

impl Model for Files {
    ghost use Rattle.work_files.specs.Files as spec;
    ghost use Rattle.work_files.specs.View.{files_view};

    ghost Value = { spec.Files };

    ghost view = { λ f. files_view f.by_path.entries };
}

impl Files {
    /// No files. Takes no memory.
    pub fn new(alloc: Global) -> Files
        ensures { result ≡ [] }
    {
        Files {
            by_path: BTreeMap::new(alloc),
        }
    }

    /// The files on disk by their paths. Of two files with one path the earlier counts. An `Err` comes only where memory was
    /// refused.
    pub fn from_disk(alloc: Global, files: Vec<DiskFile>) -> Result<Files, AllocError>
        ensures { IfOk result (λ found. found ≡ from_disk (map disk_view files.items)) }
    {
        let mut files = files;
        let mut found = Files::new(alloc);
        'files: while let Some(file) = files.pop() {
            found.put_disk_file(alloc, file)?;
        }
        Ok(found)
    }

    // Puts a file under a path, in the place of one that is there.
    fn put(&mut self, path: String, file: FileEntry) -> Result<(), AllocError>
        ensures ok { OnOk result (self.new ≡ with_file (string_bytes path) (file_view file) self.old) }
        ensures err { OnErr result (self.new ≡ self.old) }
    {
        self.by_path.insert(path, file)?;
        Ok(())
    }

    // Puts a file on disk under its path, in the place of one that is there.
    fn put_disk_file(&mut self, alloc: Global, file: DiskFile) -> Result<(), AllocError>
        ensures { OnOk result (self.new ≡ with_file (string_bytes file.path) (disk_file file.root (string_bytes file.text)) self.old) }
    {
        let entry = FileEntry {
            document: None,
            kept: Some(SharedText::shared(alloc, file.text)?),
            uri: None,
            root: Some(file.root),
        };
        self.put(file.path, entry)
    }

    /// All files by their paths. Takes no memory.
    pub fn by_path(&self) -> &BTreeMap<String, FileEntry>
        ensures { files_view result.now.entries ≡ self.now }
    {
        &self.by_path
    }

    /// The file at a path; `None` where there is none. Takes no memory.
    pub fn get(&self, path: &str) -> Option<&FileEntry>
        ensures { option_map (λ f. file_view f.now) result ≡ file_at path.now self.now }
    {
        self.by_path.get(path)
    }

    // The document that is open at a path.
    fn document_at(&self, path: &str) -> Option<&Document>
        ensures { option_map (λ d. document_view d.now) result ≡ open_document path.now self.now }
    {
        self.get(path)?.document.as_ref()
    }

    /// Whether a document is open at a path.
    pub fn is_open(&self, path: &str) -> bool
        ensures { result ≡ is_open path.now self.now }
    {
        self.document_at(path).is_some()
    }

    /// The text that is kept for a path, shared; `None` if none is. Takes no memory. An `Err` comes only where it is shared 2 to the power of 63
    /// times.
    pub fn shared_kept(&self, path: &str) -> Result<Option<SharedText>, AllocError>
        ensures { IfOk result (λ text. text ≡ option_and_then (λ f. f.kept) (file_at path.now self.now)) }
    {
        let Some(file) = self.get(path) else {
            return Ok(None);
        };
        match &file.kept {
            Some(kept) => Ok(Some(kept.another()?)),
            None => Ok(None),
        }
    }

    /// The text of the document that is open at a path, shared; `None` where none is open. Takes no memory. An `Err` comes only where it is shared 2
    /// to the power of 63 times.
    pub fn shared_open_text(&self, path: &str) -> Result<Option<SharedText>, AllocError>
        ensures { IfOk result (λ text. text ≡ option_map (λ d. d.text) (open_document path.now self.now)) }
    {
        let Some(document) = self.document_at(path) else {
            return Ok(None);
        };
        Ok(Some(document.text.another()?))
    }

    /// The document that is open at a path with these edits made, each change at places of the text that those before it leave;
    /// `None` where none is open. An `Err` comes only where memory was refused.
    pub fn edited(
        &self,
        alloc: Global,
        path: &str,
        edits: VersionedChanges,
    ) -> Result<Option<Document>, AllocError>
        ensures { IfOk result (λ document. option_map document_view document
            ≡ option_map (λ d. record { version = edits.version; text = edited_all edits.encoding (map change_view edits.changes.items) d.text }) (open_document path.now self.now)) }
    {
        let Some(document) = self.document_at(path) else {
            return Ok(None);
        };
        let edited = document::edited(alloc, document, edits)?;
        Ok(Some(edited))
    }

    /// Puts a file without a text at a path where there is none. An `Err` comes only where memory was refused. The texts stay
    /// as they are in any case.
    pub fn make_room(&mut self, alloc: Global, path: &str) -> Result<(), AllocError>
        ensures room { OnOk result (self.new ≡ with_room path.now self.old) }
        ensures texts { (q : List ℕ) → text_at q self.new ≡ text_at q self.old }
        ensures ordered { AreInPathOrder self.old → AreInPathOrder self.new }
    {
        if self.get(path).is_some() {
            return Ok(());
        }
        let entry = FileEntry {
            document: None,
            kept: None,
            uri: None,
            root: None,
        };
        self.put(String::from_str(alloc, path)?, entry)
    }

    /// Opens a document in the file at a path, in the place of one that is open, and notes the URI that the editor gave it. The
    /// kept text stays.
    pub fn open(&mut self, path: &str, uri: String, document: Document)
        requires { IsSome (file_at path.now self.old) }
        ensures { self.new ≡ opened_files (string_bytes uri) (document_view document) path.now self.old }
    {
        match self.by_path.get_mut(path) {
            Some(file) => file.open(uri, document),
            None => {}
        }
    }

    /// Puts another document in the place of the one that is open at a path. Where none is open, nothing changes.
    pub fn set_document(&mut self, path: &str, document: Document)
        ensures { self.new ≡ with_document_at path.now (document_view document) self.old }
    {
        match self.by_path.get_mut(path) {
            Some(file) => file.set_document(document),
            None => {}
        }
    }

    /// Keeps a text for the path of a document that is open. Where none is open, nothing changes.
    pub fn keep(&mut self, path: &str, text: SharedText)
        ensures { self.new ≡ with_kept_at path.now text self.old }
    {
        match self.by_path.get_mut(path) {
            Some(file) => file.keep(text),
            None => {}
        }
    }

    /// Closes the document that is open at a path. A file with no kept text leaves. Where none is open, nothing changes. Takes
    /// no memory.
    pub fn close(&mut self, path: &str)
        ensures { self.new ≡ closed_files path.now self.old }
    {
        if self.close_at(path) {
            self.remove(path);
        }
    }

    // Takes the file out that is at a path, if there is one.
    fn remove(&mut self, path: &str) -> Option<FileEntry>
        ensures { self.new ≡ without_file path.now self.old }
    {
        self.by_path.remove(path)
    }

    // Closes the document of the file at a path, if there is one, and says whether the file has no text then.
    fn close_at(&mut self, path: &str) -> bool
        ensures leaves { result ≡ leaves (file_at path.now self.old) }
        ensures files { self.new ≡ with_none_open path.now self.old (file_at path.now self.old) }
    {
        match self.by_path.get_mut(path) {
            Some(file) => file.close(),
            None => false,
        }
    }
}
