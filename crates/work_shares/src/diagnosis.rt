// What is wrong in the files of a workspace.
ghost use Rattle.std.specs.Prelude.{◌≡◌, ◌<◌, length, All, IfOk, Some};

use crate::unchecked::first_lost_path;
use import_graph::FileNo;
use piece_collector::Piece;
use proto_decls::{Diag, Name};
use proto_resolve::{Index, Table};
use sqlite_items::Items;
use std::alloc::{AllocError, Global};
use std::marker::Model;
use work_index::FileWork;

/// The files of a workspace, and what is wrong in each. A file is a number: its place, counted from 0, in the order of the paths.
pub struct Diagnosis {
    // The work on the texts, which has their paths too.
    pub(crate) pieces: Vec<Piece<FileWork>>,
    // Whether texts that aren't proto3 were read for what they declare.
    pub(crate) reads_others: bool,
    pub(crate) diagnostics: Vec<Items<Diag>>,
    pub(crate) table: Table,
}

// (Written out: a derived one would be proved again, with those of all parts, in each crate that drops such a value.)
impl Drop for Diagnosis {
    fn drop(self) {
        let Diagnosis {
            pieces: _,
            reads_others: _,
            diagnostics: _,
            table: _,
        } = self;
    }
}

impl Model for Diagnosis {
    ghost use Rattle.std.specs.Prelude.{◌≡◌, length, map};
    ghost use Rattle.work_shares.specs.Diagnosis.{DiagnosisData};

    ghost Value = { DiagnosisData };

    ghost view = { λ d. record { paths = map (λ p. p.path) d.pieces.items; sources = map (λ p. record { text = p.text; reads_others = d.reads_others }) d.pieces.items; files = d.table; diagnostics = d.diagnostics.items } };

    ghost invariant = { λ d. length d.diagnostics.items ≡ length d.pieces.items };
}

impl Diagnosis {
    ghost use Rattle.std.specs.List.{slice_get};
    ghost use Rattle.work_shares.specs.Unchecked.{unchecked, first_lost};
    ghost use Rattle.work_index.specs.Workspace.{texts_of};

    /// How many files there are.
    pub fn file_count(&self) -> usize
        ensures { result ≡ length self.now.paths }
    {
        self.pieces.len()
    }

    /// The path of a file. The files are in the order of their paths, by their bytes.
    pub fn path(&self, file: FileNo) -> &str
        requires { file < length self.now.paths }
        ensures { slice_get self.now.paths file ≡ Some result.now }
    {
        self.pieces[file].path()
    }

    /// The text of a file.
    pub fn text(&self, file: FileNo) -> &str
        requires { file < length self.now.paths }
        ensures { slice_get (texts_of self.now.sources) file ≡ Some result.now }
    {
        self.pieces[file].text()
    }

    /// The diagnostics 201 to 406 of a file, each once, by start, end, number and words.
    pub fn diagnostics(&self, file: FileNo) -> &[Diag]
        requires { file < length self.now.paths }
        ensures { slice_get self.now.diagnostics file ≡ Some result.now }
    {
        self.diagnostics.as_slice()[file].as_slice()
    }

    /// The numbers of the files that aren't checked for unknown names (401, 402), ascending: an import of theirs, or of a file that they see,
    /// names no file, or one that isn't analysed. An `Err` comes only where memory was refused.
    pub fn unchecked(&self) -> Result<Vec<FileNo>, AllocError>
        ensures value { IfOk result (λ v. v.items ≡ unchecked self.now.files) }
        ensures within { IfOk result (λ v. All (λ file. file < length self.now.files) v.items) }
    {
        let unchecked = self.table.graph().open_views()?;
        Ok(unchecked)
    }

    /// The path in the first import because of which a file isn't checked for unknown names: of the files that it sees, itself among them, the
    /// first by path of which an import names no file, or one that isn't analysed, and there the first such import. `None` if there is none.
    /// An `Err` comes only where memory was refused.
    pub fn first_lost(&self, alloc: Global, file: FileNo) -> Result<Option<Name>, AllocError>
        requires { file < length self.now.files }
        ensures { IfOk result (λ path. path ≡ first_lost self.now.files file) }
    {
        first_lost_path(alloc, &self.table, file)
    }

    /// The diagnostics of all files, by path.
    pub fn all_diagnostics(&self) -> &[Items<Diag>]
        ensures { result.now ≡ self.now.diagnostics }
    {
        self.diagnostics.as_slice()
    }
}
