// What is known of a workspace.
ghost use Rattle.std.specs.Prelude.{◌≡◌, ◌<◌, ◌↔◌, [], length, Some, None, bytes_eq, position, slice_index_or, IfOk, IsFalse};
ghost use Rattle.work_index.specs.Workspace.{NoneImports};

use crate::shared_links::SharedLinks;
use crate::source_file::SourceFile;
use import_graph::FileNo;
use proto_decls::{Diag, FileFacts};
use proto_resolve::{DeclRef, Index, Links, Table};
use sqlite_items::Items;
use std::alloc::{AllocError, Global};
use std::marker::Model;

/// What is known of a workspace: the text and the facts of each file, all declarations, what the names of each file mean, and what is
/// wrong in each file.
///
/// A file is a number: its place, counted from 0, in the list of paths. An analysis owns all that it holds.
pub struct Analysis {
    table: Table,
    files: Vec<SourceFile>,
    resolutions: Resolutions,
}

// (Written out: a derived one would be proved again, with those of all parts, in each crate that drops such a value.)
impl Drop for Analysis {
    fn drop(self) {
        let Analysis {
            table: _,
            files: _,
            resolutions: _,
        } = self;
    }
}

/// What an analysis is made of.
#[derive(Drop)]
pub struct AnalysisParts {
    /// The facts of all files, and all declarations.
    pub table: Table,
    /// The files, in the order of their paths.
    pub files: Vec<SourceFile>,
    /// What their names mean, and what is wrong in them.
    pub resolutions: Resolutions,
}

/// What the names of each file mean, and what is wrong in each file.
#[derive(Drop)]
pub struct Resolutions {
    /// What the names of each file mean, with what is wrong by what it sees.
    pub links: Vec<SharedLinks>,
    /// All that is wrong in each file.
    pub diagnostics: Vec<Items<Diag>>,
}

// Once more what the names of each file mean.
fn copy_links(alloc: Global, all: &[SharedLinks]) -> Result<Vec<SharedLinks>, AllocError>
    ensures { IfOk result (λ copies. copies.items ≡ all.now) }
{
    let mut copies = Vec::with_capacity(alloc, all.len())?;
    for links in all {
        copies.push(links.another()?)?;
    }
    Ok(copies)
}

// Once more what is wrong in each file.
fn copy_diagnostics(alloc: Global, all: &[Items<Diag>]) -> Result<Vec<Items<Diag>>, AllocError>
    ensures { IfOk result (λ copies. copies.items ≡ all.now) }
{
    let mut copies = Vec::with_capacity(alloc, all.len())?;
    for diagnostics in all {
        copies.push(Items::from_slice(alloc, diagnostics.as_slice())?)?;
    }
    Ok(copies)
}

// Once more the files.
fn copy_files(alloc: Global, all: &[SourceFile]) -> Result<Vec<SourceFile>, AllocError>
    ensures { IfOk result (λ copies. copies.items ≡ all.now) }
{
    let mut copies = Vec::with_capacity(alloc, all.len())?;
    for file in all {
        copies.push(file.another(alloc)?)?;
    }
    Ok(copies)
}

impl Model for Analysis {
    ghost use Rattle.work_index.specs.Known.{HoldTogether, analysis_with};
    ghost use Rattle.work_index.specs.Workspace.{AnalysisData};

    ghost Value = { AnalysisData };

    ghost view = { λ a. analysis_with a.table a.files.items a.resolutions.links.items a.resolutions.diagnostics.items };

    ghost invariant = { λ a. HoldTogether a.table a.files.items a.resolutions.links.items a.resolutions.diagnostics.items };
}

impl Analysis {
    ghost use Rattle.std.specs.List.{slice_get};
    ghost use Rattle.import_graph.specs.Closures.{seers_of};
    ghost use Rattle.import_graph.specs.Imports.{graph_of};
    ghost use Rattle.work_index.specs.AnalysisParts.{AreParts};
    ghost use Rattle.work_index.specs.Workspace.{IsKnown, Workspace, all_facts, analysis, decls_named, diags_at, texts_of, workspace_in};

    /// How many files there are.
    pub fn file_count(&self) -> usize
        ensures { result ≡ length self.now.paths }
    {
        self.files.len()
    }

    /// The path of a file. The files are in the order of their paths, by their bytes.
    pub fn path(&self, file: FileNo) -> &str
        requires { file < length self.now.paths }
        ensures { slice_get self.now.paths file ≡ Some result.now }
    {
        self.files[file].path()
    }

    /// The text of a file.
    pub fn text(&self, file: FileNo) -> &str
        requires { file < length self.now.paths }
        ensures { slice_get (texts_of self.now.sources) file ≡ Some result.now }
    {
        self.files[file].text()
    }

    /// Says that this is the analysis of its own workspace, as each analysis is. Does nothing.
    pub fn known(&self)
        ensures { IsKnown self.now }
    {
        let _ = &self.files;
    }

    /// Takes an analysis apart: it is that of its own workspace, and these are its parts. Takes no memory.
    pub fn into_parts(self) -> AnalysisParts
        ensures known { IsKnown self }
        ensures parts { AreParts (workspace_in self) result }
    {
        let Analysis {
            table,
            files,
            resolutions,
        } = self;
        AnalysisParts {
            table,
            files,
            resolutions,
        }
    }

    /// The analysis of a workspace, put together from its parts. Takes no memory.
    pub fn of_parts(parts: AnalysisParts) -> Analysis
        requires { (w : Workspace) × AreParts w parts }
        ensures { (w : Workspace) → AreParts w parts → result ≡ analysis w }
    {
        let AnalysisParts {
            table,
            files,
            resolutions,
        } = parts;
        Analysis {
            table,
            files,
            resolutions,
        }
    }

    /// The same analysis, in memory of its own but for what is known of each text by itself and what its names mean, which it shares. An `Err`
    /// comes only where memory was refused.
    pub fn copy(&self, alloc: Global) -> Result<Analysis, AllocError>
        ensures { IfOk result (λ a. a ≡ self.now) }
    {
        let table = self.table.copy(alloc)?;
        let files = copy_files(alloc, self.files.as_slice())?;
        let links = copy_links(alloc, self.resolutions.links.as_slice())?;
        let diagnostics = copy_diagnostics(alloc, self.resolutions.diagnostics.as_slice())?;
        let resolutions = Resolutions { links, diagnostics };
        Ok(Analysis {
            table,
            files,
            resolutions,
        })
    }

    /// What the text of a file says by itself.
    pub fn facts(&self, file: FileNo) -> &FileFacts
        requires { file < length self.now.paths }
        ensures { slice_get self.now.facts file ≡ Some result.now }
    {
        self.table.facts(file)
    }

    /// All declarations, by path, then offset.
    pub fn decls(&self) -> &[DeclRef]
        ensures { result.now ≡ self.now.decls }
    {
        self.table.decls()
    }

    /// What the names of a file mean, and what is wrong in it by what it sees.
    pub fn links(&self, file: FileNo) -> &Links
        requires { file < length self.now.paths }
        ensures { slice_get self.now.links file ≡ Some result.now }
    {
        self.resolutions.links[file].get()
    }

    /// The numbers of the files that see a file, ascending, each once: itself, those that import it, and those of which an import leads to it by
    /// public imports. An `Err` comes only where memory was refused.
    pub fn seen_by(&self, file: FileNo) -> Result<Vec<FileNo>, AllocError>
        requires { file < length self.now.paths }
        ensures { IfOk result (λ seers. seers.items ≡ seers_of (graph_of (all_facts (workspace_in self.now))) file) }
    {
        let seers = self.table.graph().seen_by(file)?;
        Ok(seers)
    }

    /// The diagnostics 201 to 406 of a file, each once, by start, end, number and words.
    pub fn diagnostics(&self, file: FileNo) -> &[Diag]
        requires { file < length self.now.paths }
        ensures { slice_get self.now.diagnostics file ≡ Some result.now }
    {
        self.resolutions.diagnostics.as_slice()[file].as_slice()
    }

    /// The diagnostics of all files, by path.
    pub fn all_diagnostics(&self) -> &[Items<Diag>]
        ensures { result.now ≡ self.now.diagnostics }
    {
        self.resolutions.diagnostics.as_slice()
    }

    /// The diagnostics of the file with a path; none where there is no such file.
    pub fn diagnostics_at(&self, path: &str) -> &[Diag]
        ensures { result.now ≡ diags_at self.now path.now }
    {
        match self.number_of(path) {
            Some(file) => self.diagnostics_or_none(file),
            None => &[],
        }
    }

    /// The number of the file with a path; `None` where there is none. Found by halving; takes no memory.
    pub fn number_of(&self, path: &str) -> Option<FileNo>
        ensures { result ≡ position (λ p. bytes_eq p path.now) self.now.paths }
    {
        self.table.number_of(path)
    }

    /// Whether a file imports a path that none of them has. It looks only at files that import a missing or an opaque one, and takes no
    /// memory.
    pub fn is_imported(&self, path: &str) -> bool
        requires { position (λ p. bytes_eq p path.now) self.now.paths ≡ None }
        ensures { IsFalse result ↔ NoneImports self.now.facts path.now }
    {
        self.table.is_imported(path)
    }

    // The diagnostics of a file; none where there is no such file.
    fn diagnostics_or_none(&self, file: FileNo) -> &[Diag]
        ensures { result.now ≡ slice_index_or self.now.diagnostics file [] }
    {
        match self.resolutions.diagnostics.as_slice().get(file) {
            Some(diagnostics) => diagnostics.as_slice(),
            None => &[],
        }
    }

    /// The declarations of a full name, by path, then offset.
    pub fn decls_named(&self, full_name: &str) -> &[DeclRef]
        ensures { result.now ≡ decls_named self.now full_name.now }
    {
        self.table.named(full_name)
    }
}
