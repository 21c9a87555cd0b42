// What the imports of files name.

ghost use Rattle.std.specs.Prelude.{◌≡◌, ℕ, List, IfOk, map};
ghost use Rattle.import_graph.specs.Paths.{IsInPathOrder};
ghost use Rattle.import_graph.specs.Imports.{targets, public_targets, imports_of, edge_of, is_analysed, is_complete_in};

use crate::paths::{FileNo, file_named};
use proto_decls::{FileFacts, ImportFact, NamedFacts, SyntaxFact};
use sqlite_items::Items;
use std::alloc::{AllocError, Global};

/// What an import names.
#[derive(Clone, Copy, Debug, PartialEq, Eq)]
pub struct ImportEdge {
    /// The number, from 0, of the file that the import names: `None` where there is no such file.
    pub target: Option<FileNo>,
    /// Whether what is imported is visible to those who import the importing file.
    pub is_public: bool,
}

/// What the imports of a file name.
#[derive(Debug, Drop)]
pub struct FileImports {
    /// One for each import, in the order of the imports.
    pub edges: Items<ImportEdge>,
    /// Whether nothing is known of the file: it says no `syntax` or another one, or is too long.
    pub is_opaque: bool,
}

impl FileImports {
    // The files that are imported.
    pub(crate) fn targets(&self, alloc: Global) -> Result<Items<FileNo>, AllocError>
        ensures { IfOk result (λ v. v ≡ targets self.now) }
    {
        let mut found = Items::new(alloc);
        for edge in self.edges.as_slice() {
            if let Some(file) = edge.target {
                found.push(file)?;
            }
        }
        Ok(found)
    }

    // The files that are imported publicly.
    pub(crate) fn public_targets(&self, alloc: Global) -> Result<Items<FileNo>, AllocError>
        ensures { IfOk result (λ v. v ≡ public_targets self.now) }
    {
        let mut found = Items::new(alloc);
        for edge in self.edges.as_slice() {
            if let (true, Some(file)) = (edge.is_public, edge.target) {
                found.push(file)?;
            }
        }
        Ok(found)
    }
}

fn edge_of(files: &[NamedFacts], import: &ImportFact) -> ImportEdge
    requires { IsInPathOrder files.now }
    ensures { result ≡ edge_of files.now import.now }
{
    ImportEdge {
        target: file_named(files, import.path.as_str()),
        is_public: import.is_public,
    }
}

// What the imports of a file name among the files.
pub fn imports_of(
    alloc: Global,
    files: &[NamedFacts],
    facts: &FileFacts,
) -> Result<FileImports, AllocError>
    requires { IsInPathOrder files.now }
    ensures { IfOk result (λ f. f ≡ imports_of files.now facts.now) }
{
    let mut edges = Items::new(alloc);
    for import in facts.imports.as_slice() {
        edges.push(edge_of(files, import))?;
    }
    Ok(FileImports {
        edges,
        is_opaque: matches!(facts.syntax, SyntaxFact::Opaque),
    })
}

// Whether an import of this target names one of the files that is not opaque.
pub fn is_analysed(files: &[FileImports], target: Option<FileNo>) -> bool
    ensures { result ≡ is_analysed files.now target }
{
    match target {
        Some(file) => match files.get(file) {
            Some(file) => !file.is_opaque,
            None => false,
        },
        None => false,
    }
}

// Whether every import of a file names one of the files that is not opaque.
pub fn is_complete(files: &[FileImports], file: &FileImports) -> bool
    ensures { result ≡ is_complete_in files.now file.now }
{
    for edge in file.edges.as_slice() {
        if !is_analysed(files, edge.target) {
            return false;
        }
    }
    true
}

// For each file whether every one of its imports names one of the files that is not opaque.
pub fn completeness(alloc: Global, files: &[FileImports]) -> Result<Vec<bool>, AllocError>
    ensures { IfOk result (λ flags. flags.items ≡ map (is_complete_in files.now) files.now) }
{
    let mut flags = Vec::with_capacity(alloc, files.len())?;
    for file in files {
        flags.push(is_complete(files, file))?;
    }
    Ok(flags)
}
