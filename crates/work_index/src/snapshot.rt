// The files of a workspace with their analysis.
ghost use Rattle.std.specs.Prelude.{◌≡◌, length, map, position, slice_index_or, bytes_eq};
ghost use Rattle.work_index.specs.Workspace as index;

use crate::analysis::Analysis;
use import_graph::FileNo;
use std::marker::Model;

/// The files of a workspace with their analysis. A file is a number: its place, from 0, in the order of their paths. Contracts
/// see a snapshot as the workspace: the paths of its files, each with its text and how it is read.
#[derive(Drop)]
pub struct Snapshot<'w> {
    analysis: &'w Analysis,
}

impl<'w> Model for Snapshot<'w> {
    ghost use Rattle.work_index.specs.Workspace as index;

    ghost Value = { index.Workspace };

    ghost view = { λ s. index.workspace_in s.analysis.now };

    ghost invariant = { λ s. index.IsKnown s.analysis.now };
}

impl<'w> Snapshot<'w> {
    /// The files of an analysis.
    pub fn of(analysis: &'w Analysis) -> Snapshot<'w>
        ensures { result ≡ index.workspace_in analysis.now }
    {
        analysis.known();
        Snapshot { analysis }
    }

    /// The analysis of the workspace.
    pub fn analysis(&self) -> &'w Analysis
        ensures { result.now ≡ index.analysis self.now }
    {
        self.analysis
    }

    /// How many files there are.
    pub fn file_count(&self) -> usize
        ensures { result ≡ length self.now }
    {
        self.analysis.file_count()
    }

    /// The number of the file with a path.
    pub fn number_of(&self, path: &str) -> Option<FileNo>
        ensures { result ≡ position (λ p. bytes_eq p path.now) (map (λ f. f.0) self.now) }
    {
        self.analysis.number_of(path)
    }

    /// The path of a file; empty where there is no such file.
    pub fn path(&self, file: FileNo) -> &'w str
        ensures { result.now ≡ (slice_index_or self.now file index.no_file).0 }
    {
        if file < self.analysis.file_count() {
            self.analysis.path(file)
        } else {
            ""
        }
    }

    /// The text of a file; empty where there is no such file.
    pub fn text(&self, file: FileNo) -> &'w str
        ensures { result.now ≡ (slice_index_or self.now file index.no_file).1.text }
    {
        if file < self.analysis.file_count() {
            self.analysis.text(file)
        } else {
            ""
        }
    }
}
