// Files with what is wrong in each.
ghost use Rattle.std.specs.Prelude.{◌≡◌, length, slice_index_or};
ghost use Rattle.work_index.specs.Workspace as index;
ghost use Rattle.work_shares.specs.Diagnosis as shares;
ghost use Rattle.work_space.specs.View.{diagnosed_files};

use import_graph::FileNo;
use std::marker::Model;
use work_shares::Diagnosis;

/// The files of a workspace with what is wrong in each, which never change. A file is a number: its place, from 0, in the order of
/// their paths. Contracts see them as the workspace: the paths of the files, each with its text and how it is read.
pub struct DiagnosedFiles {
    diagnosis: Diagnosis,
}

// (Written out: a derived one would be proved again, with those of all parts, in each crate that drops such a value.)
impl Drop for DiagnosedFiles {
    fn drop(self) {
        let DiagnosedFiles { diagnosis: _ } = self;
    }
}

impl Model for DiagnosedFiles {
    ghost use Rattle.std.specs.Prelude.{◌≡◌};
    ghost use Rattle.work_index.specs.Workspace as index;
    ghost use Rattle.work_shares.specs.Diagnosis as shares;
    ghost use Rattle.work_space.specs.View.{diagnosed_files};

    ghost Value = { index.Workspace };

    ghost view = { λ d. diagnosed_files d.diagnosis };

    ghost invariant = { λ d. d.diagnosis ≡ shares.diagnosis (diagnosed_files d.diagnosis) };
}

impl DiagnosedFiles {
    // The files of which this is the diagnosis.
    pub(crate) fn of(diagnosis: Diagnosis) -> DiagnosedFiles
        requires { diagnosis ≡ shares.diagnosis (diagnosed_files diagnosis) }
        ensures { result ≡ diagnosed_files diagnosis }
    {
        DiagnosedFiles { diagnosis }
    }

    /// How many files there are.
    pub fn file_count(&self) -> usize
        ensures { result ≡ length self.now }
    {
        self.diagnosis.file_count()
    }

    /// The path of a file; empty where there is no such file.
    pub fn path(&self, file: FileNo) -> &str
        ensures { result.now ≡ (slice_index_or self.now file index.no_file).0 }
    {
        if file < self.file_count() {
            self.diagnosis.path(file)
        } else {
            ""
        }
    }

    /// The text of a file; empty where there is no such file.
    pub fn text(&self, file: FileNo) -> &str
        ensures { result.now ≡ (slice_index_or self.now file index.no_file).1.text }
    {
        if file < self.file_count() {
            self.diagnosis.text(file)
        } else {
            ""
        }
    }

    /// What is wrong in the files.
    pub fn diagnosis(&self) -> &Diagnosis
        ensures { result.now ≡ shares.diagnosis self.now }
    {
        &self.diagnosis
    }
}
