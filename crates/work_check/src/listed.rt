// The files of a check with what is wrong in them, and what is asked for.
ghost use Rattle.std.specs.Prelude.{◌≡◌, ◌-◌, ◌<◌, ◌^◌, [], length, filter, All, IfOk, None, slice_index_or, min};
ghost use Rattle.work_index.specs.Workspace.{analysis, no_file};
ghost use Rattle.work_check.specs.Listing.{is_error, is_wanted, listed_file, wanted_diags, wanted_count, line_count, error_count, file_errors, wanted_unchecked, lost_of_first, checked_of};

use crate::wanted::{Checked, Listing};
use check_lines::{ListedFile, is_error_message};
use proto_decls::{Diag, Name};
use std::alloc::{AllocError, Global};
use work_space::DiagnosedFiles;

// The files of a check with what is wrong in them, the number of the root of each, and what is asked for.
#[derive(Drop)]
pub struct Listed {
    pub how: Listing,
    pub files: DiagnosedFiles,
    pub roots: Vec<Option<usize>>,
}

impl Listed {
    // The number of the root of the file with a number.
    fn root(&self, number: usize) -> Option<usize>
        ensures { result ≡ slice_index_or self.now.roots.items number None }
    {
        match self.roots.get(number) {
            Some(root) => *root,
            None => None,
        }
    }

    // The file with a number, to be listed.
    pub fn file(&self, alloc: Global, number: usize) -> ListedFile<'_>
        ensures { result ≡ listed_file self.now.how self.now.roots.items (number, slice_index_or self.now.files number no_file) }
    {
        ListedFile::new(
            alloc,
            self.how.format,
            self.how.folder(self.root(number)),
            self.files.path(number),
            self.files.text(number),
        )
    }

    // Whether the lines of the file with a number are asked for.
    pub fn wants(&self, number: usize) -> bool
        ensures { result ≡ is_wanted self.now.how (slice_index_or self.now.files number no_file).0 }
    {
        self.how.wants(self.files.path(number))
    }

    // Its diagnostics, if its lines are asked for.
    pub fn diagnostics(&self, number: usize) -> &[Diag]
        requires { number < length self.now.files }
        ensures { result.now ≡ wanted_diags self.now.how (analysis self.now.files) (number, slice_index_or self.now.files number no_file) }
    {
        if self.wants(number) {
            self.files.diagnosis().diagnostics(number)
        } else {
            &[]
        }
    }

    // How many lines are asked for; the highest number if there are more.
    pub fn line_count(&self) -> usize
        ensures { result ≡ min (line_count self.now.how self.now.files) (2 ^ 64 - 1) }
    {
        let mut count = 0usize;
        for number in 0..self.files.file_count() {
            count = count.saturating_add(self.diagnostics(number).len());
        }
        count
    }

    // How many files are asked for.
    fn wanted_count(&self) -> usize
        ensures { result ≡ wanted_count self.now.how self.now.files }
    {
        let mut count = 0usize;
        for number in 0..self.files.file_count() {
            if self.wants(number) {
                count += 1;
            }
        }
        count
    }

    // How many diagnostics of a file are errors, if its lines are asked for.
    fn errors_of(&self, number: usize) -> usize
        requires { number < length self.now.files }
        ensures { result ≡ file_errors self.now.how (analysis self.now.files) (number, slice_index_or self.now.files number no_file) }
    {
        self.diagnostics(number)
            .iter()
            .filter(|diag| is_error(diag))
            .count()
    }

    // How many diagnostics of all files that are asked for are errors; the highest number if there are more.
    fn error_count(&self) -> usize
        ensures { result ≡ min (error_count self.now.how self.now.files) (2 ^ 64 - 1) }
    {
        let mut count = 0usize;
        for number in 0..self.files.file_count() {
            count = count.saturating_add(self.errors_of(number));
        }
        count
    }

    // The files among these that are asked for.
    fn wanted(&self, alloc: Global, files: &[usize]) -> Result<Vec<usize>, AllocError>
        ensures { IfOk result (λ v. v.items ≡ filter (λ n. is_wanted self.now.how (slice_index_or self.now.files n no_file).0) files.now) }
    {
        let mut found = Vec::new(alloc);
        for &file in files {
            if self.wants(file) {
                found.push(file)?;
            }
        }
        Ok(found)
    }

    // The numbers of the files that are asked for and aren't checked for unknown names, ascending.
    fn unchecked(&self, alloc: Global) -> Result<Vec<usize>, AllocError>
        ensures value { IfOk result (λ v. v.items ≡ wanted_unchecked self.now.how self.now.files) }
        ensures within { IfOk result (λ v. All (λ n. n < length self.now.files) v.items) }
    {
        let all = self.files.diagnosis().unchecked()?;
        let wanted = self.wanted(alloc, all.as_slice())?;
        Ok(wanted)
    }

    // The path in the first import because of which the first of some files isn't checked for unknown names.
    fn lost_of_first(&self, alloc: Global, files: &[usize]) -> Result<Option<Name>, AllocError>
        requires { All (λ n. n < length self.now.files) files.now }
        ensures { IfOk result (λ path. path ≡ lost_of_first self.now.files files.now) }
    {
        match files.first() {
            Some(file) => self.files.diagnosis().first_lost(alloc, *file),
            None => Ok(None),
        }
    }

    // What was found.
    pub fn checked(&self, alloc: Global) -> Result<Checked, AllocError>
        ensures { IfOk result (λ found. found ≡ checked_of self.now.how self.now.files) }
    {
        let numbers = self.unchecked(alloc)?;
        let unchecked = numbers.as_slice();
        let first_lost = self.lost_of_first(alloc, unchecked)?;
        Ok(Checked {
            files: self.wanted_count(),
            errors: self.error_count(),
            unchecked: unchecked.len(),
            first_lost,
        })
    }
}

// Whether a diagnostic is an error, and not an information.
fn is_error(diag: &Diag) -> bool
    ensures { result ≡ is_error diag.now }
{
    is_error_message(diag.message)
}
