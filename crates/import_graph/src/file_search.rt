// The search for the files that steps lead to.

ghost use Rattle.std.specs.Prelude.{◌≡◌, ◌↔◌, ◌<◌, ℕ, false, length, vec_len, slice_index_or, IfOk, OnOk, All, Contains};
ghost use Rattle.std.specs.List.Sorted.{IsStrictlyIncreasing};
ghost use Rattle.import_graph.specs.Walks.{ReachedFrom, AllWithin};
ghost use Rattle.import_graph.specs.FileSearches.{IsSeen, IsListed, flagged};

use crate::paths::FileNo;
use sqlite_items::Items;
use std::alloc::{AllocError, Global};

// How many flags are looked at in about the time that it takes to sort one file in among others.
const FLAGS_A_FILE: usize = 16;

// What is known of a search: for each file whether it was seen, and which were seen, in the order of finding.
#[derive(Drop)]
pub struct FileSearch {
    seen: Vec<bool>,
    found: Vec<FileNo>,
}

impl FileSearch {
    ghost use Rattle.import_graph.specs.FileSearches.{VisitsAll, Visits};

    // A search among so many files that has seen none.
    fn among(alloc: Global, count: usize) -> Result<FileSearch, AllocError>
        ensures count { IfOk result (λ s. vec_len s.seen ≡ count) }
        ensures listed { IfOk result (λ s. IsListed s) }
        ensures none { IfOk result (λ s. vec_len s.found ≡ 0) }
    {
        Ok(FileSearch {
            seen: vec![in alloc; false; count]?,
            found: Vec::new(alloc),
        })
    }

    // Adds a file to those that were seen.
    pub fn visit(&mut self, file: FileNo) -> Result<(), AllocError>
        requires { file < vec_len self.old.seen }
        ensures { OnOk result (Visits self.old self.new file) }
    {
        if !self.seen[file] {
            self.found.push(file)?;
            self.seen[file] = true;
        }
        Ok(())
    }

    fn visit_all(&mut self, files: &[FileNo]) -> Result<(), AllocError>
        requires { AllWithin (vec_len self.old.seen) files.now }
        ensures { OnOk result (VisitsAll self.old self.new files.now) }
    {
        for &file in files {
            self.visit(file)?;
        }
        Ok(())
    }

    // Whether the file was seen.
    pub fn has_seen(&self, file: FileNo) -> bool
        requires { file < vec_len self.now.seen }
        ensures { result ≡ slice_index_or self.now.seen.items file false }
    {
        self.seen[file]
    }

    // The files that were seen, ascending. Where they are few they are sorted; else the flags tell it sooner.
    pub fn into_ascending(self) -> Result<Vec<FileNo>, AllocError>
        requires { IsListed self }
        ensures ascending { IfOk result (λ v. IsStrictlyIncreasing v.items) }
        ensures exact { IfOk result (λ v. (g : ℕ) → Contains v.items g ↔ IsSeen self g) }
    {
        let FileSearch { seen, found } = self;
        if found.len() < seen.len() / FLAGS_A_FILE {
            Ok(ascending(found))
        } else {
            flagged(seen.as_slice(), found)
        }
    }
}

// The files of a list, ascending, each once.
pub fn ascending(mut files: Vec<FileNo>) -> Vec<FileNo>
    ensures ascending { IsStrictlyIncreasing result.items }
    ensures exact { (g : ℕ) → Contains result.items g ↔ Contains files.items g }
{
    files.sort_unstable();
    files.dedup();
    files
}

// The files that are flagged, ascending, in the memory of `files`.
fn flagged(flags: &[bool], mut files: Vec<FileNo>) -> Result<Vec<FileNo>, AllocError>
    ensures { IfOk result (λ v. v.items ≡ flagged flags.now) }
{
    files.clear();
    for (file, &is_flagged) in flags.iter().enumerate() {
        if is_flagged {
            files.push(file)?;
        }
    }
    Ok(files)
}

// The search for the files that are reached from one of `start` by steps of `next`.
pub fn reached(
    alloc: Global,
    next: &[Items<FileNo>],
    start: &[FileNo],
) -> Result<FileSearch, AllocError>
    requires next { All (AllWithin (length next.now)) next.now }
    requires start { AllWithin (length next.now) start.now }
    ensures count { IfOk result (λ s. vec_len s.seen ≡ length next.now) }
    ensures listed { IfOk result (λ s. IsListed s) }
    ensures exact { IfOk result (λ s. (g : ℕ) → IsSeen s g ↔ ReachedFrom next.now start.now g) }
{
    let mut search = FileSearch::among(alloc, next.len())?;
    search.visit_all(start)?;
    let mut followed = 0;
    while followed < search.found.len() {
        let file = search.found[followed];
        search.visit_all(next[file].as_slice())?;
        followed += 1;
    }
    Ok(search)
}
