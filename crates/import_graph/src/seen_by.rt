// Which files see one of some files: a search back over steps that are turned round, and one pass over all imports.

ghost use Rattle.std.specs.Prelude.{◌≡◌, ◌↔◌, ◌<◌, ◌⊎◌, ℕ, false, length, vec_len, slice_index_or, IfOk, All, Contains};
ghost use Rattle.std.specs.List.{list_any};
ghost use Rattle.std.specs.List.Sorted.{IsStrictlyIncreasing};
ghost use Rattle.import_graph.specs.Condensed.{LeadsToOne};
ghost use Rattle.import_graph.specs.FileSearches.{IsSeen, ImportsSeen};
ghost use Rattle.import_graph.specs.Walks.{AllWithin};

use crate::file_search::{FileSearch, reached};
use crate::paths::FileNo;
use crate::tour::importers;
use sqlite_items::Items;
use std::alloc::{AllocError, Global};

// The search for the files from which steps lead to one of some files, which are among them.
pub fn leading_to(
    alloc: Global,
    steps: &[Items<FileNo>],
    files: &[FileNo],
) -> Result<FileSearch, AllocError>
    requires steps { All (AllWithin (length steps.now)) steps.now }
    requires files { AllWithin (length steps.now) files.now }
    ensures count { IfOk result (λ s. vec_len s.seen ≡ length steps.now) }
    ensures exact { IfOk result (λ s. (g : ℕ) → IsSeen s g ↔ LeadsToOne steps.now files.now g) }
{
    let turned = importers(alloc, steps)?;
    reached(alloc, turned.as_slice(), files)
}

// Whether a search has seen one of the files.
fn has_seen_one(search: &FileSearch, files: &[FileNo]) -> bool
    requires { AllWithin (vec_len search.now.seen) files.now }
    ensures { result ≡ list_any (λ h. slice_index_or search.now.seen.items h false) files.now }
{
    for &file in files {
        if search.has_seen(file) {
            return true;
        }
    }
    false
}

// The files that a search has seen, and those that import one of them, ascending.
pub fn importing(
    alloc: Global,
    imports: &[Items<FileNo>],
    search: &FileSearch,
) -> Result<Vec<FileNo>, AllocError>
    requires imports { All (AllWithin (vec_len search.now.seen)) imports.now }
    requires count { vec_len search.now.seen ≡ length imports.now }
    ensures ascending { IfOk result (λ v. IsStrictlyIncreasing v.items) }
    ensures exact { IfOk result (λ v. (g : ℕ) → Contains v.items g ↔ IsSeen search.now g ⊎ ImportsSeen imports.now search.now g) }
{
    let mut found = Vec::new(alloc);
    for (importer, targets) in imports.iter().enumerate() {
        if search.has_seen(importer) || has_seen_one(search, targets.as_slice()) {
            found.push(importer)?;
        }
    }
    Ok(found)
}
