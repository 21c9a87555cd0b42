// Which files are known to lead to one another, of those with one number.

ghost use Rattle.std.specs.Prelude.{◌≡◌, ◌==◌, ℕ, List, true, false, length, vec_len, slice_index_or, filter, IfOk, All};
ghost use Rattle.import_graph.specs.FileSearches.{IsSeen};
ghost use Rattle.import_graph.specs.Walks.{AllWithin};
ghost use Rattle.import_graph.specs.Ties.{IsInner, IsFirst, IsTied};

use crate::file_search::{FileSearch, reached};
use crate::paths::FileNo;
use crate::tour::importers;
use sqlite_items::Items;
use std::alloc::{AllocError, Global};

// The files of a row that have the number.
fn with_number(
    alloc: Global,
    row: &[FileNo],
    numbers: &[usize],
    number: usize,
) -> Result<Items<FileNo>, AllocError>
    requires { AllWithin (length numbers.now) row.now }
    ensures { IfOk result (λ v. v ≡ filter (λ g. slice_index_or numbers.now g 0 == number) row.now) }
{
    let mut found = Items::new(alloc);
    for &file in row {
        if numbers[file] == number {
            found.push(file)?;
        }
    }
    Ok(found)
}

// The imports between files with one number.
fn inner_imports(
    alloc: Global,
    imports: &[Items<FileNo>],
    numbers: &[usize],
) -> Result<Vec<Items<FileNo>>, AllocError>
    requires within { All (AllWithin (length imports.now)) imports.now }
    requires length { length numbers.now ≡ length imports.now }
    ensures length { IfOk result (λ rows. vec_len rows ≡ length imports.now) }
    ensures inner { IfOk result (λ rows. IsInner imports.now numbers.now rows.items) }
{
    let mut rows = Vec::with_capacity(alloc, imports.len())?;
    for (file, row) in imports.iter().enumerate() {
        rows.push(with_number(alloc, row.as_slice(), numbers, numbers[file])?)?;
    }
    Ok(rows)
}

// The files that are the first of their number.
fn first_files(
    alloc: Global,
    firsts: &[FileNo],
    numbers: &[usize],
) -> Result<Vec<FileNo>, AllocError>
    ensures within { IfOk result (λ v. AllWithin (length numbers.now) v.items) }
    ensures first { IfOk result (λ v. All (IsFirst firsts.now numbers.now) v.items) }
{
    let mut found = Vec::new(alloc);
    for (file, &number) in numbers.iter().enumerate() {
        if firsts.get(number) == Some(&file) {
            found.push(file)?;
        }
    }
    Ok(found)
}

// Which of so many files both searches have seen.
fn in_both(
    alloc: Global,
    count: usize,
    some: &FileSearch,
    others: &FileSearch,
) -> Result<Vec<bool>, AllocError>
    requires some { vec_len some.now.seen ≡ count }
    requires others { vec_len others.now.seen ≡ count }
    ensures length { IfOk result (λ flags. vec_len flags ≡ count) }
    ensures both { IfOk result (λ flags. (g : ℕ) → slice_index_or flags.items g false ≡ true → IsSeen some.now g × IsSeen others.now g) }
{
    let mut flags = Vec::with_capacity(alloc, count)?;
    for file in 0..count {
        flags.push(some.has_seen(file) && others.has_seen(file))?;
    }
    Ok(flags)
}

// A flag for each file: imports are known to lead from it to the first file of its number, and back. So all of one number
// that have it lead to one another. The first files are given by number.
pub fn tied(
    alloc: Global,
    imports: &[Items<FileNo>],
    numbers: &[usize],
    firsts: &[FileNo],
) -> Result<Vec<bool>, AllocError>
    requires within { All (AllWithin (length imports.now)) imports.now }
    requires length { length numbers.now ≡ length imports.now }
    ensures length { IfOk result (λ flags. vec_len flags ≡ length imports.now) }
    ensures tied { IfOk result (λ flags. IsTied imports.now numbers.now flags.items) }
{
    let inner = inner_imports(alloc, imports, numbers)?;
    let turned = importers(alloc, inner.as_slice())?;
    let starts = first_files(alloc, firsts, numbers)?;
    let ahead = reached(alloc, inner.as_slice(), starts.as_slice())?;
    let behind = reached(alloc, turned.as_slice(), starts.as_slice())?;
    in_both(alloc, imports.len(), &ahead, &behind)
}
