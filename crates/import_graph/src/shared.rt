// Lists of files that several files share: files whose imports lead to the same.

ghost use Rattle.std.specs.Prelude.{◌≡◌, ◌↔◌, ◌⊎◌, ◌<◌, ◌≤◌, ℕ, List, [], Some, None, length, vec_len, map, take, slice_index_or, slice_set, IfOk, OnOk, IfSome, IsTrue, All, Contains};
ghost use Rattle.std.specs.List.Sorted.{IsPermutation};
ghost use Rattle.import_graph.specs.Walks.{AllWithin};
ghost use Rattle.import_graph.specs.Coming.{HasNoList};
ghost use Rattle.import_graph.specs.Condensed.{representative};
ghost use Rattle.import_graph.specs.Shared.{IsStart, LeadsAlike, AreShared, Fills, list_at, number_at};

use crate::coming::make_way;
use crate::components::components_of;
use crate::condensed::representatives_of;
use crate::file_search::{ascending, reached};
use crate::paths::FileNo;
use sqlite_items::Items;
use std::alloc::{AllocError, Global};

// A list is kept if it has at most so many files for each file that might share it.
const FILES_FOR_EACH: usize = 4;

// A file with the files that stand for what it imports, ascending: from there a search finds what its imports lead to.
#[derive(Drop)]
pub struct Start {
    file: FileNo,
    first: Items<FileNo>,
}

// What the imports of files lead to, kept once for files that lead to the same and to themselves.
#[derive(Drop)]
pub struct SharedLists {
    // For each file the number of its list, if it shares one.
    numbers: Vec<Option<usize>>,
    // The lists, each ascending.
    lists: Vec<Items<FileNo>>,
}

// The files that stand for the targets, ascending, each once.
fn first_files(
    alloc: Global,
    representatives: &[FileNo],
    targets: &[FileNo],
) -> Result<Items<FileNo>, AllocError>
    requires { AllWithin (length representatives.now) targets.now }
    ensures { IfOk result (λ v. (h : ℕ) → Contains v h ↔ Contains (map (representative representatives.now) targets.now) h) }
{
    let mut found = Vec::with_capacity(alloc, targets.len())?;
    for &target in targets {
        found.push(representatives[target])?;
    }
    Ok(Items::from_vec(ascending(found)))
}

fn starts_of(
    alloc: Global,
    representatives: &[FileNo],
    imports: &[Items<FileNo>],
) -> Result<Vec<Start>, AllocError>
    requires { All (AllWithin (length representatives.now)) imports.now }
    ensures { IfOk result (λ v. All (IsStart representatives.now imports.now) v.items) }
{
    let mut starts = Vec::new(alloc);
    for (file, targets) in imports.iter().enumerate() {
        let first = first_files(alloc, representatives, targets.as_slice())?;
        starts.push(Start { file, first })?;
    }
    Ok(starts)
}

// Puts those that begin with the same files next to each other.
fn sort_starts(starts: &mut Vec<Start>)
    ensures { IsPermutation starts.old.items starts.new.items }
{
    starts.sort_unstable_by(|a, b| a.first.as_slice().cmp(b.first.as_slice()));
}

// How many of them, from the first one on, begin with these files.
fn alike_count(starts: &[Start], first: &[FileNo]) -> usize
    ensures within { result ≤ length starts.now }
    ensures alike { All (λ s. s.first ≡ first.now) (take result starts.now) }
{
    let mut count = 0;
    while count < starts.len() && starts[count].first.as_slice() == first {
        count += 1;
    }
    count
}

// Whether an ascending list has the file.
fn has(list: &[FileNo], file: FileNo) -> bool
    ensures { IsTrue result → Contains list.now file }
{
    match list.binary_search(&file) {
        Ok(place) => list[place] == file,
        Err(_) => false,
    }
}

impl SharedLists {
    // Gives the file the list of the number, if that has the file.
    fn place(&mut self, file: FileNo, number: usize)
        requires file { file < vec_len self.old.numbers }
        requires number { number < vec_len self.old.lists }
        ensures lists { self.new.lists.items ≡ self.old.lists.items }
        ensures numbers { (self.new.numbers.items ≡ self.old.numbers.items) ⊎ ((self.new.numbers.items ≡ slice_set self.old.numbers.items file (Some number)) × Contains (list_at self.old number) file) }
    {
        if has(self.lists[number].as_slice(), file) {
            self.numbers[file] = Some(number);
        }
    }

    fn fill(&mut self, run: &[Start], number: usize)
        requires run { All (λ s. s.file < vec_len self.old.numbers) run.now }
        requires number { number < vec_len self.old.lists }
        ensures { Fills number self.old self.new (map (λ s. s.file) run.now) }
    {
        for start in run {
            self.place(start.file, number);
        }
    }

    // Adds the list of files that begin with the same ones, if it is short for so many.
    fn share(
        &mut self,
        alloc: Global,
        steps: &[Items<FileNo>],
        first: &[FileNo],
        run: &[Start],
    ) -> Result<(), AllocError>
        requires steps { All (AllWithin (length steps.now)) steps.now }
        requires first { AllWithin (length steps.now) first.now }
        requires alike { All (λ s. s.first ≡ first.now) run.now }
        requires files { All (λ s. s.file < vec_len self.old.numbers) run.now }
        ensures { (imports : List (List ℕ)) → AreShared steps.now imports self.old → All (LeadsAlike steps.now imports) run.now → OnOk result (AreShared steps.now imports self.new) }
    {
        if run.len() < 2 {
            return Ok(());
        }
        let list = reached(alloc, steps, first)?.into_ascending()?;
        if list.len() / FILES_FOR_EACH > run.len() {
            return Ok(());
        }
        let number = self.lists.len();
        self.lists.push(Items::from_vec(list))?;
        self.fill(run, number);
        Ok(())
    }

    // The lists that files share, where these were those of the others before a file came to the place `at`, which none of them imports.
    // That one shares none, and in the lists files have their new numbers. An `Err` comes only where memory was refused; the lists are gone
    // then.
    pub fn with_file(self, at: FileNo) -> Result<SharedLists, AllocError>
        requires place { at ≤ vec_len self.numbers }
        requires small { All (AllWithin (vec_len self.numbers)) self.lists.items }
        ensures { IfOk result (HasNoList at self) }
    {
        let SharedLists {
            mut numbers,
            mut lists,
        } = self;
        make_way(at, numbers.len(), &mut lists);
        numbers.insert(at, None)?;
        Ok(SharedLists { numbers, lists })
    }

    // The list of what a file sees, if it shares one.
    pub fn list_of(&self, file: FileNo) -> Option<&[FileNo]>
        ensures { IfSome result (λ l. (k : ℕ) × (number_at self.now file ≡ Some k) × (l.now ≡ list_at self.now k)) }
    {
        match self.numbers.get(file) {
            Some(Some(number)) => match self.lists.get(*number) {
                Some(list) => Some(list.as_slice()),
                None => None,
            },
            _ => None,
        }
    }
}

// So many files without a list.
fn no_numbers(alloc: Global, count: usize) -> Result<Vec<Option<usize>>, AllocError>
    ensures length { IfOk result (λ v. vec_len v ≡ count) }
    ensures none { IfOk result (λ v. All (λ n. n ≡ None) v.items) }
{
    let mut numbers = Vec::new(alloc);
    for _ in 0..count {
        numbers.push(None)?;
    }
    Ok(numbers)
}

// The lists that files share, given the steps of the search and the imports that it begins with.
pub fn shared_lists(
    alloc: Global,
    steps: &[Items<FileNo>],
    imports: &[Items<FileNo>],
) -> Result<SharedLists, AllocError>
    requires steps { All (AllWithin (length steps.now)) steps.now }
    requires imports { All (AllWithin (length steps.now)) imports.now }
    requires count { length imports.now ≡ length steps.now }
    ensures { IfOk result (AreShared steps.now imports.now) }
{
    let components = components_of(alloc, steps)?;
    let representatives = representatives_of(alloc, &components)?;
    let mut starts = starts_of(alloc, representatives.as_slice(), imports)?;
    sort_starts(&mut starts);
    let mut shared = SharedLists {
        numbers: no_numbers(alloc, imports.len())?,
        lists: Vec::new(alloc),
    };
    let mut place = 0;
    while place < starts.len() {
        let rest = &starts.as_slice()[place..];
        let first = rest[0].first.as_slice();
        let count = alike_count(rest, first);
        shared.share(alloc, steps, first, &rest[..count])?;
        place += count.max(1);
    }
    Ok(shared)
}
