// The order in which a depth-first tour of all files leaves them. The files that import a file are gone to from there.

ghost use Rattle.std.specs.Prelude.{◌≡◌, ◌<◌, ◌≤◌, ◌+◌, [], ◌∷◌, ◌++◌, List, slice_index_or, slice_set, length, vec_len, IfOk, OnOk, All};
ghost use Rattle.import_graph.specs.Walks.{AllWithin};
ghost use Rattle.import_graph.specs.Tours.{IsTour, IsWithin, work, Adds, IsTurned};

use crate::paths::FileNo;
use sqlite_items::Items;
use std::alloc::{AllocError, Global};

// So many rows that list nothing.
pub fn empty_rows(alloc: Global, length: usize) -> Result<Vec<Items<FileNo>>, AllocError>
    ensures length { IfOk result (λ rows. vec_len rows ≡ length) }
    ensures empty { IfOk result (λ rows. All (λ row. row ≡ []) rows.items) }
{
    let mut rows = Vec::new(alloc);
    for _ in 0..length {
        rows.push(Items::new(alloc))?;
    }
    Ok(rows)
}

// Adds `file` to the row at `at`.
pub fn add_to(rows: &mut Vec<Items<FileNo>>, at: FileNo, file: FileNo) -> Result<(), AllocError>
    requires at { at < vec_len rows.old }
    requires file { file < vec_len rows.old }
    requires within { All (AllWithin (vec_len rows.old)) rows.old.items }
    ensures length { OnOk result (vec_len rows.new ≡ vec_len rows.old) }
    ensures within { OnOk result (All (AllWithin (vec_len rows.old)) rows.new.items) }
    ensures adds { OnOk result (rows.new.items ≡ slice_set rows.old.items at (slice_index_or rows.old.items at [] ++ file ∷ [])) }
{
    rows[at].push(file)
}

fn add_to_all(
    rows: &mut Vec<Items<FileNo>>,
    targets: &[FileNo],
    file: FileNo,
) -> Result<(), AllocError>
    requires targets { AllWithin (vec_len rows.old) targets.now }
    requires file { file < vec_len rows.old }
    requires within { All (AllWithin (vec_len rows.old)) rows.old.items }
    ensures length { OnOk result (vec_len rows.new ≡ vec_len rows.old) }
    ensures within { OnOk result (All (AllWithin (vec_len rows.old)) rows.new.items) }
    ensures adds { OnOk result (Adds rows.old.items rows.new.items targets.now file) }
{
    for &target in targets {
        add_to(rows, target, file)?;
    }
    Ok(())
}

// For each file those that import it.
pub fn importers(alloc: Global, imports: &[Items<FileNo>]) -> Result<Vec<Items<FileNo>>, AllocError>
    requires { All (AllWithin (length imports.now)) imports.now }
    ensures length { IfOk result (λ rows. vec_len rows ≡ length imports.now) }
    ensures within { IfOk result (λ rows. All (AllWithin (vec_len rows)) rows.items) }
    ensures turned { IfOk result (λ rows. IsTurned imports.now rows.items) }
{
    let mut rows = empty_rows(alloc, imports.len())?;
    for (file, targets) in imports.iter().enumerate() {
        add_to_all(&mut rows, targets.as_slice(), file)?;
    }
    Ok(rows)
}

// What is to be done next on a tour.
#[derive(Clone, Copy)]
enum Step {
    Enter(FileNo),
    Leave(FileNo),
}

// A tour: which files were entered, what is to be done, the last first, and which files were left, in that order.
#[derive(Drop)]
struct Tour {
    entered: Vec<bool>,
    steps: Vec<Step>,
    left: Vec<FileNo>,
}

impl Tour {
    fn enter_later(&mut self, files: &[FileNo]) -> Result<(), AllocError>
        requires files { AllWithin (vec_len self.old.entered) files.now }
        requires tour { IsTour self.old }
        ensures tour { OnOk result (IsTour self.new) }
        ensures entered { OnOk result (self.new.entered.items ≡ self.old.entered.items) }
        ensures steps { OnOk result (vec_len self.new.steps ≡ vec_len self.old.steps + length files.now) }
    {
        for &file in files {
            self.steps.push(Step::Enter(file))?;
        }
        Ok(())
    }

    fn enter(&mut self, next: &[Items<FileNo>], file: FileNo) -> Result<(), AllocError>
        requires file { file < vec_len self.old.entered }
        requires next { All (AllWithin (vec_len self.old.entered)) next.now }
        requires length { length next.now ≡ vec_len self.old.entered }
        requires tour { IsTour self.old }
        ensures tour { OnOk result (IsTour self.new) }
        ensures length { OnOk result (vec_len self.new.entered ≡ vec_len self.old.entered) }
        ensures lighter { OnOk result (work next.now self.new ≤ work next.now self.old) }
    {
        if !self.entered[file] {
            self.entered[file] = true;
            self.steps.push(Step::Leave(file))?;
            self.enter_later(next[file].as_slice())?;
        }
        Ok(())
    }

    fn take(&mut self, next: &[Items<FileNo>], step: Step) -> Result<(), AllocError>
        requires step { IsWithin (vec_len self.old.entered) step }
        requires next { All (AllWithin (vec_len self.old.entered)) next.now }
        requires length { length next.now ≡ vec_len self.old.entered }
        requires tour { IsTour self.old }
        ensures tour { OnOk result (IsTour self.new) }
        ensures length { OnOk result (vec_len self.new.entered ≡ vec_len self.old.entered) }
        ensures lighter { OnOk result (work next.now self.new ≤ work next.now self.old) }
    {
        match step {
            Step::Enter(file) => self.enter(next, file),
            Step::Leave(file) => Ok(self.left.push(file)?),
        }
    }

    fn tour_from(&mut self, next: &[Items<FileNo>], file: FileNo) -> Result<(), AllocError>
        requires file { file < vec_len self.old.entered }
        requires next { All (AllWithin (vec_len self.old.entered)) next.now }
        requires length { length next.now ≡ vec_len self.old.entered }
        requires tour { IsTour self.old }
        ensures tour { OnOk result (IsTour self.new) }
        ensures length { OnOk result (vec_len self.new.entered ≡ vec_len self.old.entered) }
    {
        self.steps.push(Step::Enter(file))?;
        while let Some(step) = self.steps.pop() {
            self.take(next, step)?;
        }
        Ok(())
    }
}

// The files in the order in which the tour leaves them: a file after all that the tour goes to from it.
pub fn leaving_order(alloc: Global, imports: &[Items<FileNo>]) -> Result<Vec<FileNo>, AllocError>
    requires { All (AllWithin (length imports.now)) imports.now }
    ensures { IfOk result (λ order. AllWithin (length imports.now) order.items) }
{
    let importers = importers(alloc, imports)?;
    let mut tour = Tour {
        entered: vec![in alloc; false; imports.len()]?,
        steps: Vec::new(alloc),
        left: Vec::new(alloc),
    };
    for file in 0..imports.len() {
        tour.tour_from(importers.as_slice(), file)?;
    }
    Ok(tour.left)
}
