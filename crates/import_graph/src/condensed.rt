// Fewer steps that lead to the same files: what files lead to that lead to one another is listed for one of them.

ghost use Rattle.std.specs.Prelude.{◌≡◌, ◌↔◌, ◌<◌, ◌≤◌, ◌⊎◌, ℕ, List, length, vec_len, slice_index_or, IfOk, OnOk, All, Contains};
ghost use Rattle.std.specs.List.Sorted.{IsStrictlyIncreasing};
ghost use Rattle.import_graph.specs.Walks.{AllWithin, Lists};
ghost use Rattle.import_graph.specs.Condensed.{StandsFor, LeadAlike, Adds, IsOne, IsStepOf, IsToTarget, representative};

use crate::components::{Components, components_of};
use crate::file_search::ascending;
use crate::paths::FileNo;
use crate::tour::{add_to, empty_rows};
use sqlite_items::Items;
use std::alloc::{AllocError, Global};

// The file that stands for a file: the first one with its number, where both are known to lead to each other, and else the
// file itself.
fn representative_of(components: &Components, file: FileNo) -> FileNo
    requires file { file < vec_len components.now.numbers }
    requires tied { vec_len components.now.tied ≡ vec_len components.now.numbers }
    ensures within { result < vec_len components.now.numbers }
    ensures stands { StandsFor components.now.numbers.items components.now.tied.items result file }
{
    let number = components.numbers[file];
    let Some(&first) = components.firsts.get(number) else {
        return file;
    };
    if first >= components.numbers.len() || components.numbers[first] != number {
        return file;
    }
    if components.tied[first] && components.tied[file] {
        first
    } else {
        file
    }
}

// For each file the one that stands for it.
pub fn representatives_of(alloc: Global, components: &Components) -> Result<Vec<FileNo>, AllocError>
    requires { vec_len components.now.tied ≡ vec_len components.now.numbers }
    ensures length { IfOk result (λ v. vec_len v ≡ vec_len components.now.numbers) }
    ensures within { IfOk result (λ v. AllWithin (vec_len components.now.numbers) v.items) }
    ensures stands { IfOk result (λ v. (f : ℕ) → StandsFor components.now.numbers.items components.now.tied.items (representative v.items f) f) }
{
    let mut found = Vec::with_capacity(alloc, components.numbers.len())?;
    for file in 0..components.numbers.len() {
        found.push(representative_of(components, file))?;
    }
    Ok(found)
}

// Adds a step, unless it stays at its file.
fn add_step(rows: &mut Vec<Items<FileNo>>, from: FileNo, to: FileNo) -> Result<(), AllocError>
    requires from { from < vec_len rows.old }
    requires to { to < vec_len rows.old }
    requires within { All (AllWithin (vec_len rows.old)) rows.old.items }
    ensures length { OnOk result (vec_len rows.new ≡ vec_len rows.old) }
    ensures within { OnOk result (All (AllWithin (vec_len rows.old)) rows.new.items) }
    ensures adds { OnOk result (Adds (IsOne from to) rows.old.items rows.new.items) }
{
    if from != to {
        add_to(rows, from, to)?;
    }
    Ok(())
}

// Adds steps from a file to those that stand for the targets.
fn add_steps(
    rows: &mut Vec<Items<FileNo>>,
    representatives: &[FileNo],
    from: FileNo,
    targets: &[FileNo],
) -> Result<(), AllocError>
    requires count { length representatives.now ≡ vec_len rows.old }
    requires representatives { AllWithin (vec_len rows.old) representatives.now }
    requires from { from < vec_len rows.old }
    requires targets { AllWithin (vec_len rows.old) targets.now }
    requires within { All (AllWithin (vec_len rows.old)) rows.old.items }
    ensures length { OnOk result (vec_len rows.new ≡ vec_len rows.old) }
    ensures within { OnOk result (All (AllWithin (vec_len rows.old)) rows.new.items) }
    ensures adds { OnOk result (Adds (IsToTarget representatives.now from targets.now) rows.old.items rows.new.items) }
{
    for &target in targets {
        add_step(rows, from, representatives[target])?;
    }
    Ok(())
}

// Adds the steps of a file: to the one that stands for it and back, and from there to those that stand for its targets.
fn add_file(
    rows: &mut Vec<Items<FileNo>>,
    representatives: &[FileNo],
    file: FileNo,
    targets: &[FileNo],
) -> Result<(), AllocError>
    requires count { length representatives.now ≡ vec_len rows.old }
    requires representatives { AllWithin (vec_len rows.old) representatives.now }
    requires file { file < vec_len rows.old }
    requires targets { AllWithin (vec_len rows.old) targets.now }
    requires within { All (AllWithin (vec_len rows.old)) rows.old.items }
    ensures length { OnOk result (vec_len rows.new ≡ vec_len rows.old) }
    ensures within { OnOk result (All (AllWithin (vec_len rows.old)) rows.new.items) }
    ensures adds { OnOk result (Adds (IsStepOf representatives.now file targets.now) rows.old.items rows.new.items) }
{
    let first = representatives[file];
    add_step(rows, file, first)?;
    add_step(rows, first, file)?;
    add_steps(rows, representatives, first, targets)
}

// The files of a list, each once.
fn each_once(alloc: Global, files: &[FileNo]) -> Result<Items<FileNo>, AllocError>
    ensures { IfOk result (λ v. (g : ℕ) → Contains v g ↔ Contains files.now g) }
{
    let files = Vec::from_slice(alloc, files)?;
    Ok(Items::from_vec(ascending(files)))
}

// The rows, each file once in each.
fn rows_once(alloc: Global, rows: &[Items<FileNo>]) -> Result<Vec<Items<FileNo>>, AllocError>
    ensures length { IfOk result (λ v. vec_len v ≡ length rows.now) }
    ensures same { IfOk result (λ v. (a b : ℕ) → Lists v.items a b ↔ Lists rows.now a b) }
{
    let mut found = Vec::with_capacity(alloc, rows.len())?;
    for row in rows {
        found.push(each_once(alloc, row.as_slice())?)?;
    }
    Ok(found)
}

// Steps that lead from each file to the same ones as those of `next`.
pub fn condensed_steps(
    alloc: Global,
    next: &[Items<FileNo>],
) -> Result<Vec<Items<FileNo>>, AllocError>
    requires { All (AllWithin (length next.now)) next.now }
    ensures length { IfOk result (λ rows. vec_len rows ≡ length next.now) }
    ensures within { IfOk result (λ rows. All (AllWithin (length next.now)) rows.items) }
    ensures alike { IfOk result (λ rows. LeadAlike rows.items next.now) }
{
    let components = components_of(alloc, next)?;
    let representatives = representatives_of(alloc, &components)?;
    let mut rows = empty_rows(alloc, next.len())?;
    for (file, targets) in next.iter().enumerate() {
        add_file(
            &mut rows,
            representatives.as_slice(),
            file,
            targets.as_slice(),
        )?;
    }
    rows_once(alloc, rows.as_slice())
}
