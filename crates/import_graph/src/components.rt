// Numbers for files, such that no import leads to a higher one, and which files of one number lead to one another.

ghost use Rattle.std.specs.Prelude.{◌≡◌, ◌<◌, ◌≤◌, ◌+◌, ℕ, [], List, length, vec_len, slice_index_or, IfOk, OnOk, All};
ghost use Rattle.import_graph.specs.Walks.{AllWithin};
ghost use Rattle.import_graph.specs.Components.{Descends};
ghost use Rattle.import_graph.specs.Ties.{IsTied};

use crate::paths::FileNo;
use crate::ties::tied;
use crate::tour::leaving_order;
use sqlite_items::Items;
use std::alloc::{AllocError, Global};

// The numbers that files have so far, and the files whose imports are still to be gone to.
#[derive(Drop)]
struct Placing {
    numbers: Vec<usize>,
    pending: Vec<FileNo>,
}

impl Placing {
    ghost use Rattle.import_graph.specs.Components.{Places, PlacesAll, Settles};

    // Gives the file the number, if it has none yet.
    fn place(&mut self, file: FileNo, none: usize, number: usize) -> Result<(), AllocError>
        requires { file < vec_len self.old.numbers }
        ensures { OnOk result (Places none number self.old self.new file) }
    {
        if self.numbers[file] == none {
            self.pending.push(file)?;
            self.numbers[file] = number;
        }
        Ok(())
    }

    fn place_all(&mut self, files: &[FileNo], none: usize, number: usize) -> Result<(), AllocError>
        requires files { AllWithin (vec_len self.old.numbers) files.now }
        requires number { number < none }
        ensures { OnOk result (PlacesAll none number self.old self.new files.now) }
    {
        for &file in files {
            self.place(file, none, number)?;
        }
        Ok(())
    }

    // Gives the number to all files without one that imports lead to from the file.
    fn place_from(
        &mut self,
        imports: &[Items<FileNo>],
        file: FileNo,
        none: usize,
        number: usize,
    ) -> Result<(), AllocError>
        requires file { file < length imports.now }
        requires within { All (AllWithin (length imports.now)) imports.now }
        requires number { number < none }
        requires settled { Settles imports.now none number self.old }
        requires done { self.old.pending.items ≡ [] }
        ensures settled { OnOk result (Settles imports.now none (number + 1) self.new) }
        ensures done { OnOk result (self.new.pending.items ≡ []) }
    {
        self.place_all(&[file], none, number)?;
        while let Some(file) = self.pending.pop() {
            self.place_all(imports[file].as_slice(), none, number)?;
        }
        Ok(())
    }
}

// What is known of the files that lead to one another.
#[derive(Drop)]
pub struct Components {
    // A number for each file. No import leads to a higher one, so files that lead to one another have the same.
    pub numbers: Vec<usize>,
    // The file from which each number was given.
    pub firsts: Vec<FileNo>,
    // Files of one number lead to one another, where both are flagged here. The tour is meant to flag all; nothing but
    // time depends on that.
    pub tied: Vec<bool>,
}

// The components of the files, which are given by their imports.
pub fn components_of(alloc: Global, imports: &[Items<FileNo>]) -> Result<Components, AllocError>
    requires { All (AllWithin (length imports.now)) imports.now }
    ensures numbered { IfOk result (λ c. vec_len c.numbers ≡ length imports.now) }
    ensures descends { IfOk result (λ c. Descends imports.now c.numbers.items) }
    ensures flagged { IfOk result (λ c. vec_len c.tied ≡ length imports.now) }
    ensures tied { IfOk result (λ c. IsTied imports.now c.numbers.items c.tied.items) }
{
    let mut order = leaving_order(alloc, imports)?;
    order.reverse();
    let none = order.len();
    let mut placing = Placing {
        numbers: vec![in alloc; none; imports.len()]?,
        pending: Vec::new(alloc),
    };
    for (number, &file) in order.iter().enumerate() {
        placing.place_from(imports, file, none, number)?;
    }
    let tied = tied(alloc, imports, placing.numbers.as_slice(), order.as_slice())?;
    Ok(Components {
        numbers: placing.numbers,
        firsts: order,
        tied,
    })
}
