// Files with the hashes of the names of their declarations, before these are put in order.
ghost use Rattle.std.specs.Prelude.{◌≡◌, ◌≤◌, ◌+◌, ◌-◌, ◌++◌, ◌<◌, All, IfOk, OnOk, [], length, map, filter};
ghost use Rattle.proto_names.specs.Entries.{hashes_of, with_renumbered, AreEntriesOf};
ghost use Rattle.proto_names.specs.Files.{decls_at, refs_of, kind_at, name_at};
ghost use Rattle.proto_names.specs.Hashed.{hashed};
ghost use Rattle.proto_names.specs.Holders.{is_holder};
ghost use Rattle.proto_names.specs.Replaced.{refs_between};
ghost use Rattle.proto_names.specs.Tables.{holder_entries};
ghost use Rattle.proto_decls.specs.FullNames.{hash_of, last_of};

use crate::decl_ref::DeclRef;
use crate::decls::{decls_between, decls_of};
use crate::entry_order::{ByScope, sort_entries};
use crate::hashed::{HashedDecl, hashed_decls};
use crate::holders::holders_of;
use crate::kept::Kept;
use crate::naming::{FullNames, LastComponents};
use proto_decls::{Decl, NamedFacts};
use std::alloc::{AllocError, Global};
use std::marker::Model;

/// Files with the hashes of the full names of their declarations, and entries for those that may settle a scope: what a thread makes of its
/// share of all files, and what a [`NameTable`](crate::NameTable) is made of. A file is its number in the list of these files, counted from 0. Contracts see
/// the list of the files.
#[derive(Drop)]
pub struct NameEntries {
    files: Vec<NamedFacts>,
    // For each file the hashes of the full names of its declarations, by offset.
    hashes: Vec<Vec<u64>>,
    // Messages, enums and services by the last components of their full names, in runs. In whatever order they stand, a table answers
    // the same; it is made sooner if each run is in its order.
    holders: Vec<Vec<HashedDecl>>,
}

impl Model for NameEntries {
    ghost use Rattle.std.specs.Prelude.{List, map};
    ghost use Rattle.proto_decls.specs.declared.named_facts.NamedFacts.{NamedFacts};
    ghost use Rattle.proto_names.specs.Entries.{AreEntriesOf};

    ghost Value = { List NamedFacts };

    ghost view = { λ e. e.files.items };

    ghost invariant = { λ e. AreEntriesOf e.files.items (map (λ own. own.items) e.hashes.items) (map (λ run. run.items) e.holders.items) };
}

// Entries for these declarations by their full names.
fn names_of(
    alloc: Global,
    files: &[NamedFacts],
    decls: &[DeclRef],
) -> Result<Vec<HashedDecl>, AllocError>
    ensures { IfOk result (λ v. v.items ≡ map (hashed (name_at files.now)) decls.now) }
{
    hashed_decls::<FullNames>(alloc, files, decls)
}

// Entries for those of these declarations that may settle a scope, by the last components of their full names.
fn holders_among(
    alloc: Global,
    files: &[NamedFacts],
    decls: &[DeclRef],
) -> Result<Vec<HashedDecl>, AllocError>
    ensures { IfOk result (λ v. v.items ≡ map (hashed (λ r. last_of (name_at files.now r))) (filter (λ r. is_holder (kind_at files.now r)) decls.now)) }
{
    let holders = holders_of(alloc, files, decls)?;
    hashed_decls::<LastComponents>(alloc, files, holders.as_slice())
}

// The hashes of the full names of some declarations.
fn name_hashes(alloc: Global, decls: &[Decl]) -> Result<Vec<u64>, AllocError>
    ensures { IfOk result (λ hashes. hashes.items ≡ map (λ d. hash_of d.full_name) decls.now) }
{
    let mut hashes = Vec::with_capacity(alloc, decls.len())?;
    for decl in decls {
        hashes.push(decl.full_name.hash())?;
    }
    Ok(hashes)
}

// The hashes of the full names of the declarations of each of some files.
fn all_hashes(alloc: Global, files: &[NamedFacts]) -> Result<Vec<Vec<u64>>, AllocError>
    ensures { IfOk result (λ hashes. map (λ own. own.items) hashes.items ≡ map hashes_of files.now) }
{
    let mut hashes = Vec::with_capacity(alloc, files.len())?;
    for file in files {
        hashes.push(name_hashes(alloc, file.facts.get().decls.as_slice())?)?;
    }
    Ok(hashes)
}

// Entries for those declarations of a file, given by its number from 0, that may settle a scope, by the last components of their full names.
fn holders_in(
    alloc: Global,
    files: &[NamedFacts],
    file: usize,
) -> Result<Vec<HashedDecl>, AllocError>
    requires { file < length files.now }
    ensures { IfOk result (λ v. v.items ≡ map (hashed (λ r. last_of (name_at files.now r))) (filter (λ r. is_holder (kind_at files.now r)) (refs_of file (decls_at files.now file)))) }
{
    let decls = decls_of(alloc, files, file)?;
    holders_among(alloc, files, decls.as_slice())
}

// Entries for those declarations of all files that may settle a scope.
fn all_holders(alloc: Global, files: &[NamedFacts]) -> Result<Vec<HashedDecl>, AllocError>
    ensures { IfOk result (λ v. v.items ≡ holder_entries files.now) }
{
    let mut holders = Vec::new(alloc);
    for file in 0..files.len() {
        holders.append(&mut holders_in(alloc, files, file)?)?;
    }
    Ok(holders)
}

// Entries of one file.
#[derive(Drop)]
pub struct OwnEntries {
    // Declarations by full name.
    pub names: Vec<HashedDecl>,
    // Messages, enums and services by the last components of their full names.
    pub holders: Vec<HashedDecl>,
}

// The entries of a file, given by its number from 0, beside those of the declarations that a change keeps.
pub fn entries_beside(
    alloc: Global,
    files: &[NamedFacts],
    file: usize,
    kept: Kept,
) -> Result<OwnEntries, AllocError>
    requires within { file < length files.now }
    requires kept { kept.front + kept.back ≤ length (decls_at files.now file) }
    ensures names { IfOk result (λ e. e.names.items ≡ map (hashed (name_at files.now)) (refs_between file kept.front (length (decls_at files.now file) - kept.back))) }
    ensures holders { IfOk result (λ e. e.holders.items ≡ map (hashed (λ r. last_of (name_at files.now r))) (filter (λ r. is_holder (kind_at files.now r)) (refs_between file kept.front (length (decls_at files.now file) - kept.back)))) }
{
    let end = files[file].facts.get().decls.as_slice().len() - kept.back;
    let decls = decls_between(alloc, file, kept.front, end)?;
    Ok(OwnEntries {
        names: names_of(alloc, files, decls.as_slice())?,
        holders: holders_among(alloc, files, decls.as_slice())?,
    })
}

// Renumbers the entries of files that stand behind so many others.
fn renumber(by: usize, entries: &mut Vec<HashedDecl>)
    requires { All (λ k. by + k.decl.file ≤ 18446744073709551615) entries.old.items }
    ensures { entries.new.items ≡ map (with_renumbered by) entries.old.items }
{
    for entry in entries.iter_mut() {
        entry.decl.file += by;
    }
}

// Adds runs of entries of files that stand behind so many others, renumbered.
fn push_renumbered(
    by: usize,
    runs: Vec<Vec<HashedDecl>>,
    found: &mut Vec<Vec<HashedDecl>>,
) -> Result<(), AllocError>
    requires { All (λ run. All (λ k. by + k.decl.file ≤ 18446744073709551615) run.items) runs.items }
    ensures { OnOk result (map (λ run. run.items) found.new.items ≡ map (λ run. run.items) found.old.items ++ map (λ run. map (with_renumbered by) run.items) runs.items) }
{
    for run in runs {
        let mut run = run;
        renumber(by, &mut run);
        found.push(run)?;
    }
    Ok(())
}

impl NameEntries {
    /// That of no files.
    pub fn new(alloc: Global) -> NameEntries
        ensures { result ≡ [] }
    {
        NameEntries {
            files: Vec::new(alloc),
            hashes: Vec::new(alloc),
            holders: Vec::new(alloc),
        }
    }

    /// What a table of these files is made of. An `Err` comes only where memory was refused; the files are gone then.
    pub fn of(alloc: Global, files: Vec<NamedFacts>) -> Result<NameEntries, AllocError>
        ensures { IfOk result (λ e. e ≡ files.items) }
    {
        let hashes = all_hashes(alloc, files.as_slice())?;
        let mut holders = all_holders(alloc, files.as_slice())?;
        // (types that many files declare by one last component are put in order here, by the threads of these files)
        sort_entries::<ByScope>(files.as_slice(), &mut holders)?;
        Ok(NameEntries {
            files,
            hashes,
            holders: vec![in alloc; holders]?,
        })
    }

    /// How many files there are.
    pub fn file_count(&self) -> usize
        ensures { result ≡ length self.now }
    {
        self.files.len()
    }

    /// The files; the hashes of the full names of the declarations of each one, by offset; and entries for what may settle a scope, by last
    /// component, in runs.
    pub fn into_parts(self) -> (Vec<NamedFacts>, Vec<Vec<u64>>, Vec<Vec<HashedDecl>>)
        ensures files { (let files = result.0 in files.items) ≡ self }
        ensures entries { AreEntriesOf (let files = result.0 in files.items) (map (λ own. own.items) (let hashes = result.1 in hashes.items)) (map (λ run. run.items) (let holders = result.2 in holders.items)) }
    {
        let NameEntries {
            files,
            hashes,
            holders,
        } = self;
        (files, hashes, holders)
    }

    /// The same of these files, then of the others, renumbered. An `Err` comes only where memory was refused; both are gone then.
    pub fn followed_by(self, others: NameEntries) -> Result<NameEntries, AllocError>
        ensures { IfOk result (λ e. e ≡ self ++ others) }
    {
        let NameEntries {
            mut files,
            mut hashes,
            mut holders,
        } = self;
        let NameEntries {
            files: mut more,
            hashes: mut other_hashes,
            holders: other_holders,
        } = others;
        let by = files.len();
        files.append(&mut more)?;
        hashes.append(&mut other_hashes)?;
        push_renumbered(by, other_holders, &mut holders)?;
        Ok(NameEntries {
            files,
            hashes,
            holders,
        })
    }
}
