// Files with their declarations by name.
ghost use Rattle.std.specs.Prelude.{◌≡◌, ◌<◌, ◌≤◌, length, map, take, All, false, IfOk};
ghost use Rattle.std.specs.List.{flat_map, insert, remove};
ghost use Rattle.std.specs.List.Sorted.{IsNonDecreasing};
ghost use Rattle.proto_decls.specs.Text.{joined};
ghost use Rattle.proto_names.specs.Buckets.{AreByName, AreInBuckets};
ghost use Rattle.proto_names.specs.Entries.{all_entries};
ghost use Rattle.proto_names.specs.Files.{all_named, facts_at, name_at};
ghost use Rattle.proto_names.specs.Holders.{is_held, IsLast};
ghost use Rattle.proto_decls.specs.FullNames.{AreNameParts, has_dot, hash_of};
ghost use Rattle.proto_names.specs.Outlines.{with_facts, exports};
ghost use Rattle.proto_names.specs.Replaced.{WereInBuckets};
ghost use Rattle.proto_names.specs.Tables.{by_name, by_scope, holder_entries, name_entries};

use crate::buckets::{Buckets, count_one};
use crate::decl_ref::DeclRef;
use crate::entry_order::{ByName, ByScope};
use crate::hashed::{HashedDecl, with_text};
use crate::holders::last_place;
use crate::kept::{Kept, kept_of};
use crate::moving::Change;
use crate::name_entries::{NameEntries, OwnEntries, entries_beside};
use crate::naming::{FullNames, LastComponents};
use crate::packages::unsplit;
use crate::replacing::{change_holders, change_names};
use proto_decls::{FullName, NameParts, NamedFacts, SharedFacts, split_name};
use std::alloc::{AllocError, Global};
use std::marker::Model;

/// Files with the declarations of each full name. A file is its number in their list, counted from 0. Contracts see the list of
/// the files.
#[derive(Drop)]
pub struct NameTable {
    files: Vec<NamedFacts>,
    // All declarations by full name.
    names: Buckets,
    // Messages, enums and services by the last components of their full names, then by what stands before those.
    holders: Buckets,
}

impl Model for NameTable {
    ghost use Rattle.std.specs.Prelude.{List};
    ghost use Rattle.proto_decls.specs.declared.named_facts.NamedFacts.{NamedFacts};
    ghost use Rattle.proto_names.specs.Buckets.{AreByName};

    ghost Value = { List NamedFacts };

    ghost view = { λ t. t.files.items };

    ghost invariant = { λ t. AreByName t.files.items t.names t.holders };
}

// A table gets one entry anew in the time in which so many of a bucket are compared and moved, by measurement.
const MOVES_OF_ONE: usize = 32;

// A bucket with more entries than so many is long. It may be that many declarations have one name, or that buckets are few for all entries.
const LONG_BUCKET: usize = 256;

// Buckets are few for all entries if each has more than so many, on the average. A table that is made anew has at most 64 for each.
const CROWDED_BUCKET: usize = 128;

/// All declarations of some files by full name, in buckets, where the hashes of these are given, of each file by offset. An `Err` comes only where memory
/// was refused.
pub fn names_in_buckets(
    alloc: Global,
    files: &[NamedFacts],
    hashes: Vec<Vec<u64>>,
) -> Result<Buckets, AllocError>
    ensures { IfOk result (λ b. AreInBuckets (by_name (name_at files.now)) (all_entries (map (λ own. own.items) hashes.items)) b.list.items) }
{
    Buckets::of_names::<ByName>(alloc, files, hashes)
}

/// What may settle a scope, by last component, in buckets, of runs of entries for it. An `Err` comes only where memory was refused.
pub fn holders_in_buckets(
    alloc: Global,
    files: &[NamedFacts],
    runs: Vec<Vec<HashedDecl>>,
) -> Result<Buckets, AllocError>
    ensures { IfOk result (λ b. AreInBuckets (by_scope (name_at files.now)) (flat_map (λ run. run.items) runs.items) b.list.items) }
{
    Buckets::of::<ByScope>(alloc, files, runs)
}

// The same files, whose facts are shared.
fn copy_files(alloc: Global, files: &[NamedFacts]) -> Result<Vec<NamedFacts>, AllocError>
    ensures { IfOk result (λ c. c.items ≡ files.now) }
{
    let mut copies = Vec::with_capacity(alloc, files.len())?;
    for file in files {
        copies.push(NamedFacts {
            path: file.path.copy(alloc)?,
            facts: file.facts.another()?,
        })?;
    }
    Ok(copies)
}

// Counts the entries to their buckets, of which these are the lengths, and gives how many are in the bucket of each one then, added up.
fn count_in(entries: &[HashedDecl], lens: &mut Vec<usize>) -> usize
    requires { 0 < length lens.old.items }
    ensures { length lens.new.items ≡ length lens.old.items }
{
    let mut moves = 0usize;
    for one in entries {
        moves = moves.saturating_add(count_one(one.hash, lens));
    }
    moves
}

// How many entries there are in buckets.
fn entry_count(buckets: &Buckets) -> usize {
    let mut count = 0usize;
    for bucket in buckets.list.as_slice() {
        count = count.saturating_add(bucket.hashes.len());
    }
    count
}

// Whether there are far more entries than buckets are meant for, as after many files came one by one. They are counted only if one
// that comes falls into a long bucket. Only time depends on the answer.
fn is_crowded(buckets: &Buckets, come: &[HashedDecl]) -> bool
    requires { 0 < length buckets.now.list.items }
{
    for one in come {
        if buckets.of_hash(one.hash).hashes.len() > LONG_BUCKET {
            return entry_count(buckets) / buckets.list.len() > CROWDED_BUCKET;
        }
    }
    false
}

// Whether it takes longer that these entries go and come one by one than that a table gets all entries anew, as where many are in one
// bucket. Only time depends on the answer. An `Err` comes only where memory was refused.
fn is_slow(
    alloc: Global,
    buckets: &Buckets,
    gone: &[HashedDecl],
    come: &[HashedDecl],
) -> Result<bool, AllocError>
    requires { 0 < length buckets.now.list.items }
{
    // (with so few the answer is no: each compares and moves every entry once at most)
    if gone.len().saturating_add(come.len()) < MOVES_OF_ONE {
        return Ok(false);
    }
    let mut lens = Vec::with_capacity(alloc, buckets.list.len())?;
    for bucket in buckets.list.as_slice() {
        lens.push(bucket.hashes.len())?;
    }
    let all = entry_count(buckets).saturating_add(come.len());
    let moves = count_in(gone, &mut lens).saturating_add(count_in(come, &mut lens));
    Ok(moves / MOVES_OF_ONE > all)
}

// Whether a table is to get all entries anew, and not only these. Only time depends on the answer. An `Err` comes only where memory was refused.
fn is_due(
    alloc: Global,
    buckets: &Buckets,
    gone: &[HashedDecl],
    come: &[HashedDecl],
) -> Result<bool, AllocError>
    requires { 0 < length buckets.now.list.items }
{
    Ok(is_crowded(buckets, come) || is_slow(alloc, buckets, gone, come)?)
}

// The table of the files, where the buckets have entries of other files, before a change: those are gone, and these come. An `Err` comes
// only where memory was refused.
fn with_entries(
    alloc: Global,
    files: Vec<NamedFacts>,
    names: Buckets,
    holders: Buckets,
    gone: &OwnEntries,
    come: &OwnEntries,
) -> Result<NameTable, AllocError>
    requires names { WereInBuckets by_name (name_at files.items) (name_entries files.items) gone.now.names.items come.now.names.items names.list.items }
    requires holders { WereInBuckets by_scope (name_at files.items) (holder_entries files.items) gone.now.holders.items come.now.holders.items holders.list.items }
    ensures { IfOk result (λ t. t ≡ files.items) }
{
    if is_due(alloc, &names, gone.names.as_slice(), come.names.as_slice())?
        || is_due(
            alloc,
            &holders,
            gone.holders.as_slice(),
            come.holders.as_slice(),
        )?
    {
        return NameTable::of(alloc, NameEntries::of(alloc, files)?);
    }
    let mut names = names;
    let mut holders = holders;
    change_names(
        files.as_slice(),
        gone.names.as_slice(),
        come.names.as_slice(),
        &mut names,
    )?;
    change_holders(
        files.as_slice(),
        gone.holders.as_slice(),
        come.holders.as_slice(),
        &mut holders,
    )?;
    Ok(NameTable {
        files,
        names,
        holders,
    })
}

impl NameTable {
    /// The table of the files of some entries. An `Err` comes only where memory was refused; the entries are gone then.
    pub fn of(alloc: Global, entries: NameEntries) -> Result<NameTable, AllocError>
        ensures { IfOk result (λ t. t ≡ entries) }
    {
        let (files, hashes, holders) = entries.into_parts();
        let names = names_in_buckets(alloc, files.as_slice(), hashes)?;
        let holders = holders_in_buckets(alloc, files.as_slice(), holders)?;
        Ok(NameTable {
            files,
            names,
            holders,
        })
    }

    /// The table of these files, where all their declarations are in buckets by full name, and what may settle a scope by last component.
    pub fn of_buckets(files: Vec<NamedFacts>, names: Buckets, holders: Buckets) -> NameTable
        requires { AreByName files.items names holders }
        ensures { result ≡ files.items }
    {
        NameTable {
            files,
            names,
            holders,
        }
    }

    /// The same table, in memory of its own but for the facts, which it shares. An `Err` comes only where memory was refused.
    pub fn copy(&self, alloc: Global) -> Result<NameTable, AllocError>
        ensures { IfOk result (λ t. t ≡ self.now) }
    {
        let files = copy_files(alloc, self.files.as_slice())?;
        let names = self.names.copy(alloc)?;
        let holders = self.holders.copy(alloc)?;
        Ok(NameTable {
            files,
            names,
            holders,
        })
    }

    /// The files.
    pub fn files(&self) -> &[NamedFacts]
        ensures { result.now ≡ self.now }
    {
        &self.files
    }

    /// The declarations of a full name, by file, then offset. Takes no memory.
    pub fn decls_named(&self, full_name: &str) -> &[DeclRef]
        ensures { result.now ≡ all_named self.now full_name.now }
    {
        let name = split_name(full_name.as_bytes());
        self.decls_of_parts(name.hash(), name)
    }

    /// The declarations with this full name, by file, then offset. Takes no memory.
    pub fn decls_of(&self, full_name: &FullName) -> &[DeclRef]
        ensures { result.now ≡ all_named self.now full_name.now }
    {
        self.decls_of_parts(full_name.hash(), full_name.parts())
    }

    // The declarations with the full name of this hash and these parts, by file, then offset.
    fn decls_of_parts(&self, hash: u64, name: NameParts<'_>) -> &[DeclRef]
        requires apart { AreNameParts name.scope.now name.last.now }
        requires hash { hash ≡ hash_of (joined name.scope.now name.last.now) }
        ensures { result.now ≡ all_named self.now (joined name.entry.scope.now name.entry.last.now) }
    {
        let bucket = self.names.of_hash(hash);
        with_text::<FullNames>(self.files.as_slice(), bucket, hash, name)
    }

    /// The longest front part of a scope, of these lengths, in which a message, an enum or a service of the name is declared:
    /// the length's place in the list. The name has no dot.
    pub fn last_held(&self, scope: &str, lengths: &[usize], name: &str) -> Option<usize>
        requires ascending { IsNonDecreasing lengths.now }
        requires within { All (λ l. l ≤ length scope.now) lengths.now }
        requires plain { has_dot name.now ≡ false }
        ensures { IsLast (λ l. is_held self.now (joined (take l scope.now) name.now)) lengths.now result }
    {
        let last = unsplit(name.as_bytes());
        let hash = last.hash();
        let bucket = self.holders.of_hash(hash);
        let decls = with_text::<LastComponents>(self.files.as_slice(), bucket, hash, last);
        last_place(self.files.as_slice(), decls, scope.as_bytes(), lengths)
    }

    /// Puts other facts of a file, given by its number from 0, in the place of its facts, which say the same to the other files.
    /// Takes no memory.
    pub fn set_facts(&mut self, file: usize, facts: SharedFacts)
        requires within { file < length self.old }
        requires exports { exports facts ≡ exports (facts_at self.old file) }
        ensures { self.new ≡ with_facts self.old file facts }
    {
        self.files[file].facts = facts;
    }

    /// The table with other facts of a file, given by its number from 0. Only the names of that file that the change concerns leave their
    /// places or get one, and all others stay in theirs, except where the table is made anew sooner. An `Err` comes only where memory
    /// was refused; the table is gone then.
    pub fn replace(
        self,
        alloc: Global,
        file: usize,
        facts: SharedFacts,
    ) -> Result<NameTable, AllocError>
        requires { file < length self }
        ensures { IfOk result (λ t. t ≡ with_facts self file facts) }
    {
        let NameTable {
            mut files,
            names,
            holders,
        } = self;
        let kept = kept_of(
            files[file].facts.get().decls.as_slice(),
            facts.get().decls.as_slice(),
        );
        let gone = entries_beside(alloc, files.as_slice(), file, kept)?;
        files[file].facts = facts;
        let come = entries_beside(alloc, files.as_slice(), file, kept)?;
        with_entries(alloc, files, names, holders, &gone, &come)
    }

    /// The table with one more file, which gets the number `at`, counted from 0: those from there on have one more. Only the names of
    /// that file get places, and all others stay in theirs, except where the table is made anew sooner. An `Err` comes only where memory was
    /// refused; the table is gone then.
    pub fn with_file(
        self,
        alloc: Global,
        at: usize,
        file: NamedFacts,
    ) -> Result<NameTable, AllocError>
        requires { at ≤ length self }
        ensures { IfOk result (λ t. t ≡ insert self at file) }
    {
        let NameTable {
            mut files,
            mut names,
            mut holders,
        } = self;
        files.insert(at, file)?;
        names.make_way(at, files.len());
        holders.make_way(at, files.len());
        let gone = OwnEntries {
            names: Vec::new(alloc),
            holders: Vec::new(alloc),
        };
        let come = entries_beside(alloc, files.as_slice(), at, Kept { front: 0, back: 0 })?;
        with_entries(alloc, files, names, holders, &gone, &come)
    }

    /// The table without the file of the number `at`, counted from 0: those behind it have one less. Only the names of that file leave
    /// their places, and all others stay in theirs, except where the table is made anew sooner. An `Err` comes only where memory was
    /// refused; the table is gone then.
    pub fn without_file(self, alloc: Global, at: usize) -> Result<NameTable, AllocError>
        requires { at < length self }
        ensures { IfOk result (λ t. t ≡ remove self at) }
    {
        let NameTable {
            mut files,
            mut names,
            mut holders,
        } = self;
        let gone = entries_beside(alloc, files.as_slice(), at, Kept { front: 0, back: 0 })?;
        if is_slow(alloc, &names, gone.names.as_slice(), &[])?
            || is_slow(alloc, &holders, gone.holders.as_slice(), &[])?
        {
            files.remove(at);
            return NameTable::of(alloc, NameEntries::of(alloc, files)?);
        }
        names.leave_out(gone.names.as_slice());
        holders.leave_out(gone.holders.as_slice());
        names.renumber(Change::Leaves, at);
        holders.renumber(Change::Leaves, at);
        files.remove(at);
        Ok(NameTable {
            files,
            names,
            holders,
        })
    }
}
