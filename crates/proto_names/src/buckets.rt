// Declarations in buckets by the hashes of their full names, or of a part of these. So a change of a few names leaves most buckets as
// they are.
ghost use Rattle.std.specs.Prelude.{◌≡◌, ◌<◌, ◌%◌, ◌∷◌, ℕ, [], All, IfOk, OnOk, length, vec_len, filter, map, slice_index_or};
ghost use Rattle.std.specs.Cmp.{IsTotalOrder};
ghost use Rattle.std.specs.List.{flat_map};
ghost use Rattle.proto_names.specs.declared.hashed.HashedDecls.{HashedDecls};
ghost use Rattle.proto_names.specs.Buckets.{is_in, AreAllInOrder, AreCopies, AreDealt, AreInBuckets};
ghost use Rattle.proto_names.specs.Entries.{all_entries, entries_of};
ghost use Rattle.proto_names.specs.Tables.{AreInOrder};

use crate::decl_ref::DeclRef;
use crate::entry_order::{EntryOrder, sort_entries};
use crate::hashed::{HashedDecl, HashedDecls, apart};
use proto_decls::NamedFacts;
use std::alloc::{AllocError, Global};

/// Declarations in buckets. A hash belongs to the bucket whose number is its remainder by the number of buckets.
#[derive(Drop)]
pub struct Buckets {
    /// The buckets, at least one. Each has its declarations in order.
    pub list: Vec<HashedDecls>,
}

// For so many declarations there is a bucket, or for up to twice as many: the number of buckets is a power of two.
const DECLS_FOR_EACH: usize = 32;

// The number of the bucket to which a hash belongs, of so many.
pub fn bucket_of(hash: u64, count: usize) -> usize
    requires { 0 < count }
    ensures value { result ≡ hash % count }
    ensures within { result < count }
{
    // Of a power of two the remainder is the lowest bits, and no division is needed.
    let power = 1usize << count.ilog2();
    if power == count {
        (hash & (power as u64 - 1)) as usize
    } else {
        (hash % count as u64) as usize
    }
}

// Adds an entry to the list of its bucket.
fn deal_one(entry: HashedDecl, lists: &mut Vec<Vec<HashedDecl>>) -> Result<(), AllocError>
    requires { 0 < vec_len lists.old }
    ensures { OnOk result (AreDealt (entry ∷ []) (map (λ list. list.items) lists.old.items) (map (λ list. list.items) lists.new.items)) }
{
    let number = bucket_of(entry.hash, lists.len());
    lists[number].push(entry)?;
    Ok(())
}

// Adds each of the entries to the list of its bucket.
fn deal(entries: &[HashedDecl], lists: &mut Vec<Vec<HashedDecl>>) -> Result<(), AllocError>
    requires { 0 < vec_len lists.old }
    ensures { OnOk result (AreDealt entries.now (map (λ list. list.items) lists.old.items) (map (λ list. list.items) lists.new.items)) }
{
    for entry in entries {
        deal_one(*entry, lists)?;
    }
    Ok(())
}

// Adds an entry for each declaration of a file, given by its number from 0, of which these are the hashes of the full names.
fn deal_names(
    file: usize,
    hashes: &[u64],
    lists: &mut Vec<Vec<HashedDecl>>,
) -> Result<(), AllocError>
    requires { 0 < vec_len lists.old }
    ensures { OnOk result (AreDealt (entries_of file hashes.now) (map (λ list. list.items) lists.old.items) (map (λ list. list.items) lists.new.items)) }
{
    for (number, hash) in hashes.iter().enumerate() {
        let decl = DeclRef { file, number };
        deal_one(HashedDecl { hash: *hash, decl }, lists)?;
    }
    Ok(())
}

// Counts one more for the bucket of a hash, and gives how many that makes.
pub fn count_one(hash: u64, counts: &mut Vec<usize>) -> usize
    requires { 0 < vec_len counts.old }
    ensures { vec_len counts.new ≡ vec_len counts.old }
{
    let number = bucket_of(hash, counts.len());
    let count = counts[number].saturating_add(1);
    counts[number] = count;
    count
}

// How many of the entries of runs each of so many buckets gets.
fn counts_of(
    alloc: Global,
    runs: &[Vec<HashedDecl>],
    count: usize,
) -> Result<Vec<usize>, AllocError>
    requires { 0 < count }
    ensures { IfOk result (λ v. vec_len v ≡ count) }
{
    let mut counts = vec![in alloc; 0; count]?;
    for run in runs {
        for entry in run {
            count_one(entry.hash, &mut counts);
        }
    }
    Ok(counts)
}

// How many of these hashes each of so many buckets gets.
fn counts_of_hashes(
    alloc: Global,
    files: &[Vec<u64>],
    count: usize,
) -> Result<Vec<usize>, AllocError>
    requires { 0 < count }
    ensures { IfOk result (λ v. vec_len v ≡ count) }
{
    let mut counts = vec![in alloc; 0; count]?;
    for hashes in files {
        for hash in hashes {
            count_one(*hash, &mut counts);
        }
    }
    Ok(counts)
}

// Empty lists, each with room for just so many entries.
fn lists_for(alloc: Global, counts: &[usize]) -> Result<Vec<Vec<HashedDecl>>, AllocError>
    ensures { IfOk result (λ lists. (vec_len lists ≡ length counts.now) × All (λ list. list.items ≡ []) lists.items) }
{
    let mut lists = Vec::with_capacity(alloc, counts.len())?;
    for count in counts {
        lists.push(Vec::with_capacity(alloc, *count)?)?;
    }
    Ok(lists)
}

// The entries of runs, in the lists of their buckets, of which there are so many.
fn dealt(
    alloc: Global,
    runs: &[Vec<HashedDecl>],
    count: usize,
) -> Result<Vec<Vec<HashedDecl>>, AllocError>
    requires { 0 < count }
    ensures len { IfOk result (λ v. vec_len v ≡ count) }
    ensures each { IfOk result (λ v. (n : ℕ) → n < count → slice_index_or (map (λ list. list.items) v.items) n [] ≡ filter (is_in count n) (flat_map (λ run. run.items) runs.now)) }
{
    let counts = counts_of(alloc, runs, count)?;
    let mut lists = lists_for(alloc, counts.as_slice())?;
    for run in runs {
        deal(run.as_slice(), &mut lists)?;
    }
    Ok(lists)
}

// The entries for the declarations of files, of which the hashes of the full names are given, in the lists of their buckets, of which there
// are so many. The hashes of each file are dropped as soon as its entries are dealt.
fn dealt_names(
    alloc: Global,
    files: Vec<Vec<u64>>,
    count: usize,
) -> Result<Vec<Vec<HashedDecl>>, AllocError>
    requires { 0 < count }
    ensures len { IfOk result (λ v. vec_len v ≡ count) }
    ensures each { IfOk result (λ v. (n : ℕ) → n < count → slice_index_or (map (λ list. list.items) v.items) n [] ≡ filter (is_in count n) (all_entries (map (λ hashes. hashes.items) files.items))) }
{
    let counts = counts_of_hashes(alloc, files.as_slice(), count)?;
    let mut lists = lists_for(alloc, counts.as_slice())?;
    for (file, hashes) in files.into_iter().enumerate() {
        deal_names(file, hashes.as_slice(), &mut lists)?;
    }
    Ok(lists)
}

// Entries put in order, as two lists.
fn put_in_order<O: EntryOrder>(
    alloc: Global,
    files: &[NamedFacts],
    entries: Vec<HashedDecl>,
) -> Result<HashedDecls, AllocError>
    requires { IsTotalOrder (O.order files.now) }
    ensures { IfOk result (AreInOrder (O.order files.now) entries.items) }
{
    let mut entries = entries;
    sort_entries::<O>(files, &mut entries)?;
    apart(alloc, entries.as_slice())
}

// How many buckets so many entries get: a power of two, so that `bucket_of` divides nothing.
fn bucket_count(entries: usize) -> usize
    ensures { 0 < result }
{
    1usize << (entries / DECLS_FOR_EACH).max(1).ilog2()
}

// How many there are in all lists together; the highest number if there are more.
fn count_all<T>(lists: &[Vec<T>]) -> usize {
    let mut count = 0usize;
    for list in lists {
        count = count.saturating_add(list.len());
    }
    count
}

impl Buckets {
    // The same buckets, in memory of their own. Nothing is put in order anew.
    pub(crate) fn copy(&self, alloc: Global) -> Result<Buckets, AllocError>
        ensures { IfOk result (λ c. AreCopies self.now.list.items c.list.items) }
    {
        let mut list = Vec::with_capacity(alloc, self.list.len())?;
        for bucket in self.list.as_slice() {
            list.push(bucket.copy(alloc)?)?;
        }
        Ok(Buckets { list })
    }

    // Buckets of the entries of lists, each put in order.
    fn in_order<O: EntryOrder>(
        alloc: Global,
        files: &[NamedFacts],
        lists: Vec<Vec<HashedDecl>>,
    ) -> Result<Buckets, AllocError>
        requires { IsTotalOrder (O.order files.now) }
        ensures { IfOk result (λ b. AreAllInOrder (O.order files.now) (map (λ list. list.items) lists.items) b.list.items) }
    {
        let mut list = Vec::with_capacity(alloc, lists.len())?;
        for entries in lists {
            list.push(put_in_order::<O>(alloc, files, entries)?)?;
        }
        Ok(Buckets { list })
    }

    // The entries of runs in buckets, each put in order. The runs are dropped as soon as their entries are dealt. An `Err` comes only
    // where memory was refused.
    pub fn of<O: EntryOrder>(
        alloc: Global,
        files: &[NamedFacts],
        runs: Vec<Vec<HashedDecl>>,
    ) -> Result<Buckets, AllocError>
        requires { IsTotalOrder (O.order files.now) }
        ensures { IfOk result (λ b. AreInBuckets (O.order files.now) (flat_map (λ run. run.items) runs.items) b.list.items) }
    {
        let count = bucket_count(count_all(runs.as_slice()));
        let lists = dealt(alloc, runs.as_slice(), count)?;
        drop(runs);
        Buckets::in_order::<O>(alloc, files, lists)
    }

    // The entries for the declarations of files in buckets, each put in order, where the hashes of the full names of each file are given.
    // An `Err` comes only where memory was refused.
    pub fn of_names<O: EntryOrder>(
        alloc: Global,
        files: &[NamedFacts],
        hashes: Vec<Vec<u64>>,
    ) -> Result<Buckets, AllocError>
        requires { IsTotalOrder (O.order files.now) }
        ensures { IfOk result (λ b. AreInBuckets (O.order files.now) (all_entries (map (λ own. own.items) hashes.items)) b.list.items) }
    {
        let count = bucket_count(count_all(hashes.as_slice()));
        let lists = dealt_names(alloc, hashes, count)?;
        Buckets::in_order::<O>(alloc, files, lists)
    }

    // The bucket in which the declarations of a hash are.
    pub fn of_hash(&self, hash: u64) -> &HashedDecls
        requires { 0 < length self.now.list.items }
        ensures { (d : HashedDecls) → result.now ≡ slice_index_or self.now.list.items (hash % length self.now.list.items) d }
    {
        let list = self.list.as_slice();
        &list[bucket_of(hash, list.len())]
    }
}
