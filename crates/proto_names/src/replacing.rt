// Entries that leave their buckets, and others that come.
ghost use Rattle.std.specs.Prelude.{◌≡◌, ◌≢◌, ◌<◌, ◌≤◌, ◌++◌, ◌∷◌, [], List, All, IfSome, MatchOption, OnOk, length, slice_index_or};
ghost use Rattle.std.specs.Cmp.{IsTotalOrder};
ghost use Rattle.std.specs.declared.cmp.Ordering.{Ordering};
ghost use Rattle.proto_names.specs.declared.hashed.HashedDecl.{HashedDecl};
ghost use Rattle.proto_names.specs.Buckets.{AreInBuckets};
ghost use Rattle.proto_names.specs.Replaced.{GoesBetween, StandIn, WereInBuckets};
ghost use Rattle.proto_names.specs.Files.{name_at};
ghost use Rattle.proto_names.specs.Tables.{by_name, by_scope, holder_entries, name_entries, AreInOrder};

use crate::buckets::{Buckets, bucket_of};
use crate::entry_order::{ByName, ByScope, EntryOrder};
use crate::hashed::{HashedDecl, HashedDecls};
use proto_decls::NamedFacts;
use std::alloc::AllocError;

// The entry at a place of a bucket.
fn entry_at(bucket: &HashedDecls, place: usize) -> HashedDecl
    requires hash { place < length bucket.now.hashes.items }
    requires decl { place < length bucket.now.decls.items }
    ensures { (entries : List HashedDecl) (d : HashedDecl) → StandIn entries bucket.now → result ≡ slice_index_or entries place d }
{
    HashedDecl {
        hash: bucket.hashes[place],
        decl: bucket.decls[place],
    }
}

// Where an entry stands in a bucket. It is looked for from the back, where the last declaration of a name is.
fn place_of(bucket: &HashedDecls, one: HashedDecl) -> Option<usize>
    requires { length bucket.now.hashes.items ≡ length bucket.now.decls.items }
    ensures within { IfSome result (λ place. place < length bucket.now.hashes.items) }
    ensures there { (entries : List HashedDecl) → StandIn entries bucket.now → MatchOption result (All (λ k. k ≢ one) entries) (λ place. (d : HashedDecl) → slice_index_or entries place d ≡ one) }
{
    let mut place = bucket.hashes.len();
    while place > 0 {
        place -= 1;
        if entry_at(bucket, place) == one {
            return Some(place);
        }
    }
    None
}

// Where an entry goes into a bucket that is in order: behind those that don't come behind it.
fn place_for<O: EntryOrder>(files: &[NamedFacts], bucket: &HashedDecls, one: HashedDecl) -> usize
    requires { length bucket.now.hashes.items ≡ length bucket.now.decls.items }
    ensures within { result ≤ length bucket.now.hashes.items }
    ensures between { (entries : List HashedDecl) → StandIn entries bucket.now → GoesBetween (O.order files.now) one entries result }
{
    let mut low = 0;
    let mut high = bucket.hashes.len();
    while low < high {
        let middle = low + (high - low) / 2;
        if O::compare(files, one, entry_at(bucket, middle)).is_lt() {
            high = middle;
        } else {
            low = middle + 1;
        }
    }
    low
}

// Takes an entry out of its bucket, where the others stay in order.
fn take_out(bucket: &mut HashedDecls, one: HashedDecl)
    requires { length bucket.old.hashes.items ≡ length bucket.old.decls.items }
    ensures { (order : HashedDecl → HashedDecl → Ordering) (entries : List HashedDecl) → IsTotalOrder order → AreInOrder order (entries ++ one ∷ []) bucket.old → AreInOrder order entries bucket.new }
{
    if let Some(place) = place_of(bucket, one) {
        bucket.hashes.remove(place);
        bucket.decls.remove(place);
    }
}

// Puts an entry into a bucket, in its place among the others.
fn put_in<O: EntryOrder>(
    files: &[NamedFacts],
    bucket: &mut HashedDecls,
    one: HashedDecl,
) -> Result<(), AllocError>
    requires total { IsTotalOrder (O.order files.now) }
    requires as_many { length bucket.old.hashes.items ≡ length bucket.old.decls.items }
    ensures { OnOk result ((entries : List HashedDecl) → AreInOrder (O.order files.now) entries bucket.old → AreInOrder (O.order files.now) (entries ++ one ∷ []) bucket.new) }
{
    let place = place_for::<O>(files, bucket, one);
    bucket.hashes.insert(place, one.hash)?;
    bucket.decls.insert(place, one.decl)?;
    Ok(())
}

impl Buckets {
    // Leaves out these entries, the last one first. Only their buckets change, and each of the others stays in its place.
    pub fn leave_out(&mut self, gone: &[HashedDecl])
        requires { (order : HashedDecl → HashedDecl → Ordering) × IsTotalOrder order × ((entries : List HashedDecl) × AreInBuckets order (entries ++ gone.now) self.old.list.items) }
        ensures { (order : HashedDecl → HashedDecl → Ordering) (entries : List HashedDecl) → IsTotalOrder order → AreInBuckets order (entries ++ gone.now) self.old.list.items → AreInBuckets order entries self.new.list.items }
    {
        let count = self.list.len();
        let mut left = gone.len();
        while left > 0 {
            left -= 1;
            let one = gone[left];
            take_out(&mut self.list[bucket_of(one.hash, count)], one);
        }
    }

    // Adds entries to those that are there in this order. Only their buckets change. An `Err` comes only where memory was refused; what
    // is there then is neither.
    pub fn add<O: EntryOrder>(
        &mut self,
        files: &[NamedFacts],
        come: &[HashedDecl],
    ) -> Result<(), AllocError>
        requires total { IsTotalOrder (O.order files.now) }
        requires buckets { (entries : List HashedDecl) × AreInBuckets (O.order files.now) entries self.old.list.items }
        ensures { OnOk result ((entries : List HashedDecl) → AreInBuckets (O.order files.now) entries self.old.list.items → AreInBuckets (O.order files.now) (entries ++ come.now) self.new.list.items) }
    {
        let count = self.list.len();
        for one in come {
            put_in::<O>(files, &mut self.list[bucket_of(one.hash, count)], *one)?;
        }
        Ok(())
    }
}

// Makes all declarations by full name those of the files, where they were those of the files before one of them changed: these are gone,
// and those come. An `Err` comes only where memory was refused; what is there then is neither.
pub fn change_names(
    files: &[NamedFacts],
    gone: &[HashedDecl],
    come: &[HashedDecl],
    names: &mut Buckets,
) -> Result<(), AllocError>
    requires { WereInBuckets by_name (name_at files.now) (name_entries files.now) gone.now come.now names.old.list.items }
    ensures { OnOk result (AreInBuckets (by_name (name_at files.now)) (name_entries files.now) names.new.list.items) }
{
    names.leave_out(gone);
    names.add::<ByName>(files, come)
}

// Makes all declarations that may settle a scope, by last component, those of the files, as `change_names` does those by full name.
pub fn change_holders(
    files: &[NamedFacts],
    gone: &[HashedDecl],
    come: &[HashedDecl],
    holders: &mut Buckets,
) -> Result<(), AllocError>
    requires { WereInBuckets by_scope (name_at files.now) (holder_entries files.now) gone.now come.now holders.old.list.items }
    ensures { OnOk result (AreInBuckets (by_scope (name_at files.now)) (holder_entries files.now) holders.new.list.items) }
{
    holders.leave_out(gone);
    holders.add::<ByScope>(files, come)
}
