// The slots of the known paths, and what is done to one of them.
ghost use Rattle.std.specs.Prelude.{◌≡◌, ℕ, List, [], Some, None, true, false, string_bytes, option_map, IfOk, IfSome, map, vec_len, vec_capacity, ◌+◌, ◌≤◌, ◌++◌, is_none, option_copied, IsTrue};
ghost use Rattle.std.specs.BTreeMap.{get_by_text, keys, values, btree_map_len};
ghost use Rattle.std.specs.BTreeMap.{IsOrdered as IsOrderedMap};
ghost use Rattle.std.specs.BTreeSet.{IsOrdered};
ghost use Rattle.piece_collector.specs.Lending.{TakesAll, TakesNext, IsPlaced, placed, piece_in, pieces_in, emptied, given};
ghost use Rattle.std.specs.String.{string_cmp};
ghost use Rattle.std.specs.Vec.Iter.{into_iter_items};
ghost use Rattle.std.specs.List.{find};
ghost use Rattle.piece_collector.specs.Views.{done_at, is_wanting, is_unheld, failure_at, verdict_at, IsNoneWantedBefore};
ghost use Rattle.piece_collector.specs.History.{is_before};

use crate::job::Job;
use crate::piece::{Piece, Work};
use crate::slot::Slot;
use crate::text::SharedText;
use crate::verdict::Verdict;
use std::alloc::{AllocError, Global};
use std::collections::{BTreeMap, BTreeSet};
use std::mem::replace;

/// A job for the path is out, or isn't.
pub fn set_out<W: Work>(slots: &mut BTreeMap<String, Slot<W>>, path: &str, is_out: bool)
    ensures each { (q : List ℕ) → get_by_text slots.new q ≡ done_at path.now (λ s. record s { is_out = is_out }) q (get_by_text slots.old q) }
    ensures ordered { IsOrderedMap string_cmp slots.new }
{
    if let Some(slot) = slots.get_mut(path) {
        slot.set_out(is_out);
    }
}

/// Keeps the piece of a known path.
pub fn keep<W: Work>(slots: &mut BTreeMap<String, Slot<W>>, piece: Piece<W>)
    ensures each { (q : List ℕ) → get_by_text slots.new q ≡ done_at piece.path (λ s. record s { is_out = false; piece = Some piece }) q (get_by_text slots.old q) }
    ensures ordered { IsOrderedMap string_cmp slots.new }
{
    if let Some(slot) = slots.get_mut(piece.path()) {
        slot.keep(piece);
    }
}

/// What a failure of the path is answered.
pub fn judge<W: Work>(slots: &BTreeMap<String, Slot<W>>, path: &str, stamp: u64) -> Verdict
    ensures { result ≡ failure_at stamp (get_by_text slots.now path.now) }
{
    match slots.get(path) {
        Some(slot) => slot.judge(stamp),
        None => Verdict::Foreign,
    }
}

/// What an offer of the piece is answered.
pub fn judge_piece<W: Work>(slots: &BTreeMap<String, Slot<W>>, piece: &Piece<W>) -> Verdict
    ensures { result ≡ verdict_at piece.now.stamp piece.now.text (get_by_text slots.now piece.now.path) }
{
    match slots.get(piece.path()) {
        Some(slot) => slot.judge_piece(piece),
        None => Verdict::Foreign,
    }
}

/// The piece of the path, if it is held.
pub fn piece_of<'s, W: Work>(
    slots: &'s BTreeMap<String, Slot<W>>,
    path: &str,
) -> Option<&'s Piece<W>>
    ensures { option_map (λ p. p.now) result ≡ piece_in (get_by_text slots.now path.now) }
{
    slots.get(path)?.piece()
}

/// Whether the path is known, has no piece, and no job for it is out.
fn is_wanted<W: Work>(slots: &BTreeMap<String, Slot<W>>, path: &str) -> bool
    ensures { result ≡ is_wanting (get_by_text slots.now path.now) }
{
    match slots.get(path) {
        Some(slot) => slot.is_wanted(),
        None => false,
    }
}

/// Whether the path is known and has no piece.
fn is_missing<W: Work>(slots: &BTreeMap<String, Slot<W>>, path: &str) -> bool
    ensures { result ≡ is_unheld (get_by_text slots.now path.now) }
{
    match slots.get(path) {
        Some(slot) => !slot.is_held(),
        None => false,
    }
}

/// The first wanted path among these, where none before `from` is wanted.
fn first_wanted<'a, W: Work>(
    slots: &BTreeMap<String, Slot<W>>,
    paths: &'a BTreeSet<String>,
    from: &String,
) -> Option<&'a String>
    requires { IsNoneWantedBefore (string_bytes from.now) slots.now }
    ensures first { option_copied result ≡ find (λ k. is_wanting (get_by_text slots.now (string_bytes k))) paths.now.keys }
    ensures ordered { IsOrdered string_cmp paths.now }
{
    for path in paths.range(from..) {
        if is_wanted(slots, path.as_str()) {
            return Some(path);
        }
    }
    None
}

/// Whether each known path among these is held.
pub fn are_held<W: Work>(slots: &BTreeMap<String, Slot<W>>, paths: &BTreeSet<String>) -> bool
    ensures { result ≡ is_none (find (λ k. is_unheld (get_by_text slots.now (string_bytes k))) paths.now.keys) }
{
    for path in paths {
        if is_missing(slots, path.as_str()) {
            return false;
        }
    }
    true
}

/// The job of a known path.
fn job_of<W: Work>(
    slots: &BTreeMap<String, Slot<W>>,
    path: &String,
) -> Result<Option<Job>, AllocError>
    ensures { IfOk result (λ job. job ≡ option_map (λ s. record { path = string_bytes path.now; stamp = s.stamp; text = s.text }) (get_by_text slots.now (string_bytes path.now))) }
{
    let Some(slot) = slots.get(path.as_str()) else {
        return Ok(None);
    };
    Ok(Some(Job::sharing(path.clone()?, slot.stamp(), slot.text().another()?)))
}

/// The job of the first wanted path among these, where none before `from` is wanted.
pub fn first_job<W: Work>(
    slots: &BTreeMap<String, Slot<W>>,
    paths: &BTreeSet<String>,
    from: &String,
) -> Result<Option<Job>, AllocError>
    requires { IsNoneWantedBefore (string_bytes from.now) slots.now }
    ensures first { IfOk result (λ job. option_map (λ j. j.path) job ≡ option_map string_bytes (find (λ k. is_wanting (get_by_text slots.now (string_bytes k))) paths.now.keys)) }
    ensures text { IfOk result (λ job. IfSome job (λ j. option_map (λ s. record { path = j.path; stamp = s.stamp; text = s.text }) (get_by_text slots.now j.path) ≡ Some j)) }
    ensures ordered { IsOrdered string_cmp paths.now }
{
    let Some(path) = first_wanted(slots, paths, from) else {
        return Ok(None);
    };
    let job = job_of(slots, path)?;
    Ok(job)
}

/// The path is wanted now: where it comes before `from`, the search begins at the first path again.
pub fn look_back(from: &mut String, path: &str)
    ensures earlier { (q : List ℕ) → IsTrue (is_before q (string_bytes from.new)) → IsTrue (is_before q (string_bytes from.old)) }
    ensures path { is_before path.now (string_bytes from.new) ≡ false }
{
    if path < from.as_str() {
        from.clear();
    }
}

/// Puts these slots in the places of the present ones in turn, from the first path on.
fn set_all<W: Work>(slots: &mut BTreeMap<String, Slot<W>>, kept: Vec<Slot<W>>)
    ensures entries { slots.new.entries ≡ placed slots.old.entries kept.items }
    ensures ordered { IsOrderedMap string_cmp slots.new }
{
    let mut rest = kept.into_iter();
    slots.retain(
        |_, slot|
            ensures stays { result ≡ true }
            ensures next { IsPlaced (into_iter_items rest.entry) slot.old slot.new (into_iter_items rest.exit) }
        {
            if let Some(own) = rest.next() {
                *slot = own;
            }
            true
        },
    );
}

/// Takes out all slots, each without its piece, and their pieces, where there is room for both. An empty slot stays in the place of each.
fn empty_all<W: Work>(
    alloc: Global,
    slots: &mut BTreeMap<String, Slot<W>>,
    kept: &mut Vec<Slot<W>>,
    pieces: &mut Vec<Piece<W>>,
)
    requires beside { vec_len kept.old + btree_map_len slots.old ≤ vec_capacity kept.old }
    requires room { vec_len pieces.old + btree_map_len slots.old ≤ vec_capacity pieces.old }
    ensures kept { kept.new.items ≡ kept.old.items ++ map emptied (values slots.old) }
    ensures taken { pieces.new.items ≡ pieces.old.items ++ pieces_in (values slots.old) }
    ensures keys { keys slots.new ≡ keys slots.old }
{
    for slot in slots.values_mut() {
        let mut own = replace(slot, Slot::new(SharedText::own(String::new(alloc)), 0));
        if let Some(piece) = own.take_piece() {
            pieces.push_reserved(piece);
        }
        kept.push_reserved(own);
    }
}

/// Takes the pieces of all slots, where there is room for them. `kept` is an empty list with room for all slots, which go through it.
pub fn take_all<W: Work>(
    alloc: Global,
    slots: &mut BTreeMap<String, Slot<W>>,
    kept: Vec<Slot<W>>,
    pieces: &mut Vec<Piece<W>>,
)
    requires none { kept.items ≡ [] }
    requires beside { vec_len kept + btree_map_len slots.old ≤ vec_capacity kept }
    requires room { vec_len pieces.old + btree_map_len slots.old ≤ vec_capacity pieces.old }
    ensures rest { (q : List ℕ) → option_map emptied (get_by_text slots.new q) ≡ option_map emptied (get_by_text slots.old q) }
    ensures taken { TakesAll (get_by_text slots.old) (map (λ e. string_bytes e.0) slots.old.entries) pieces.old.items pieces.new.items }
    ensures keys { keys slots.new ≡ keys slots.old }
{
    let mut kept = kept;
    empty_all(alloc, slots, &mut kept, pieces);
    set_all(slots, kept);
}

/// Puts these pieces back in turn, from the first path on.
pub fn restore_all<W: Work>(slots: &mut BTreeMap<String, Slot<W>>, pieces: Vec<Piece<W>>)
    ensures entries { slots.new.entries ≡ given slots.old.entries pieces.items }
    ensures ordered { IsOrderedMap string_cmp slots.new }
{
    let mut rest = pieces.into_iter();
    slots.retain(
        |_, slot|
            ensures stays { result ≡ true }
            ensures next { TakesNext (into_iter_items rest.entry) slot.old slot.new (into_iter_items rest.exit) }
        {
            if let Some(piece) = rest.next() {
                slot.restore(piece);
            }
            true
        },
    );
}
