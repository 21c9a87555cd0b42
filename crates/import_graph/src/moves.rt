// Whether two graphs say the same of a file, where files have other numbers since some came or left.

ghost use Rattle.std.specs.Prelude.{◌≡◌, ◌<◌, ◌↔◌, Some, length, map, option_map, IfOk, IsTrue};
ghost use Rattle.import_graph.specs.Imports.{edges_at, target_at};
ghost use Rattle.import_graph.specs.Moves.{IsMovedOutlook, moved_import, new_import, place};
ghost use Rattle.import_graph.specs.Outlooks.{import_outlook, imports_outlook, outlook};

use crate::graph::Graph;
use crate::paths::FileNo;
use std::alloc::AllocError;

// Whether this is the new number of a file.
fn has_place(to: &[Option<FileNo>], old: FileNo, new: FileNo) -> bool
    ensures { IsTrue result ↔ (Some new ≡ place to.now old) }
{
    match to.get(old) {
        Some(Some(number)) => *number == new,
        _ => false,
    }
}

// Whether these are the new numbers of the files of a list, in its order.
fn are_places(to: &[Option<FileNo>], old: &[FileNo], new: &[FileNo]) -> bool
    ensures { IsTrue result ↔ (map Some new.now ≡ map (place to.now) old.now) }
{
    if old.len() != new.len() {
        return false;
    }
    for at in 0..old.len() {
        if !has_place(to, old[at], new[at]) {
            return false;
        }
    }
    true
}

// Whether an import names, under its new number, the file that it named, or again none.
fn is_target_moved(to: &[Option<FileNo>], old: Option<FileNo>, new: Option<FileNo>) -> bool
    ensures { IsTrue result ↔ (option_map Some new ≡ option_map (place to.now) old) }
{
    match (old, new) {
        (Some(old), Some(new)) => has_place(to, old, new),
        (None, None) => true,
        _ => false,
    }
}

fn is_import_moved(
    a: &Graph,
    b: &Graph,
    from: FileNo,
    at: FileNo,
    to: &[Option<FileNo>],
    import: usize,
) -> Result<bool, AllocError>
    requires from { from < length a.now }
    requires at { at < length b.now }
    requires a_import { import < length (edges_at a.now from) }
    requires b_import { import < length (edges_at b.now at) }
    ensures { IfOk result (λ alike. IsTrue alike ↔ (new_import (import_outlook b.now at (target_at b.now at import)) ≡ moved_import to.now (import_outlook a.now from (target_at a.now from import)))) }
{
    let close_alike = a.closes_cycle(from, import)? == b.closes_cycle(at, import)?;
    let (old, new) = (a.import_of(from, import), b.import_of(at, import));
    Ok(close_alike && is_target_moved(to, old, new))
}

fn are_imports_moved(
    a: &Graph,
    b: &Graph,
    from: FileNo,
    at: FileNo,
    to: &[Option<FileNo>],
) -> Result<bool, AllocError>
    requires from { from < length a.now }
    requires at { at < length b.now }
    ensures { IfOk result (λ alike. IsTrue alike ↔ (map new_import (imports_outlook b.now at) ≡ map (moved_import to.now) (imports_outlook a.now from))) }
{
    let count = a.import_count(from);
    if count != b.import_count(at) {
        return Ok(false);
    }
    for import in 0..count {
        if !is_import_moved(a, b, from, at, to, import)? {
            return Ok(false);
        }
    }
    Ok(true)
}

/// Whether the graph `b` says of the file `at` what the graph `a` said of the file `from`, where `to` has, at each number of a file in
/// `a`, its number in `b`, or `None` if it left. All numbers count from 0. So it is if the file sees the same files, its view is
/// closed in both or in neither, and its imports, in order, name the same files and close cycles alike. A file past the end of `to`
/// has left. A file that changed may count as one that left, and as another that came. `Err` where memory was refused.
pub fn moved_outlook(
    a: &Graph,
    b: &Graph,
    from: FileNo,
    at: FileNo,
    to: &[Option<FileNo>],
) -> Result<bool, AllocError>
    requires from { from < length a.now }
    requires at { at < length b.now }
    ensures { IfOk result (λ alike. IsTrue alike ↔ IsMovedOutlook to.now (outlook a.now from) (outlook b.now at)) }
{
    let before = a.visible(from)?;
    let after = b.visible(at)?;
    if !are_places(to, before.as_slice(), after.as_slice()) {
        return Ok(false);
    }
    if a.are_complete(before.as_slice()) != b.are_complete(after.as_slice()) {
        return Ok(false);
    }
    are_imports_moved(a, b, from, at, to)
}
