// The analysis of the texts of a board, from an analysis before changes of some.
ghost use Rattle.std.specs.Prelude.{◌≡◌, ◌<◌, ◌≤◌, ℕ, [], All, Contains, false, length, map, slice_index_or, string_bytes, IfOk, IfSome, IsTrue};
ghost use Rattle.std.specs.Cmp.Lexicographic.{slice_cmp};
ghost use Rattle.std.specs.Ordering.{nat_cmp};
ghost use Rattle.std.specs.declared.cmp.Ordering.TheVariants.{Less};
ghost use Rattle.piece_collector.specs.Board.{Ascends, IsFull};
ghost use Rattle.work_index.specs.Pieces.{workspace_of};
ghost use Rattle.work_index.specs.Workspace.{Workspace, analysis, workspace_in};
ghost use Rattle.work_update.specs.Updates.{AreNumbersNow, HasStayed, IsArrival, IsInOrder, IsWorkspaceOf, NameAllChanges, known_source, numbers_of, sources_by_path};

use crate::add_file::add_file;
use crate::update_files::update_files;
use import_graph::FileNo;
use piece_collector::{Board, Piece};
use std::alloc::{AllocError, Global};
use std::cmp::Ordering;
use work_changes::update_texts;
use work_index::{Analysis, FileWork, analyse_here};

// The piece of the one file of which the path is given, if it came and no file of the analysis imports it.
fn arrival<'b>(
    earlier: &Analysis,
    changes: &[String],
    board: &'b Board<FileWork>,
) -> Option<&'b Piece<FileWork>>
    requires { board.now.is_lent ≡ false }
    ensures { IfSome result (λ piece. IsArrival earlier.now (map string_bytes changes.now) board.now (piece.now.path, piece.now.text)) }
{
    if changes.len() != 1 {
        return None;
    }
    let path = changes[0].as_str();
    if earlier.number_of(path).is_some() || earlier.is_imported(path) {
        return None;
    }
    board.piece(path)
}

// Whether a path is that of a file of the analysis and that of the piece with its number.
fn has_stayed(earlier: &Analysis, pieces: &[Piece<FileWork>], path: &str) -> bool
    ensures { IsTrue result → HasStayed earlier.now.paths (map (λ p. p.path) pieces.now) path.now }
{
    match earlier.number_of(path) {
        Some(file) => file < pieces.len() && pieces[file].path() == path,
        None => false,
    }
}

// Whether each of these paths is.
fn have_stayed(earlier: &Analysis, pieces: &[Piece<FileWork>], changes: &[String]) -> bool
    ensures { IsTrue result → All (HasStayed earlier.now.paths (map (λ p. p.path) pieces.now)) (map string_bytes changes.now) }
{
    for path in changes {
        if !has_stayed(earlier, pieces, path.as_str()) {
            return false;
        }
    }
    true
}

// The numbers of the files with these paths, if there are such files.
fn numbers_of(
    alloc: Global,
    earlier: &Analysis,
    changes: &[String],
) -> Result<Vec<FileNo>, AllocError>
    ensures { IfOk result (λ numbers. numbers.items ≡ numbers_of earlier.now.paths (map string_bytes changes.now)) }
{
    let mut numbers = Vec::with_capacity(alloc, changes.len())?;
    for path in changes {
        if let Some(file) = earlier.number_of(path.as_str()) {
            numbers.push(file)?;
        }
    }
    Ok(numbers)
}

// The first place, from one on, of a piece whose path doesn't come before this one; past the end if there is none.
fn first_from(pieces: &[Piece<FileWork>], from: usize, path: &str) -> usize
    ensures { (k : ℕ) → from ≤ k → k < result → slice_cmp nat_cmp (slice_index_or (map (λ p. p.path) pieces.now) k []) path.now ≡ Less }
{
    for at in from..pieces.len() {
        if pieces[at].path().cmp(path) != Ordering::Less {
            return at;
        }
    }
    pieces.len()
}

// The first place, from one on, of a piece whose path doesn't come before this one. Mostly the piece at this very place has the path, and whether two
// paths are the same is told sooner than which comes first.
fn next_from(pieces: &[Piece<FileWork>], from: usize, path: &str) -> usize
    ensures { (k : ℕ) → from ≤ k → k < result → slice_cmp nat_cmp (slice_index_or (map (λ p. p.path) pieces.now) k []) path.now ≡ Less }
{
    if from < pieces.len() && pieces[from].path() == path {
        return from;
    }
    first_from(pieces, from, path)
}

// The number that a file has now: this place, if the piece there has its path, and none where the file is among the changed ones.
fn number_now(
    pieces: &[Piece<FileWork>],
    at: usize,
    path: &str,
    changed: &[FileNo],
    file: FileNo,
) -> Option<FileNo>
    ensures unchanged { IfSome result (λ n. Contains changed.now file → ⊥) }
    ensures here { IfSome result (λ n. n < length pieces.now) }
    ensures path { IfSome result (λ n. slice_index_or (map (λ p. p.path) pieces.now) n [] ≡ path.now) }
{
    if changed.contains(&file) || at >= pieces.len() || pieces[at].path() != path {
        return None;
    }
    Some(at)
}

// Of each file of the analysis, the number that it has now; none if it left or is among the changed ones. The paths and the pieces
// are walked once.
fn numbers_now(
    alloc: Global,
    earlier: &Analysis,
    changed: &[FileNo],
    pieces: &[Piece<FileWork>],
) -> Result<Vec<Option<FileNo>>, AllocError>
    ensures { IfOk result (λ to. AreNumbersNow earlier.now.paths changed.now (map (λ p. p.path) pieces.now) to.items) }
{
    let count = earlier.file_count();
    let mut to = Vec::with_capacity(alloc, count)?;
    let mut next = 0;
    for file in 0..count {
        let path = earlier.path(file);
        next = next_from(pieces, next, path);
        to.push(number_now(pieces, next, path, changed, file))?;
    }
    Ok(to)
}

// The analysis of the workspace of some pieces, from one before changes at these paths; `reads_others` says whether texts that aren't proto3 are read.
fn update_by(
    alloc: Global,
    earlier: Analysis,
    changes: &[String],
    pieces: &[Piece<FileWork>],
    reads_others: bool,
) -> Result<Analysis, AllocError>
    requires ascends { Ascends pieces.now }
    requires ordered { IsInOrder (workspace_in earlier) }
    requires changes { NameAllChanges (map string_bytes changes.now) (sources_by_path (workspace_in earlier)) (sources_by_path (workspace_of reads_others pieces.now)) }
    ensures { IfOk result (λ found. found ≡ analysis (workspace_of reads_others pieces.now)) }
{
    earlier.known();
    let changed = numbers_of(alloc, &earlier, changes)?;
    if have_stayed(&earlier, pieces, changes) {
        return update_texts(alloc, earlier, changed.as_slice(), pieces, reads_others);
    }
    let to = numbers_now(alloc, &earlier, changed.as_slice(), pieces)?;
    update_files(alloc, earlier, to.as_slice(), pieces, reads_others)
}

/// The analysis of the texts of a board, from one of earlier texts: `changes` are the paths at which these differ, and there may be others
/// among them. The board has to be complete, and is as before. `reads_others` says whether texts that aren't proto3 are read for what they
/// declare; a file that was read otherwise before counts as one that got another text.
///
/// If files only got other texts, the links of those are made anew, and of the files that may ask for a name that a change touches. If files
/// came or left, those that stayed and see the same files keep their links, under the numbers that declarations have now. A file that came,
/// and that no other imports, is put among the others without a look at their pieces.
///
/// An `Err` comes only where memory was refused. The earlier analysis is gone then, and the board is as before.
pub fn update_analysis(
    alloc: Global,
    earlier: Analysis,
    changes: &[String],
    board: &mut Board<FileWork>,
    reads_others: bool,
) -> Result<Analysis, AllocError>
    requires ordered { IsInOrder (workspace_in earlier) }
    requires changes { NameAllChanges (map string_bytes changes.now) (sources_by_path (workspace_in earlier)) (λ path. known_source reads_others path board.old) }
    requires here { board.old.is_lent ≡ false }
    requires full { IsFull board.old }
    ensures analysis { IfOk result (λ found. (w : Workspace) → IsWorkspaceOf reads_others board.old w → found ≡ analysis w) }
    ensures board { board.new ≡ board.old }
{
    earlier.known();
    if let Some(piece) = arrival(&earlier, changes, board) {
        return add_file(alloc, earlier, piece, reads_others);
    }
    let lent = board.lend_all()?;
    let updated = update_by(alloc, earlier, changes, lent.pieces(), reads_others);
    board.take_back(lent);
    updated
}

/// The analysis of the texts of a board, from nothing. The board has to be complete, and is as before. `reads_others` says whether texts that
/// aren't proto3 are read for what they declare. An `Err` comes only where memory was refused.
pub fn analyse_board(
    alloc: Global,
    board: &mut Board<FileWork>,
    reads_others: bool,
) -> Result<Analysis, AllocError>
    requires here { board.old.is_lent ≡ false }
    requires full { IsFull board.old }
    ensures analysis { IfOk result (λ found. (w : Workspace) → IsWorkspaceOf reads_others board.old w → found ≡ analysis w) }
    ensures board { board.new ≡ board.old }
{
    let lent = board.lend_all()?;
    let found = analyse_here(alloc, lent.pieces(), reads_others);
    board.take_back(lent);
    found
}
