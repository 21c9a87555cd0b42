// What is known of the files of a workspace.
ghost use Rattle.std.specs.Prelude.{◌≡◌, List, ℕ, Option, Some, [], ◌∷◌, false, map, string_bytes, bytes_eq, IfOk, IfSome};
ghost use Rattle.std.specs.List.{list_any};
ghost use Rattle.piece_collector.specs.Board.{IsFull};
ghost use Rattle.work_index.specs.Workspace.{Source, Workspace, analysis};
ghost use Rattle.work_update.specs.Updates.{IsWorkspaceOf, NameAllChanges, known_source};
ghost use Rattle.work_space.specs.Kept.{AreNoted, IsOf, is_current};

use arrayvec::ArrayVec;
use piece_collector::Board;
use std::alloc::{AllocError, Global};
use work_index::{Analysis, FileWork};
use work_update::{analyse_board, update_analysis};

// After more changes than that a whole analysis, by threads, is faster than one that takes a change after the other.
const MOST_CHANGES: usize = 64;

/// An analysis of the files, or of the files before changes.
#[derive(Drop)]
pub struct LastAnalysis {
    pub analysis: Analysis,
    /// The paths of the files that came, left or got other texts since.
    pub changes: ArrayVec<String, MOST_CHANGES, Global>,
}

impl LastAnalysis {
    /// An analysis of the files as they are. Takes no memory.
    pub fn current(alloc: Global, analysis: Analysis) -> LastAnalysis
        ensures analysis { result.analysis ≡ analysis }
        ensures changes { result.changes.items ≡ [] }
    {
        LastAnalysis {
            analysis,
            changes: ArrayVec::new_in(alloc),
        }
    }

    /// Whether it is of the files as they are. Takes no memory.
    pub fn is_current(&self) -> bool
        ensures { result ≡ is_current (Some self.now) }
    {
        self.changes.is_empty()
    }
}

// Whether one of the paths is this one.
fn have_path(paths: &[String], path: &str) -> bool
    ensures { result ≡ list_any (λ own. bytes_eq (string_bytes own) path.now) paths.now }
{
    paths.iter().any(|own| own.as_str() == path)
}

// What is known once one more path is noted: nothing if there are too many.
fn noted(known: LastAnalysis, path: String) -> Option<LastAnalysis>
    ensures analysis { IfSome result (λ k. k.analysis ≡ known.analysis) }
    ensures changes { IfSome result (λ k. AreNoted (string_bytes path) (map string_bytes known.changes.items) (map string_bytes k.changes.items)) }
{
    let mut known = known;
    if have_path(known.changes.as_slice(), path.as_str()) {
        return Some(known);
    }
    match known.changes.try_push(path) {
        Ok(()) => Some(known),
        Err(_) => None,
    }
}

/// What is known after a path has another text, or none: nothing if too many files changed since the analysis. Takes no memory.
pub fn known_after(known: Option<LastAnalysis>, path: String) -> Option<LastAnalysis>
    ensures { (before after : List ℕ → Option Source) → NameAllChanges (string_bytes path ∷ []) before after → IfSome known (λ k. IsOf k before) → IfSome result (λ k. IsOf k after) }
{
    noted(known?, path)
}

/// The analysis of the texts of a board, which are read as is chosen, made of what was known. The board has to be complete, and is as before.
/// An `Err` comes only where memory was refused.
pub fn analyse(
    alloc: Global,
    known: Option<LastAnalysis>,
    board: &mut Board<FileWork>,
    reads_others: bool,
) -> Result<Analysis, AllocError>
    requires here { board.old.is_lent ≡ false }
    requires full { IsFull board.old }
    requires known { IfSome known (λ k. IsOf k (λ path. known_source reads_others path board.old)) }
    ensures analysis { IfOk result (λ found. (w : Workspace) → IsWorkspaceOf reads_others board.old w → found ≡ analysis w) }
    ensures board { board.new ≡ board.old }
{
    let Some(known) = known else {
        return analyse_board(alloc, board, reads_others);
    };
    let LastAnalysis { analysis, changes } = known;
    update_analysis(alloc, analysis, changes.as_slice(), board, reads_others)
}
