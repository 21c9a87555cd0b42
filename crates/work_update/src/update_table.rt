// The table of names after files came or left.
ghost use Rattle.std.specs.Prelude.{◌≡◌, ◌<◌, ◌≤◌, ◌+◌, ℕ, Some, length, IfOk, IsTrue};
ghost use Rattle.import_graph.specs.Moves.{place};
ghost use Rattle.piece_collector.specs.Board.{Ascends};
ghost use Rattle.work_index.specs.Pieces.{workspace_of};
ghost use Rattle.work_index.specs.Workspace.{all_facts};
ghost use Rattle.work_update.specs.FilesMoves.{IsTableBefore, Tells};
ghost use Rattle.work_update.specs.Stayed.{WasGraph};

use import_graph::{FileNo, Graph, arrival_law};
use piece_collector::Piece;
use proto_resolve::{Table, TableChange};
use std::alloc::{AllocError, Global};
use work_index::{FileWork, named_facts, table_of};

// Which files came and left, where all others stayed.
#[derive(Clone, Copy)]
pub enum FilesMove {
    // One came, with this number.
    Came(FileNo),
    // One left, which had this number.
    Left(FileNo),
    // Anything else.
    Other,
}

// How many files at the front have the numbers that they had.
fn kept_at_front(to: &[Option<FileNo>]) -> usize
    ensures within { result ≤ length to.now }
    ensures kept { (g : ℕ) → g < result → place to.now g ≡ Some g }
{
    for file in 0..to.len() {
        if to[file] != Some(file) {
            return file;
        }
    }
    to.len()
}

// Whether the files from one on have the numbers from another on, one after the other.
fn are_moved(to: &[Option<FileNo>], from: FileNo, first: FileNo) -> bool
    requires { first ≤ from + 1 }
    ensures { IsTrue result → (g : ℕ) → from + g < length to.now → place to.now (from + g) ≡ Some (first + g) }
{
    for file in from..to.len() {
        if to[file] != Some(first + (file - from)) {
            return false;
        }
    }
    true
}

// Whether one file came, or one left, of so many before, so that there are so many now.
pub fn move_of(to: &[Option<FileNo>], before: usize, now: usize) -> FilesMove
    ensures { Tells to.now before now result }
{
    let at = kept_at_front(to);
    if before != to.len() {
        return FilesMove::Other;
    }
    if now == before + 1 && are_moved(to, at, at + 1) {
        return FilesMove::Came(at);
    }
    if at < before && now == before - 1 && are_moved(to, at + 1, at) {
        return FilesMove::Left(at);
    }
    FilesMove::Other
}

// The table of the files of some pieces, from the table before files came, left or got other texts; and the graph before, where imports may lead
// elsewhere now. `reads_others` says whether texts that aren't proto3 are read. Where one came or left and all others stayed, its names alone are put
// in order or taken out; else the table is made anew.
pub fn table_after(
    alloc: Global,
    table: Table,
    to: &[Option<FileNo>],
    pieces: &[Piece<FileWork>],
    reads_others: bool,
) -> Result<(Table, Option<Graph>), AllocError>
    requires ascends { Ascends pieces.now }
    requires before { IsTableBefore table (workspace_of reads_others pieces.now) to.now }
    ensures table { IfOk result (λ after. after.0 ≡ all_facts (workspace_of reads_others pieces.now)) }
    ensures graph { IfOk result (λ after. WasGraph after.1 table (all_facts (workspace_of reads_others pieces.now)) to.now) }
{
    arrival_law();
    match move_of(to, table.len(), pieces.len()) {
        FilesMove::Came(at) => {
            let file = named_facts(alloc, &pieces[at], reads_others)?;
            table.update(alloc, TableChange::Added(at, file))
        }
        FilesMove::Left(at) => table.update(alloc, TableChange::Removed(at)),
        FilesMove::Other => {
            let before = table.into_graph();
            Ok((table_of(alloc, pieces, reads_others)?, Some(before)))
        }
    }
}
