// The analysis of a workspace after files came, left or got other texts.
ghost use Rattle.std.specs.Prelude.{◌≡◌, ◌<◌, ◌+◌, ◌++◌, ℕ, Bool, List, [], ◌∷◌, Some, length, map, slice_index_or, slice_set, IfOk, IfSome, OnOk};
ghost use Rattle.std.specs.List.{enumerate_from};
ghost use Rattle.import_graph.specs.Imports.{graph_of};
ghost use Rattle.proto_decls.specs.declared.named_facts.NamedFacts.{NamedFacts};
ghost use Rattle.import_graph.specs.Moves.{place};
ghost use Rattle.work_links.specs.Laws.{MovedLaw, decl_moved};
ghost use Rattle.work_links.specs.Touched.{links_after};
ghost use Rattle.piece_collector.specs.Board.{Ascends};
ghost use Rattle.work_index.specs.Pieces.{workspace_of};
ghost use Rattle.work_index.specs.Workspace.{analysis, diagnostics_of, no_file, resolution_of, workspace_in};
ghost use Rattle.work_changes.specs.Changes.{no_links};
ghost use Rattle.work_update.specs.Stayed.{AreNumbersBefore, HasMoved, IsEarlierThan, Stay, WasGraph};

use crate::update_table::table_after;
use import_graph::{FileNo, Graph, moved_outlook};
use piece_collector::Piece;
use proto_resolve::{Index, Links, Table};
use sqlite_items::Items;
use std::alloc::{AllocError, Global};
use std::mem::replace;
use work_index::{
    Analysis, AnalysisParts, FileWork, Resolutions, SharedLinks, files_of, push_found,
    resolution_of,
};
use work_links::moved_law;

// What was known of the files before, of which some left and some got other texts.
#[derive(Drop)]
struct Earlier {
    // The graph of imports, where these may lead elsewhere now.
    graph: Option<Graph>,
    // The links of each file; of one from which they were taken, none.
    links: Vec<SharedLinks>,
}

// Of each of so many files, the number that it had, if it stayed as it was.
fn numbers_before(
    alloc: Global,
    to: &[Option<FileNo>],
    count: usize,
) -> Result<Vec<Option<FileNo>>, AllocError>
    requires { (g n : ℕ) → place to.now g ≡ Some n → n < count }
    ensures { IfOk result (λ before. AreNumbersBefore count to.now before.items) }
{
    let mut before = vec![in alloc; None; count]?;
    for (old, number) in to.iter().enumerate() {
        if let Some(new) = number {
            before[*new] = Some(old);
        }
    }
    Ok(before)
}

// The number that a file had, if it stayed as it was and sees the same files as before.
fn number_if_moved(
    earlier: &Option<Graph>,
    table: &Table,
    to: &[Option<FileNo>],
    before: Option<FileNo>,
    file: FileNo,
) -> Result<Option<FileNo>, AllocError>
    requires file { file < length table.now }
    requires within { IfSome before (λ g. IfSome earlier.now (λ graph. g < length graph)) }
    requires before { IfSome before (λ g. place to.now g ≡ Some file) }
    ensures { (old new : List NamedFacts) → table.now ≡ new → WasGraph earlier.now old new to.now → IfOk result (λ number. IfSome number (λ g. HasMoved (graph_of old) (graph_of new) to.now g file)) }
{
    let Some(old) = before else {
        return Ok(None);
    };
    match earlier {
        Some(graph) if !moved_outlook(graph, table.graph(), old, file, to)? => Ok(None),
        _ => Ok(Some(old)),
    }
}

// Takes the links of a file out of all, and gives their declarations the numbers that files have now.
fn take_links(
    alloc: Global,
    old: FileNo,
    to: &[Option<FileNo>],
    links: &mut Vec<SharedLinks>,
) -> Result<SharedLinks, AllocError>
    requires { old < length links.old.items }
    ensures taken { IfOk result (λ taken. taken ≡ links_after (decl_moved to.now) (slice_index_or links.old.items old no_links)) }
    ensures left { OnOk result (links.new.items ≡ slice_set links.old.items old no_links) }
{
    let none = Links {
        uses: Items::new(alloc),
        diags: Items::new(alloc),
    };
    let mut taken = replace(&mut links[old], SharedLinks::of(alloc, none)?);
    taken.move_files(alloc, to)?;
    Ok(taken)
}

// The links of a file: those that it had, if it stayed as it was and sees the same files as before; else it is linked anew.
fn links_now(
    alloc: Global,
    earlier: &mut Earlier,
    table: &Table,
    to: &[Option<FileNo>],
    before: Option<FileNo>,
    file: FileNo,
    pieces: &[Piece<FileWork>],
) -> Result<SharedLinks, AllocError>
    requires file { file < length pieces.now }
    requires before { IfSome before (λ g. place to.now g ≡ Some file) }
    requires earlier { (reads_others : Bool) × IsEarlierThan file to.now (workspace_of reads_others pieces.now) table.now earlier.old }
    requires moved_law { MovedLaw }
    ensures links { (reads_others : Bool) → IsEarlierThan file to.now (workspace_of reads_others pieces.now) table.now earlier.old → IfOk result (λ links. links ≡ resolution_of (workspace_of reads_others pieces.now) (file, slice_index_or (workspace_of reads_others pieces.now) file no_file)) }
    ensures earlier { (reads_others : Bool) → IsEarlierThan file to.now (workspace_of reads_others pieces.now) table.now earlier.old → OnOk result (IsEarlierThan (file + 1) to.now (workspace_of reads_others pieces.now) table.now earlier.new) }
{
    match number_if_moved(&earlier.graph, table, to, before, file)? {
        Some(old) => take_links(alloc, old, to, &mut earlier.links),
        None => resolution_of(alloc, table, file, &pieces[file]),
    }
}

// What is known of all files beside their facts, of which each is linked anew unless it sees the same files as before.
fn link_after(
    alloc: Global,
    earlier: Earlier,
    table: &Table,
    to: &[Option<FileNo>],
    before: &[Option<FileNo>],
    pieces: &[Piece<FileWork>],
) -> Result<Resolutions, AllocError>
    requires before { AreNumbersBefore (length pieces.now) to.now before.now }
    requires earlier { (reads_others : Bool) × IsEarlierThan 0 to.now (workspace_of reads_others pieces.now) table.now earlier }
    requires moved_law { MovedLaw }
    ensures links { (reads_others : Bool) → IsEarlierThan 0 to.now (workspace_of reads_others pieces.now) table.now earlier → IfOk result (λ found. found.links.items ≡ map (resolution_of (workspace_of reads_others pieces.now)) (enumerate_from 0 (workspace_of reads_others pieces.now))) }
    ensures diagnostics { (reads_others : Bool) → IsEarlierThan 0 to.now (workspace_of reads_others pieces.now) table.now earlier → IfOk result (λ found. found.diagnostics.items ≡ map (diagnostics_of (workspace_of reads_others pieces.now)) (enumerate_from 0 (workspace_of reads_others pieces.now))) }
{
    let mut earlier = earlier;
    let links = Vec::new(alloc);
    let diagnostics = Vec::new(alloc);
    let mut resolutions = Resolutions { links, diagnostics };
    for (file, piece) in pieces.iter().enumerate() {
        let found = links_now(alloc, &mut earlier, table, to, before[file], file, pieces)?;
        push_found(alloc, piece, found, &mut resolutions)?;
    }
    Ok(resolutions)
}

// The analysis of the workspace of some pieces after files came, left or got other texts; `reads_others` says whether those that aren't proto3 are
// read. Given are the analysis before, and for each file there its number now, or `None` if it left, has another text or is read otherwise. A file
// that stayed as it was, and sees the same files as before, is not linked again.
pub fn update_files(
    alloc: Global,
    earlier: Analysis,
    to: &[Option<FileNo>],
    pieces: &[Piece<FileWork>],
    reads_others: bool,
) -> Result<Analysis, AllocError>
    requires ascends { Ascends pieces.now }
    requires stayed { Stay (workspace_in earlier) (workspace_of reads_others pieces.now) to.now }
    ensures { IfOk result (λ found. found ≡ analysis (workspace_of reads_others pieces.now)) }
{
    moved_law();
    let AnalysisParts {
        table: known,
        resolutions: known_resolutions,
        ..
    } = earlier.into_parts();
    let (table, graph) = table_after(alloc, known, to, pieces, reads_others)?;
    let before = numbers_before(alloc, to, pieces.len())?;
    let earlier_files = Earlier {
        graph,
        links: known_resolutions.links,
    };
    let resolutions = link_after(alloc, earlier_files, &table, to, before.as_slice(), pieces)?;
    let files = files_of(alloc, pieces, reads_others)?;
    Ok(Analysis::of_parts(AnalysisParts {
        table,
        files,
        resolutions,
    }))
}
