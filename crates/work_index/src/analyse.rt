// The analysis of a workspace.
ghost use Rattle.std.specs.Prelude.{◌≡◌, ◌<◌, ◌++◌, Bool, [], ◌∷◌, length, map, IfOk, OnOk};
ghost use Rattle.std.specs.List.{enumerate_from};
ghost use Rattle.proto_decls.specs.Facts.{facts_of};
ghost use Rattle.piece_collector.specs.Board.{Ascends};
ghost use Rattle.work_index.specs.Pieces.{AreNumbersIn, source_of, workspace_of};
ghost use Rattle.work_index.specs.Workspace.{Source, Workspace, all_facts, analysis, resolution_of, merged, diagnostics_of, source_facts};

use crate::analysis::{Analysis, AnalysisParts, Resolutions};
use crate::file_tables::table_of;
use crate::file_work::{FileWork, facts_in, tree_in};
use crate::gate::{Gate, OpenGate};
use crate::shared_links::SharedLinks;
use crate::source_file::SourceFile;
use piece_collector::Piece;
use proto_decls::{Diag, FileFacts, in_order};
use proto_resolve::{Links, Table, resolve_file};
use sqlite_items::Items;
use std::alloc::{AllocError, Global};
use thread_heap::make_room_for_files;

/// The files of pieces, in their order; `reads_others` says whether texts that aren't proto3 are read for what they declare. An `Err` comes only
/// where memory was refused.
pub fn files_of(
    alloc: Global,
    pieces: &[Piece<FileWork>],
    reads_others: bool,
) -> Result<Vec<SourceFile>, AllocError>
    ensures { IfOk result (λ files. files.items ≡ workspace_of reads_others pieces.now) }
{
    let mut files = Vec::with_capacity(alloc, pieces.len())?;
    for piece in pieces {
        files.push(SourceFile::of(alloc, piece, reads_others)?)?;
    }
    Ok(files)
}

/// What the names of a file of the table mean, and what is wrong in it by what it sees. An `Err` comes only where memory was refused.
pub fn resolution_of(
    alloc: Global,
    table: &Table,
    file: usize,
    piece: &Piece<FileWork>,
) -> Result<SharedLinks, AllocError>
    requires { file < length table.now }
    ensures { (w : Workspace) (reads_others : Bool) → table.now ≡ all_facts w → IfOk result (λ links. links ≡ resolution_of w (file, source_of reads_others piece.now)) }
{
    let found = resolve_file(alloc, table, file, piece.text(), tree_in(piece))?;
    SharedLinks::of(alloc, found)
}

/// All that is wrong in a file with these facts, which are those of a text, by itself and by what it sees. How the text is read makes no difference. An
/// `Err` comes only where memory was refused.
pub fn diagnostics_of(
    alloc: Global,
    facts: &FileFacts,
    links: &Links,
) -> Result<Items<Diag>, AllocError>
    ensures { (s : Source) → facts.now ≡ source_facts s → IfOk result (λ diags. diags ≡ merged (facts_of s.text) links.now) }
{
    let mut found = Items::from_slice(alloc, facts.diags.as_slice())?;
    if links.diags.is_empty() {
        // Those of the file by itself are in order.
        return Ok(found);
    }
    'links: for diag in links.diags.as_slice() {
        found.push(*diag)?;
    }
    in_order(alloc, found.as_slice())
}

/// Adds the links of a file, and all that is wrong in it. An `Err` comes only where memory was refused.
pub fn push_found(
    alloc: Global,
    piece: &Piece<FileWork>,
    found: SharedLinks,
    resolutions: &mut Resolutions,
) -> Result<(), AllocError>
    ensures links { OnOk result (resolutions.new.links.items ≡ resolutions.old.links.items ++ found ∷ []) }
    ensures diagnostics { OnOk result (resolutions.new.diagnostics.items ≡ resolutions.old.diagnostics.items ++ merged (facts_of piece.now.text) found ∷ []) }
{
    let diagnostics = diagnostics_of(alloc, facts_in(piece), found.get())?;
    resolutions.diagnostics.push(diagnostics)?;
    resolutions.links.push(found)?;
    Ok(())
}

// Adds what is known of a file beside its facts.
fn push_linked(
    alloc: Global,
    table: &Table,
    file: usize,
    piece: &Piece<FileWork>,
    resolutions: &mut Resolutions,
) -> Result<(), AllocError>
    requires { file < length table.now }
    ensures links { (w : Workspace) (reads_others : Bool) → table.now ≡ all_facts w → OnOk result (resolutions.new.links.items ≡ resolutions.old.links.items ++ resolution_of w (file, source_of reads_others piece.now) ∷ []) }
    ensures diagnostics { (w : Workspace) (reads_others : Bool) → table.now ≡ all_facts w → OnOk result (resolutions.new.diagnostics.items ≡ resolutions.old.diagnostics.items ++ diagnostics_of w (file, source_of reads_others piece.now) ∷ []) }
{
    let found = resolution_of(alloc, table, file, piece)?;
    push_found(alloc, piece, found, resolutions)
}

/// What is known, beside their facts, of some pieces, which are files of the table. The first has this number there, from 0, and the others those
/// that follow. Enters the gate before each file. An `Err` comes only where memory was refused.
pub fn link_files<G: Gate>(
    alloc: Global,
    table: &Table,
    first: usize,
    pieces: &[Piece<FileWork>],
    gate: &G,
) -> Result<Resolutions, AllocError>
    requires { AreNumbersIn (length table.now) first (length pieces.now) }
    ensures links { (w : Workspace) (reads_others : Bool) → table.now ≡ all_facts w → IfOk result (λ found. found.links.items ≡ map (resolution_of w) (enumerate_from first (workspace_of reads_others pieces.now))) }
    ensures diagnostics { (w : Workspace) (reads_others : Bool) → table.now ≡ all_facts w → IfOk result (λ found. found.diagnostics.items ≡ map (diagnostics_of w) (enumerate_from first (workspace_of reads_others pieces.now))) }
{
    let links = Vec::new(alloc);
    let diagnostics = Vec::new(alloc);
    let mut resolutions = Resolutions { links, diagnostics };
    for (place, piece) in pieces.iter().enumerate() {
        gate.enter(piece.path(), piece.stamp());
        make_room_for_files(alloc, place)?;
        push_linked(alloc, table, first + place, piece, &mut resolutions)?;
    }
    Ok(resolutions)
}

// Adds what is wrong in a file, by itself and by what it sees.
fn push_diagnosed(
    alloc: Global,
    table: &Table,
    file: usize,
    piece: &Piece<FileWork>,
    diagnostics: &mut Vec<Items<Diag>>,
) -> Result<(), AllocError>
    requires { file < length table.now }
    ensures { (w : Workspace) (reads_others : Bool) → table.now ≡ all_facts w → OnOk result (diagnostics.new.items ≡ diagnostics.old.items ++ diagnostics_of w (file, source_of reads_others piece.now) ∷ []) }
{
    let found = resolution_of(alloc, table, file, piece)?;
    diagnostics.push(diagnostics_of(alloc, facts_in(piece), found.get())?)?;
    Ok(())
}

/// What is wrong in the files of some pieces, which are files of the table. The first has this number there, from 0, and the others those that
/// follow. Enters the gate before each file. What the names of a file mean is dropped as soon as that is known, so there are no links. An `Err` comes
/// only where memory was refused.
pub fn diagnose_files<G: Gate>(
    alloc: Global,
    table: &Table,
    first: usize,
    pieces: &[Piece<FileWork>],
    gate: &G,
) -> Result<Resolutions, AllocError>
    requires { AreNumbersIn (length table.now) first (length pieces.now) }
    ensures { (w : Workspace) (reads_others : Bool) → table.now ≡ all_facts w → IfOk result (λ found. found.diagnostics.items ≡ map (diagnostics_of w) (enumerate_from first (workspace_of reads_others pieces.now))) }
{
    let mut diagnostics = Vec::new(alloc);
    for (place, piece) in pieces.iter().enumerate() {
        gate.enter(piece.path(), piece.stamp());
        make_room_for_files(alloc, place)?;
        push_diagnosed(alloc, table, first + place, piece, &mut diagnostics)?;
    }
    let links = Vec::new(alloc);
    Ok(Resolutions { links, diagnostics })
}

/// The analysis of the workspace of some pieces, which are in the order of their paths, no path twice: it is that of their
/// paths and texts; `reads_others` says whether those that aren't proto3 are read for what they declare. An `Err` comes only where memory was refused.
pub fn analyse_here(
    alloc: Global,
    pieces: &[Piece<FileWork>],
    reads_others: bool,
) -> Result<Analysis, AllocError>
    requires { Ascends pieces.now }
    ensures { IfOk result (λ found. found ≡ analysis (workspace_of reads_others pieces.now)) }
{
    let table = table_of(alloc, pieces, reads_others)?;
    let files = files_of(alloc, pieces, reads_others)?;
    let resolutions = link_files(alloc, &table, 0, pieces, &OpenGate)?;
    Ok(Analysis::of_parts(AnalysisParts {
        table,
        files,
        resolutions,
    }))
}
