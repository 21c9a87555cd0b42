// The analysis of a workspace with one more file, which none of the others imports.
ghost use Rattle.std.specs.Prelude.{◌≡◌, length, map, IfOk, OnOk};
ghost use Rattle.std.specs.List.{insert};
ghost use Rattle.work_links.specs.Laws.{decl_moved};
ghost use Rattle.work_links.specs.Touched.{links_after};
ghost use Rattle.work_index.specs.AnalysisParts.{AreParts};
ghost use Rattle.work_index.specs.Pieces.{source_of};
ghost use Rattle.work_index.specs.Workspace.{Workspace, analysis};
ghost use Rattle.work_update.specs.Arrivals.{Arrives, TakesIn, numbers_with};

use import_graph::{FileNo, arrival_law};
use piece_collector::Piece;
use proto_resolve::TableChange;
use std::alloc::{AllocError, Global};
use work_index::{
    Analysis, AnalysisParts, FileWork, SharedLinks, SourceFile, diagnostics_of, facts_in,
    named_facts, resolution_of,
};
use work_links::moved_law;

// The numbers of so many files, once another comes to the place `at`.
fn numbers_with(alloc: Global, at: FileNo, count: usize) -> Result<Vec<Option<FileNo>>, AllocError>
    ensures { IfOk result (λ to. to.items ≡ numbers_with at count) }
{
    let mut to = Vec::with_capacity(alloc, count)?;
    for file in 0..count {
        to.push(Some(if file < at { file } else { file + 1 }))?;
    }
    Ok(to)
}

// Gives the declarations in the links of all files the new numbers of their files.
fn move_all(
    alloc: Global,
    to: &[Option<FileNo>],
    links: &mut Vec<SharedLinks>,
) -> Result<(), AllocError>
    ensures { OnOk result (links.new.items ≡ map (links_after (decl_moved to.now)) links.old.items) }
{
    for own in links.iter_mut() {
        own.move_files(alloc, to)?;
    }
    Ok(())
}

// Gives the declarations in the links the numbers that so many files have once another comes to the place `at`. If that is behind all others,
// no number changes.
fn make_way(
    alloc: Global,
    at: FileNo,
    count: usize,
    links: &mut Vec<SharedLinks>,
) -> Result<(), AllocError>
    ensures { OnOk result (links.new.items ≡ map (links_after (decl_moved (numbers_with at count))) links.old.items) }
{
    if at < count {
        let to = numbers_with(alloc, at, count)?;
        move_all(alloc, to.as_slice(), links)?;
    }
    Ok(())
}

// The parts of an analysis with one more file, which is that of the piece and gets the number `at`. `reads_others` says whether its
// text is read if it isn't proto3.
fn with_file(
    alloc: Global,
    parts: AnalysisParts,
    at: FileNo,
    piece: &Piece<FileWork>,
    reads_others: bool,
) -> Result<AnalysisParts, AllocError>
    requires { (w : Workspace) × TakesIn w (numbers_with at (length parts.files.items)) at (source_of reads_others piece.now) parts }
    ensures { (w : Workspace) → TakesIn w (numbers_with at (length parts.files.items)) at (source_of reads_others piece.now) parts → IfOk result (AreParts w) }
{
    let AnalysisParts {
        table,
        mut files,
        mut resolutions,
    } = parts;
    make_way(alloc, at, files.len(), &mut resolutions.links)?;
    let (table, _) = table.update(
        alloc,
        TableChange::Added(at, named_facts(alloc, piece, reads_others)?),
    )?;
    files.insert(at, SourceFile::of(alloc, piece, reads_others)?)?;
    let found = resolution_of(alloc, &table, at, piece)?;
    let diagnostics = diagnostics_of(alloc, facts_in(piece), found.get())?;
    resolutions.links.insert(at, found)?;
    resolutions.diagnostics.insert(at, diagnostics)?;
    Ok(AnalysisParts {
        table,
        files,
        resolutions,
    })
}

// The analysis of a workspace with one more file, which is that of the piece, from the analysis without it. `reads_others` says whether its text
// is read if it isn't proto3. None of the others imports it: those stay linked as they were, but for the numbers of files, of which none changes if
// its path comes after theirs.
pub fn add_file(
    alloc: Global,
    earlier: Analysis,
    piece: &Piece<FileWork>,
    reads_others: bool,
) -> Result<Analysis, AllocError>
    requires { Arrives earlier (source_of reads_others piece.now) }
    ensures { (arrives : Arrives earlier (source_of reads_others piece.now)) → IfOk result (λ found. found ≡ analysis (insert arrives.old arrives.at (source_of reads_others piece.now))) }
{
    moved_law();
    arrival_law();
    let parts = earlier.into_parts();
    let at = parts.table.place_for(piece.path());
    let parts = with_file(alloc, parts, at, piece, reads_others)?;
    Ok(Analysis::of_parts(parts))
}
