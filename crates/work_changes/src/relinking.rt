// The analysis of a workspace after changes of the texts of some files.
ghost use Rattle.std.specs.Prelude.{◌≡◌, ◌<◌, List, All, Some, true, false, length, map, slice_index_or, slice_set, IfOk, IfSome, MatchOption, OnOk, IsTrue};
ghost use Rattle.std.specs.List.{enumerate_from, slice_get};
ghost use Rattle.proto_tree.specs.Read.{value_tree};
ghost use Rattle.proto_decls.specs.Facts.{facts_of};
ghost use Rattle.proto_decls.specs.declared.named_facts.NamedFacts.{NamedFacts};
ghost use Rattle.import_graph.specs.Closures.{seers_of, view_of};
ghost use Rattle.import_graph.specs.Imports.{graph_of};
ghost use Rattle.import_graph.specs.Outlooks.{outlook};
ghost use Rattle.proto_names.specs.Files.{facts_at};
ghost use Rattle.proto_names.specs.Outlines.{with_facts, exports};
ghost use Rattle.proto_resolve.specs.Resolved.{resolved};
ghost use Rattle.proto_resolve.specs.Seen.{SeenLaw};
ghost use Rattle.work_links.specs.Laws.{TouchedLaw};
ghost use Rattle.work_links.specs.Touched.{decl_after, links_after};
ghost use Rattle.work_index.specs.Pieces.{workspace_of};
ghost use Rattle.work_index.specs.Workspace.{Workspace, all_facts, analysis, diagnostics_of, merged, resolution_of, workspace_in};
ghost use Rattle.work_changes.specs.declared.relinking.FileChange.{FileChange};
ghost use Rattle.work_changes.specs.Changes.{AreKeptBut, AreLinked, AreLinkedBefore, AreTakenBut, DifferAt, Follows, IsSpared, StaysBut, StillWait, links_under, waiting_under, waits, WasKnown};

use import_graph::{FileNo, Graph, SharedFacts, same_outlook};
use piece_collector::Piece;
use proto_decls::Diag;
use proto_resolve::{Index, Links, Table, TableChange, resolve_file, same_exports, seen_law};
use proto_tree::FileTree;
use sqlite_items::Items;
use std::alloc::{AllocError, Global};
use work_index::{
    Analysis, AnalysisParts, FileWork, Resolutions, SharedLinks, SourceFile, diagnostics_of,
    tree_in,
};
use work_links::{Asked, Renumbering, Touched, touched_law};

// What a change of one file's text may change for the other files.
#[derive(Drop)]
struct FileChange {
    // The number of the file.
    file: usize,
    // To whom it says another thing than before, if to any.
    told: Option<Told>,
    // The graph of imports before the change, where that may be another one than after it.
    before: Option<Graph>,
}

// The files that see a changed one, which says another thing than before to them.
#[derive(Drop)]
struct Told {
    // Their numbers, ascending.
    seers: Vec<FileNo>,
    // What the change touches, if that is little.
    touched: Option<Touched>,
}

// What becomes of the links of a file.
#[derive(Clone, Copy)]
enum Effect {
    // They stay as they are.
    Stay,
    // They stay but for the numbers of the changed file's declarations.
    Move(Renumbering),
    // The file has to be linked again.
    Relink,
}

/// What was known of a workspace, but for its files, before changes of the texts of some.
#[derive(Drop)]
pub struct Outdated {
    /// The table of names.
    pub table: Table,
    /// What the names of each file meant, and what was wrong in it.
    pub resolutions: Resolutions,
}

/// What is linked while changes are taken one after the other.
#[derive(Drop)]
pub struct Relinking {
    /// What the names of each file mean, and what is wrong in it.
    pub resolutions: Resolutions,
    /// Of each file, whether it waits to be linked again: its links count for nothing until then.
    pub waiting: Vec<bool>,
}

/// What the names of a file that is linked again mean, and what is wrong in it.
#[derive(Drop)]
pub struct FileLinks {
    /// What its names mean.
    pub links: Links,
    /// What is wrong in it, each once, by start, end, number and words.
    pub diagnostics: Items<Diag>,
}

// Whether the imports say of a file what they said before the change.
fn looks_as_before(table: &Table, change: &FileChange, file: usize) -> Result<bool, AllocError>
    requires file { file < length table.now }
    requires as_many { IfSome change.now.before (λ graph. length graph ≡ length table.now) }
    ensures { (old : List NamedFacts) → DifferAt old table.now change.now → IfOk result (λ same. IsTrue same → outlook (graph_of old) file ≡ outlook (graph_of table.now) file) }
{
    match &change.before {
        Some(before) => same_outlook(before, table.graph(), file),
        None => Ok(true),
    }
}

// Whether a file sees the changed one.
fn is_seer(told: &Told, file: usize) -> bool
    ensures { (old new : List NamedFacts) (change : FileChange) → DifferAt old new change → change.told ≡ Some told.now → file < length new → result ≡ false → All (λ g. exports (facts_at old g) ≡ exports (facts_at new g)) (view_of (graph_of new) file) }
{
    told.seers.as_slice().binary_search(&file).is_ok()
}

// How numbers change in the links of a file that sees a change and asks for these names, unless it may ask for a touched one.
fn spared_by(told: &Told, asked: &Asked) -> Option<Renumbering>
    ensures { IfSome result (IsSpared told.now asked.now) }
{
    match &told.touched {
        Some(touched) if !asked.asks_for(touched) => Some(touched.by),
        _ => None,
    }
}

// What a change makes of the links of a file that asks for these names.
fn effect_on(
    table: &Table,
    change: &FileChange,
    file: usize,
    asked: &Asked,
) -> Result<Effect, AllocError>
    requires file { file < length table.now }
    requires as_many { IfSome change.now.before (λ graph. length graph ≡ length table.now) }
    ensures { (old : List NamedFacts) → DifferAt old table.now change.now → IfOk result (Follows old table.now change.now file asked.now) }
{
    if file == change.file || !looks_as_before(table, change, file)? {
        return Ok(Effect::Relink);
    }
    let Some(told) = &change.told else {
        return Ok(Effect::Stay);
    };
    if !is_seer(told, file) {
        return Ok(Effect::Stay);
    }
    match spared_by(told, asked) {
        Some(by) => Ok(Effect::Move(by)),
        None => Ok(Effect::Relink),
    }
}

/// What the names of a file mean, and what is wrong in it. The file is given by its number, counted from 0, with its tree. An `Err` comes only where
/// memory was refused.
pub fn relinked(
    alloc: Global,
    table: &Table,
    file: usize,
    source: &SourceFile,
    tree: &FileTree,
) -> Result<FileLinks, AllocError>
    requires file { file < length table.now }
    requires tree { tree.now ≡ value_tree source.now.1.text }
    ensures links { IfOk result (λ found. found.links ≡ resolved table.now file source.now.1.text (value_tree source.now.1.text)) }
    ensures diagnostics { IfOk result (λ found. found.diagnostics ≡ merged (facts_of source.now.1.text) (resolved table.now file source.now.1.text (value_tree source.now.1.text))) }
{
    let links = resolve_file(alloc, table, file, source.text(), tree)?;
    let diagnostics = diagnostics_of(alloc, source.facts().get(), &links)?;
    Ok(FileLinks { links, diagnostics })
}

// Links a file again, whose text is that of the piece with its number.
fn link_again(
    alloc: Global,
    table: &Table,
    file: usize,
    source: &SourceFile,
    pieces: &[Piece<FileWork>],
    resolutions: &mut Resolutions,
) -> Result<(), AllocError>
    requires file { file < length table.now }
    requires text { slice_get (map (λ p. p.text) pieces.now) file ≡ Some source.now.1.text }
    requires links { file < length resolutions.old.links.items }
    requires diagnostics { file < length resolutions.old.diagnostics.items }
    ensures links { (w : Workspace) → table.now ≡ all_facts w → OnOk result (resolutions.new.links.items ≡ slice_set resolutions.old.links.items file (resolution_of w (file, source.now))) }
    ensures diagnostics { (w : Workspace) → table.now ≡ all_facts w → OnOk result (resolutions.new.diagnostics.items ≡ slice_set resolutions.old.diagnostics.items file (diagnostics_of w (file, source.now))) }
{
    let FileLinks { links, diagnostics } = relinked(
        alloc,
        table,
        file,
        source,
        tree_in(&pieces[file]),
    )?;
    let links = SharedLinks::of(alloc, links)?;
    resolutions.diagnostics[file] = diagnostics;
    resolutions.links[file] = links;
    Ok(())
}

// Gives the links of a file the numbers that declarations have now.
fn set_renumbered(
    alloc: Global,
    by: &Renumbering,
    file: usize,
    resolutions: &mut Resolutions,
) -> Result<(), AllocError>
    requires { file < length resolutions.old.links.items }
    ensures links { (d : Links) → OnOk result (resolutions.new.links.items ≡ slice_set resolutions.old.links.items file (links_after (decl_after by.now) (slice_index_or resolutions.old.links.items file d))) }
    ensures diagnostics { resolutions.new.diagnostics.items ≡ resolutions.old.diagnostics.items }
{
    resolutions.links[file].renumber(alloc, by)
}

// Lets a change have its effect on the links of a file.
fn take_effect(
    alloc: Global,
    effect: Effect,
    file: usize,
    relinking: &mut Relinking,
) -> Result<(), AllocError>
    requires links { file < length relinking.old.resolutions.links.items }
    requires waiting { file < length relinking.old.waiting.items }
    ensures links { OnOk result (relinking.new.resolutions.links.items ≡ links_under effect file relinking.old.resolutions.links.items) }
    ensures diagnostics { relinking.new.resolutions.diagnostics.items ≡ relinking.old.resolutions.diagnostics.items }
    ensures waiting { OnOk result (relinking.new.waiting.items ≡ waiting_under effect file relinking.old.waiting.items) }
{
    match effect {
        Effect::Stay => {}
        Effect::Move(by) => set_renumbered(alloc, &by, file, &mut relinking.resolutions)?,
        Effect::Relink => relinking.waiting[file] = true,
    }
    Ok(())
}

// Brings the links of the files that don't wait up to the change; those to which it may make more of a difference than other
// numbers wait from then on.
fn follow(
    alloc: Global,
    table: &Table,
    change: &FileChange,
    files: &[SourceFile],
    relinking: &mut Relinking,
) -> Result<(), AllocError>
    requires before { AreLinkedBefore table.now change.now files.now relinking.old }
    requires seen_law { SeenLaw }
    requires touched_law { TouchedLaw }
    ensures linked { OnOk result (AreLinked table.now files.now relinking.new) }
    ensures wait { OnOk result (StillWait relinking.old relinking.new) }
{
    for (file, source) in files.iter().enumerate() {
        if !relinking.waiting[file] {
            let effect = effect_on(table, change, file, source.asked())?;
            take_effect(alloc, effect, file, relinking)?;
        }
    }
    Ok(())
}

// The files that see the changed one, if it tells them another thing than before, with what the change touches.
fn told_by(
    table: &Table,
    changed: usize,
    tells: bool,
    touched: Option<Touched>,
) -> Result<Option<Told>, AllocError>
    requires { changed < length table.now }
    ensures { IfOk result (λ found. MatchOption found (tells ≡ false) (λ told. (told.seers.items ≡ seers_of (graph_of table.now) changed) × (told.touched ≡ touched))) }
{
    if !tells {
        return Ok(None);
    }
    let seers = table.graph().seen_by(changed)?;
    Ok(Some(Told { seers, touched }))
}

// The facts of a file.
fn facts_at(files: &[SourceFile], file: usize) -> &SharedFacts
    requires { file < length files.now }
    ensures { result.now ≡ facts_at (all_facts files.now) file }
{
    files[file].facts()
}

// The table after one more change, of a file that waits. The links of the files that don't wait are brought up to it.
fn take_change(
    alloc: Global,
    table: Table,
    changed: FileNo,
    files: &[SourceFile],
    relinking: &mut Relinking,
) -> Result<Table, AllocError>
    requires within { changed < length files.now }
    requires waits { waits relinking.old changed ≡ true }
    requires linked { AreLinked table files.now relinking.old }
    requires seen_law { SeenLaw }
    requires touched_law { TouchedLaw }
    ensures table { IfOk result (λ after. after ≡ with_facts table changed (facts_at (all_facts files.now) changed)) }
    ensures linked { IfOk result (λ after. AreLinked after files.now relinking.new) }
    ensures wait { OnOk result (StillWait relinking.old relinking.new) }
{
    let shared = facts_at(files, changed);
    let facts = shared.get();
    let exports = !same_exports(facts, table.facts(changed));
    let touched = Touched::of(alloc, changed, table.facts(changed), facts)?;
    let other = shared.another()?;
    let (table, before) = table.update(alloc, TableChange::Facts(changed, other))?;
    let told = told_by(&table, changed, exports, touched)?;
    let change = FileChange {
        file: changed,
        told,
        before,
    };
    follow(alloc, &table, &change, files, relinking)?;
    Ok(table)
}

// The table after all changes, taken one after the other. The links of the files that don't wait are brought up to them.
fn take_changes(
    alloc: Global,
    table: Table,
    changed: &[FileNo],
    files: &[SourceFile],
    relinking: &mut Relinking,
) -> Result<Table, AllocError>
    requires before { AreTakenBut changed.now table files.now relinking.old }
    requires seen_law { SeenLaw }
    requires touched_law { TouchedLaw }
    ensures table { IfOk result (λ after. after ≡ all_facts files.now) }
    ensures linked { IfOk result (λ after. AreLinked after files.now relinking.new) }
{
    let mut table = table;
    for file in changed {
        table = take_change(alloc, table, *file, files, relinking)?;
    }
    Ok(table)
}

// Of each of so many files, whether it waits to be linked again: the changed ones do.
fn waiting_of(alloc: Global, count: usize, changed: &[FileNo]) -> Result<Vec<bool>, AllocError>
    requires { All (λ f. f < count) changed.now }
    ensures count { IfOk result (λ waiting. length waiting.items ≡ count) }
    ensures changed { IfOk result (λ waiting. All (λ f. slice_index_or waiting.items f true ≡ true) changed.now) }
{
    let mut waiting = vec![in alloc; false; count]?;
    for file in changed {
        waiting[*file] = true;
    }
    Ok(waiting)
}

/// The table of these files, made of what was known before changes of the texts of some, and their links: some files wait to be linked again.
/// `changed` has the numbers of the files that got other texts, counted from 0. An `Err` comes only where memory was refused.
pub fn bring_up(
    alloc: Global,
    outdated: Outdated,
    changed: &[FileNo],
    files: &[SourceFile],
) -> Result<(Table, Relinking), AllocError>
    requires { WasKnown outdated files.now changed.now }
    ensures table { IfOk result (λ now. now.0 ≡ all_facts files.now) }
    ensures linked { IfOk result (λ now. AreLinked now.0 files.now now.1) }
{
    seen_law();
    touched_law();
    let Outdated { table, resolutions } = outdated;
    let waiting = waiting_of(alloc, files.len(), changed)?;
    let mut relinking = Relinking {
        resolutions,
        waiting,
    };
    let table = take_changes(alloc, table, changed, files, &mut relinking)?;
    Ok((table, relinking))
}

// The links of all files, those that wait linked again. Their texts are those of the pieces.
fn link_waiting(
    alloc: Global,
    table: &Table,
    files: &[SourceFile],
    pieces: &[Piece<FileWork>],
    relinking: Relinking,
) -> Result<Resolutions, AllocError>
    requires table { table.now ≡ all_facts files.now }
    requires linked { AreLinked table.now files.now relinking }
    requires texts { map (λ p. p.text) pieces.now ≡ map (λ f. f.1.text) files.now }
    ensures links { IfOk result (λ found. found.links.items ≡ map (resolution_of files.now) (enumerate_from 0 files.now)) }
    ensures diagnostics { IfOk result (λ found. found.diagnostics.items ≡ map (diagnostics_of files.now) (enumerate_from 0 files.now)) }
{
    let Relinking {
        mut resolutions,
        waiting,
    } = relinking;
    for (file, source) in files.iter().enumerate() {
        if waiting[file] {
            link_again(alloc, table, file, source, pieces, &mut resolutions)?;
        }
    }
    Ok(resolutions)
}

// The files of all pieces, from those before changes of the texts of some: the others stay. `reads_others` says whether texts that aren't proto3 are read.
fn with_changed(
    alloc: Global,
    files: Vec<SourceFile>,
    changed: &[FileNo],
    pieces: &[Piece<FileWork>],
    reads_others: bool,
) -> Result<Vec<SourceFile>, AllocError>
    requires within { All (λ f. f < length pieces.now) changed.now }
    requires kept { AreKeptBut changed.now files.items (workspace_of reads_others pieces.now) }
    ensures { IfOk result (λ all. all.items ≡ workspace_of reads_others pieces.now) }
{
    let mut files = files;
    for file in changed {
        files[*file] = SourceFile::of(alloc, &pieces[*file], reads_others)?;
    }
    Ok(files)
}

/// The analysis of the workspace of some pieces after changes of the texts of some files, whose numbers are given, counted from 0; `reads_others` says
/// whether those that aren't proto3 are read. Links again only those files, the files of which the imports say another thing than before, and of those that
/// see a changed one the ones that may ask for a name that the change touches: all of them if it touches many names, or the package's. An `Err` comes only
/// where memory was refused.
pub fn update_texts(
    alloc: Global,
    earlier: Analysis,
    changed: &[FileNo],
    pieces: &[Piece<FileWork>],
    reads_others: bool,
) -> Result<Analysis, AllocError>
    requires within { All (λ f. f < length (workspace_of reads_others pieces.now)) changed.now }
    requires others { StaysBut changed.now (workspace_in earlier) (workspace_of reads_others pieces.now) }
    ensures { IfOk result (λ found. found ≡ analysis (workspace_of reads_others pieces.now)) }
{
    let AnalysisParts {
        table,
        files,
        resolutions,
    } = earlier.into_parts();
    let files = with_changed(alloc, files, changed, pieces, reads_others)?;
    let outdated = Outdated { table, resolutions };
    let (table, relinking) = bring_up(alloc, outdated, changed, files.as_slice())?;
    let resolutions = link_waiting(alloc, &table, files.as_slice(), pieces, relinking)?;
    Ok(Analysis::of_parts(AnalysisParts {
        table,
        files,
        resolutions,
    }))
}
