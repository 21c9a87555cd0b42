// What is known of files, once another file comes between them that none of them imports.

ghost use Rattle.std.specs.Prelude.{◌≡◌, ◌<◌, ◌≤◌, ◌+◌, ℕ, ◌⊎◌, All, IfOk, IfSome, length, map, slice_index_or, vec_len};
ghost use Rattle.std.specs.List.{filter_map, insert};
ghost use Rattle.import_graph.specs.declared.imports.FileImports.{FileImports};
ghost use Rattle.import_graph.specs.Arrivals.{HasArrived};
ghost use Rattle.import_graph.specs.Coming.{HasNumber, edge_after, file_after, number_after, rows_with};
ghost use Rattle.import_graph.specs.Imports.{graph_of, is_complete_in, targets};
ghost use Rattle.import_graph.specs.Paths.{IsInPathOrder};
ghost use Rattle.import_graph.specs.Walks.{AllWithin};

use crate::components::Components;
use crate::imports::{FileImports, ImportEdge, imports_of, is_complete};
use crate::paths::FileNo;
use proto_decls::NamedFacts;
use sqlite_items::Items;
use std::alloc::{AllocError, Global};

// Gives the files of a row their numbers after another file comes to the place `at`. Those before it are not written.
fn renumber(at: FileNo, row: &mut Items<FileNo>)
    requires { AllWithin 18446744073709551615 row.old }
    ensures { row.new ≡ map (number_after at) row.old }
{
    for place in 0..row.len() {
        let file = row.as_slice()[place];
        if at <= file {
            row.set(place, file + 1);
        }
    }
}

// Gives the files of all rows their numbers after another file comes to the place `at`.
fn renumber_rows(at: FileNo, rows: &mut Vec<Items<FileNo>>)
    requires { All (AllWithin 18446744073709551615) rows.old.items }
    ensures { rows.new.items ≡ map (map (number_after at)) rows.old.items }
{
    for row in rows.iter_mut() {
        renumber(at, row);
    }
}

// Gives the files of all rows, which are among so many, their numbers after another file comes to the place `at`: if that is behind them all, no
// number changes.
pub fn make_way(at: FileNo, count: usize, rows: &mut Vec<Items<FileNo>>)
    requires { All (AllWithin count) rows.old.items }
    ensures { rows.new.items ≡ map (map (number_after at)) rows.old.items }
{
    if at < count {
        renumber_rows(at, rows);
    }
}

// The rows with one more, of the file that comes to the place `at`.
pub fn rows_with(
    at: FileNo,
    own: Items<FileNo>,
    rows: Vec<Items<FileNo>>,
) -> Result<Vec<Items<FileNo>>, AllocError>
    requires place { at ≤ length rows.items }
    requires small { All (AllWithin (length rows.items)) rows.items }
    ensures { IfOk result (λ v. v.items ≡ rows_with at own rows.items) }
{
    let mut rows = rows;
    make_way(at, rows.len(), &mut rows);
    rows.insert(at, own)?;
    Ok(rows)
}

// What an import names, after another file comes to the place `at`.
fn edge_after(at: FileNo, edge: ImportEdge) -> ImportEdge
    requires { IfSome edge.target (λ file. file < 18446744073709551615) }
    ensures { result ≡ edge_after at edge }
{
    let target = match edge.target {
        Some(file) => Some(if file < at { file } else { file + 1 }),
        None => None,
    };
    ImportEdge {
        target,
        is_public: edge.is_public,
    }
}

// What each of the imports names, after another file comes to the place `at`. Those that stay the same are not written.
fn renumber_edges(at: FileNo, edges: &mut Items<ImportEdge>)
    requires { AllWithin 18446744073709551615 (filter_map (λ l. l.target) edges.old) }
    ensures { edges.new ≡ map (edge_after at) edges.old }
{
    for place in 0..edges.len() {
        let edge = edges.as_slice()[place];
        let moved = edge_after(at, edge);
        if moved != edge {
            edges.set(place, moved);
        }
    }
}

// What files import by the numbers that files have after another file comes to the place `at`. If that is behind all of them, no number
// changes.
fn renumber_imports(at: FileNo, graph: &mut Vec<FileImports>)
    requires { All (λ file. AllWithin (length graph.old.items) (targets file)) graph.old.items }
    ensures { graph.new.items ≡ map (file_after at) graph.old.items }
{
    if at >= graph.len() {
        return;
    }
    for file in graph.iter_mut() {
        renumber_edges(at, &mut file.edges);
    }
}

// What the imports of the files name, where this was known of the others before the one of the number `at` came, which none of them imports.
pub fn imports_with(
    alloc: Global,
    files: &[NamedFacts],
    at: FileNo,
    others: Vec<FileImports>,
) -> Result<Vec<FileImports>, AllocError>
    requires ordered { IsInPathOrder files.now }
    requires arrived { HasArrived files.now at others.items }
    ensures { IfOk result (λ graph. graph.items ≡ graph_of files.now) }
{
    let mut graph = others;
    renumber_imports(at, &mut graph);
    graph.insert(at, imports_of(alloc, files, files[at].facts.get())?)?;
    Ok(graph)
}

// For each file whether all that it imports is there and not opaque, where this was known of the others before the one of the number
// `at` came, which none of them imports.
pub fn flags_with(
    graph: &[FileImports],
    at: FileNo,
    flags: Vec<bool>,
) -> Result<Vec<bool>, AllocError>
    requires file { at < length graph.now }
    requires flags { length graph.now ≡ length flags.items + 1 }
    ensures { IfOk result (λ v. (file : FileImports) → v.items ≡ insert flags.items at (is_complete_in graph.now (slice_index_or graph.now at file))) }
{
    let mut flags = flags;
    flags.insert(at, is_complete(graph, &graph[at]))?;
    Ok(flags)
}

// A number above those of the files that one imports, itself left out, if there is a higher one.
fn number_above(numbers: &[usize], own: &[FileNo], file: FileNo) -> usize
    requires { AllWithin (length numbers.now) own.now }
    ensures { All (λ t. (t ≡ file) ⊎ (slice_index_or numbers.now t 0 ≤ result)) own.now }
{
    let mut number = 0;
    for &target in own {
        if target != file {
            number = numbers[target].saturating_add(1).max(number);
        }
    }
    number
}

// The components of the files, where these were those of the others before the one of the number `at` came, which imports these. None of the
// others leads to it. The files from which numbers were given are of use only while these are given, and stay as they were.
pub fn components_with(
    at: FileNo,
    own: &[FileNo],
    components: Components,
) -> Result<Components, AllocError>
    requires place { at ≤ vec_len components.numbers }
    requires tied { vec_len components.tied ≡ vec_len components.numbers }
    requires own { AllWithin (vec_len components.numbers + 1) own.now }
    ensures { IfOk result (HasNumber at own.now components) }
{
    let mut components = components;
    components.numbers.insert(at, 0)?;
    components.numbers[at] = number_above(components.numbers.as_slice(), own, at);
    components.tied.insert(at, false)?;
    Ok(components)
}
