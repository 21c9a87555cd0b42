// Tables of stretches of files, merged in any order, and the graph of their files.
use crate::line::Line;
use crate::pieces::pieces_of;
use crate::words::field;
use import_graph::{Graph, NamedFacts, are_in_path_order};
use piece_collector::Piece;
use proto_names::NameTable;
use std::alloc::{AllocError, Global};
use work_index::FileWork;
use work_shares::{PartTable, merge_tables};

// The table of one of three stretches of files, by its number from 0. The first two have a third of the files each, the last one has the rest.
fn stretch(
    alloc: Global,
    pieces: &[Piece<FileWork>],
    number: char,
) -> Result<PartTable, AllocError> {
    let third = pieces.len() / 3;
    match number {
        '0' => PartTable::of(alloc, 0, &pieces[..third], false),
        '1' => PartTable::of(alloc, third, &pieces[third..2 * third], false),
        _ => PartTable::of(alloc, 2 * third, &pieces[2 * third..], false),
    }
}

// The table of all files, merged of those of stretches in the order of their numbers.
fn merged(alloc: Global, pieces: &[Piece<FileWork>], order: &str) -> Result<NameTable, AllocError> {
    let mut parts = Vec::new(alloc);
    for number in order.chars() {
        parts.push(stretch(alloc, pieces, number)?)?;
    }
    merge_tables(alloc, parts)
}

// Writes the files of a table, and the declarations of a name, each by the number of its file and its own there.
fn write_table(line: &mut Line, table: &NameTable, name: &str) {
    for file in table.files() {
        line.put(file.path.as_str());
        line.put(" ");
    }
    line.put("declared:");
    for decl in table.decls_named(name) {
        line.put(" ");
        line.put_number(decl.file as u64);
        line.put(".");
        line.put_number(decl.number as u64);
    }
}

fn write_order(
    alloc: Global,
    line: &mut Line,
    pieces: &[Piece<FileWork>],
    order: &str,
    name: &str,
) -> Result<(), AllocError> {
    let table = merged(alloc, pieces, order)?;
    let mut own = Line::new(alloc);
    write_table(&mut own, &table, name);
    line.put_once(order, own.as_str());
    Ok(())
}

/// Orders of three stretches, a name, and files: the table that is merged in each of these orders. One answer stands for all orders; one that differs
/// is shown too.
pub fn write_merged(alloc: Global, line: &mut Line, given: &str) -> Result<(), AllocError> {
    let lent = pieces_of(alloc, given, 3)?;
    for order in field(given, 1).split(' ') {
        write_order(alloc, line, lent.pieces(), order, field(given, 2))?;
    }
    Ok(())
}

// Writes of each file whether its view is closed.
fn write_views(alloc: Global, line: &mut Line, files: &[NamedFacts]) -> Result<(), AllocError> {
    if !are_in_path_order(files) {
        return Ok(line.put("not in path order"));
    }
    let graph = Graph::of(alloc, files)?;
    for file in 0..files.len() {
        line.put(files[file].path.as_str());
        line.put(" ");
        line.put_bool(graph.is_closed(file)?);
        line.put(" ");
    }
    Ok(())
}

/// Files: writes of each whether all imports of all files that it sees are among them.
pub fn write_closed(alloc: Global, line: &mut Line, given: &str) -> Result<(), AllocError> {
    let lent = pieces_of(alloc, given, 1)?;
    let table = merged(alloc, lent.pieces(), "012")?;
    write_views(alloc, line, table.files())
}
