// How much calls find. A test refuses each of their allocations.
ghost use Rattle.piece_collector.specs.Board.{Ascends};

use crate::line::Line;
use crate::marks::plain;
use crate::pieces::{pieces_of, texts_of};
use crate::shares::write_found;
use crate::words::{field, number};
use lsp_queries::{references, symbols};
use lsp_renames::rename;
use piece_collector::Piece;
use proto_facts::facts;
use proto_lex::lex;
use proto_syntax::{parse, parse_text};
use std::alloc::{AllocError, Global};
use work_index::{Analysis, FileWork, analyse_here};
use work_meaning::analyse_texts;

// How many statements stand at the top of a text.
fn statements(alloc: Global, text: &str) -> Result<usize, AllocError> {
    let tokens = lex(alloc, text)?;
    let tree = parse(alloc, text, tokens.as_slice())?;
    Ok(tree.nodes.as_slice().len())
}

// How much is wrong in a text by itself.
fn diagnostics(alloc: Global, text: &str) -> Result<usize, AllocError> {
    let tree = parse_text(alloc, text)?;
    let found = facts(alloc, text, &tree)?;
    Ok(found.diags.as_slice().len())
}

/// Writes how many statements stand at the top of a text.
pub fn write_statements(alloc: Global, line: &mut Line, given: &str) -> Result<(), AllocError> {
    let text = plain(alloc, field(given, 1))?;
    line.put_number(statements(alloc, text.as_str())? as u64);
    Ok(())
}

/// Writes how much is wrong in a text by itself.
pub fn write_diagnostics(alloc: Global, line: &mut Line, given: &str) -> Result<(), AllocError> {
    let text = plain(alloc, field(given, 1))?;
    line.put_number(diagnostics(alloc, text.as_str())? as u64);
    Ok(())
}

// The analysis of the files of the fields behind so many.
fn analysis_of(alloc: Global, given: &str, behind: usize) -> Result<Analysis, AllocError> {
    let lent = pieces_of(alloc, given, behind)?;
    analyse_here(alloc, lent.pieces(), false)
}

// Writes what is wrong in the files of some pieces, how many declarations there are, and how many parts of each file's names mean something.
fn write_known(line: &mut Line, found: &Analysis, pieces: &[Piece<FileWork>]) {
    write_found(line, found, pieces);
    line.put(" ");
    line.put_number(found.decls().len() as u64);
    line.put(" declarations, uses");
    for file in 0..found.file_count() {
        line.put(" ");
        line.put_number(found.links(file).uses.as_slice().len() as u64);
    }
}

// Writes what an analysis by the texts of some pieces alone finds, if it isn't what is written already.
fn write_by_texts(
    alloc: Global,
    line: &mut Line,
    pieces: &[Piece<FileWork>],
    reads_others: bool,
) -> Result<(), AllocError>
    requires { Ascends pieces.now }
{
    let files = texts_of(alloc, pieces)?;
    let found = analyse_texts(alloc, files.as_slice(), reads_others)?;
    let mut own = Line::new(alloc);
    write_known(&mut own, &found, pieces);
    line.put_once("texts", own.as_str());
    Ok(())
}

/// Files: writes what an analysis finds, by their pieces and by their texts alone. Texts that aren't proto3 are read for what they declare, or
/// aren't.
pub fn write_analysis(
    alloc: Global,
    line: &mut Line,
    given: &str,
    reads_others: bool,
) -> Result<(), AllocError> {
    let lent = pieces_of(alloc, given, 1)?;
    let found = analyse_here(alloc, lent.pieces(), reads_others)?;
    write_known(line, &found, lent.pieces());
    write_by_texts(alloc, line, lent.pieces(), reads_others)
}

/// A query, and files: writes how many declarations match it.
pub fn write_symbols(alloc: Global, line: &mut Line, given: &str) -> Result<(), AllocError> {
    let analysis = analysis_of(alloc, given, 2)?;
    let found = symbols(alloc, &analysis, field(given, 1))?;
    line.put_number(found.len() as u64);
    Ok(())
}

/// An offset in the first file, and files: writes at how many places what stands there is named.
pub fn write_references(alloc: Global, line: &mut Line, given: &str) -> Result<(), AllocError> {
    let analysis = analysis_of(alloc, given, 2)?;
    let offset = number(field(given, 1)) as usize;
    match references(alloc, &analysis, 0, offset, true)? {
        Some(places) => line.put_number(places.len() as u64),
        None => line.put("none"),
    }
    Ok(())
}

/// An offset in the first file, a name, and files: writes how many edits give what stands there that name, or the fault.
pub fn write_edits(alloc: Global, line: &mut Line, given: &str) -> Result<(), AllocError> {
    let analysis = analysis_of(alloc, given, 3)?;
    let offset = number(field(given, 1)) as usize;
    match rename(alloc, &analysis, 0, offset, field(given, 2)) {
        Ok(edits) => line.put_number(edits.places.len() as u64),
        Err(fault) => line.put_fault(fault.code()),
    }
    Ok(())
}
