// Analyses that several threads make.
use crate::line::Line;
use crate::pieces::{pieces_of, text_of};
use crate::visited::Visited;
use crate::words::{field, number};
use piece_collector::{Lent, Piece};
use proto_decls::Diag;
use std::alloc::{AllocError, Global};
use std::sync::Wait;
use std::thread::Threads;
use work_index::{Analysis, FileWork};
use work_shares::{AnalysisSettings, analyse_in_shares};

// Line and column of an offset, from 0.
fn place(text: &str, offset: usize) -> (u64, u64) {
    let mut line = 0u64;
    let mut column = 0u64;
    for byte in text.as_bytes().iter().take(offset) {
        if *byte == b'\n' {
            line = line.saturating_add(1);
            column = 0;
        } else {
            column = column.saturating_add(1);
        }
    }
    (line, column)
}

// Writes a diagnostic: its line, the columns of its start and its end, and its number.
fn write_diagnostic(line: &mut Line, text: &str, diag: &Diag) {
    let (row, from) = place(text, diag.start);
    let (_, to) = place(text, diag.end);
    line.put(" ");
    line.put_number(row);
    line.put(":");
    line.put_number(from);
    line.put("-");
    line.put_number(to);
    line.put(" ");
    line.put_number(diag.message.code() as u64);
}

// Writes the pieces that came back, each with the stamp of its text.
fn write_pieces(line: &mut Line, pieces: &[Piece<FileWork>]) {
    line.put_number(pieces.len() as u64);
    line.put(" pieces:");
    for piece in pieces {
        let own = text_of(piece);
        line.put(" ");
        line.put(own.path);
        line.put("@");
        line.put_number(own.stamp);
    }
}

// Writes what is wrong in the file of a piece.
fn write_file(line: &mut Line, found: &Analysis, piece: &Piece<FileWork>) {
    let own = text_of(piece);
    line.put(own.path);
    for diag in found.diagnostics_at(own.path) {
        write_diagnostic(line, own.text, diag);
    }
    line.put(";");
}

/// Writes what is wrong in the files of these pieces.
pub fn write_found(line: &mut Line, found: &Analysis, pieces: &[Piece<FileWork>]) {
    line.put_number(found.file_count() as u64);
    line.put(" files: ");
    for piece in pieces {
        write_file(line, found, piece);
    }
}

// Has threads analyse lent pieces, and writes the pieces that come back, how often each file came to the gate, and what is wrong in each.
// Where the files meet, each waits for all others at the gate.
fn write_analysis<R: Threads + Wait>(
    rt: &R,
    alloc: Global,
    line: &mut Line,
    lent: Lent<FileWork>,
    settings: AnalysisSettings,
    meet: bool,
) -> Result<(), AllocError> {
    let gate = Visited::by(alloc, lent.pieces(), meet)?;
    match analyse_in_shares(rt, alloc, lent, settings, &gate) {
        Ok((lent, found)) => {
            write_pieces(line, lent.pieces());
            gate.write(line);
            line.put("; ");
            write_found(line, &found, lent.pieces());
        }
        Err(fault) => {
            line.put("error: ");
            line.put_fault(fault.code());
        }
    }
    Ok(())
}

fn write_shares<R: Threads + Wait>(
    rt: &R,
    alloc: Global,
    line: &mut Line,
    given: &str,
    settings: AnalysisSettings,
) -> Result<(), AllocError> {
    let lent = pieces_of(alloc, given, 2)?;
    write_analysis(rt, alloc, line, lent, settings, false)
}

/// Numbers of threads, and files: what comes of an analysis by so many threads. One answer stands for all numbers; one that differs
/// is shown too. `reads_others` says whether texts that aren't proto3 are read for what they declare.
pub fn answer<R: Threads + Wait>(
    rt: &R,
    alloc: Global,
    line: &mut Line,
    given: &str,
    reads_others: bool,
) -> Result<(), AllocError> {
    for workers in field(given, 1).split(' ') {
        let mut own = Line::new(alloc);
        let settings = AnalysisSettings {
            workers: number(workers) as usize,
            reads_others,
        };
        write_shares(rt, alloc, &mut own, given, settings)?;
        line.put_once(workers, own.as_str());
    }
    Ok(())
}

/// Files: what comes of an analysis by as many threads, which wait for each other before each file.
pub fn meet<R: Threads + Wait>(
    rt: &R,
    alloc: Global,
    line: &mut Line,
    given: &str,
) -> Result<(), AllocError> {
    let lent = pieces_of(alloc, given, 1)?;
    let settings = AnalysisSettings {
        workers: lent.pieces().len(),
        reads_others: false,
    };
    write_analysis(rt, alloc, line, lent, settings, true)
}
