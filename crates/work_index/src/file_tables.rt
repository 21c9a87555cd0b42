// The index of all files.
ghost use Rattle.std.specs.Prelude.{◌≡◌, IfOk};
ghost use Rattle.piece_collector.specs.Board.{Ascends};
ghost use Rattle.work_index.specs.Pieces.{source_of, workspace_of};
ghost use Rattle.work_index.specs.Workspace.{named_facts, all_facts};

use crate::file_work::{FileWork, known_in};
use import_graph::NamedFacts;
use piece_collector::Piece;
use proto_decls::Name;
use proto_resolve::Table;
use std::alloc::{AllocError, Global};

/// A file with its facts, which the piece shares; `reads_others` says whether texts that aren't proto3 are read for what they declare. An `Err` comes
/// only where memory was refused.
pub fn named_facts(
    alloc: Global,
    piece: &Piece<FileWork>,
    reads_others: bool,
) -> Result<NamedFacts, AllocError>
    ensures { IfOk result (λ file. file ≡ named_facts (source_of reads_others piece.now)) }
{
    Ok(NamedFacts {
        path: Name::of(String::from_str(alloc, piece.path())?),
        facts: known_in(piece, reads_others).facts.another()?,
    })
}

/// The files of some pieces, with their facts, which the pieces share; `reads_others` says whether texts that aren't proto3 are read for what they
/// declare. An `Err` comes only where memory was refused.
pub fn all_facts(
    alloc: Global,
    pieces: &[Piece<FileWork>],
    reads_others: bool,
) -> Result<Vec<NamedFacts>, AllocError>
    ensures { IfOk result (λ files. files.items ≡ all_facts (workspace_of reads_others pieces.now)) }
{
    let mut files = Vec::new(alloc);
    for piece in pieces {
        files.push(named_facts(alloc, piece, reads_others)?)?;
    }
    Ok(files)
}

/// The table of the files of some pieces, which are in the order of their paths; `reads_others` says whether texts that aren't proto3 are read for what
/// they declare. It shares their facts. An `Err` comes only where memory was refused.
pub fn table_of(
    alloc: Global,
    pieces: &[Piece<FileWork>],
    reads_others: bool,
) -> Result<Table, AllocError>
    requires { Ascends pieces.now }
    ensures { IfOk result (λ table. table ≡ all_facts (workspace_of reads_others pieces.now)) }
{
    let files = all_facts(alloc, pieces, reads_others)?;
    Table::of(alloc, files)
}
