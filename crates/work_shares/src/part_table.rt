// The declarations of stretches of a workspace by name, and those of all its files.
ghost use Rattle.std.specs.Prelude.{◌≡◌, List, IfOk, OnOk};
ghost use Rattle.std.specs.List.Sorted.{IsNonDecreasingBy, IsPermutation};
ghost use Rattle.proto_decls.specs.declared.named_facts.NamedFacts.{NamedFacts};
ghost use Rattle.work_index.specs.Pieces.{workspace_of};
ghost use Rattle.work_shares.specs.Stretches.{Cover};
ghost use Rattle.work_index.specs.Workspace.{all_facts};

use piece_collector::Piece;
use proto_resolve::{NameEntries, NameTable};
use std::alloc::{AllocError, Global};
use std::marker::Model;
use work_index::{FileWork, all_facts};

/// The declarations of consecutive files of a workspace by name: what one thread makes of its share. Contracts see the number of
/// its first file among all, counted from 0, and the files with their facts.
#[derive(Drop)]
pub struct PartTable {
    first: usize,
    entries: NameEntries,
}

impl Model for PartTable {
    ghost use Rattle.work_shares.specs.Stretches.{PartData};

    ghost Value = { PartData };

    ghost view = { λ p. record { first = p.first; files = p.entries } };
}

impl PartTable {
    /// The table of the files of some pieces, the first of which has this number, from 0, among all; `reads_others` says whether texts that
    /// aren't proto3 are read for what they declare. Their facts aren't copied. An `Err` comes only where memory was refused.
    pub fn of(
        alloc: Global,
        first: usize,
        pieces: &[Piece<FileWork>],
        reads_others: bool,
    ) -> Result<PartTable, AllocError>
        ensures { IfOk result (λ p. p ≡ record { first = first; files = all_facts (workspace_of reads_others pieces.now) }) }
    {
        let files = all_facts(alloc, pieces, reads_others)?;
        let entries = NameEntries::of(alloc, files)?;
        Ok(PartTable { first, entries })
    }
}

fn sort_by_first(parts: &mut Vec<PartTable>) -> Result<(), AllocError>
    ensures sorted { OnOk result (IsNonDecreasingBy (λ p. p.first) parts.new.items) }
    ensures same { IsPermutation parts.old.items parts.new.items }
{
    parts.sort_by_key(|part| part.first)
}

// The entries of the files of parts that cover a workspace from 0 without overlap or gap, in any order.
pub fn merged_entries(alloc: Global, parts: Vec<PartTable>) -> Result<NameEntries, AllocError>
    ensures { (files : List NamedFacts) → Cover files parts.items → IfOk result (λ e. e ≡ files) }
{
    let mut parts = parts;
    sort_by_first(&mut parts)?;
    let mut entries = NameEntries::new(alloc);
    for part in parts {
        entries = entries.followed_by(part.entries)?;
    }
    Ok(entries)
}

/// Merges the tables of parts that cover the files of a workspace from 0 without overlap or gap, in any order. The declarations of
/// a name are then by file, then offset. An `Err` comes only where memory was refused.
pub fn merge_tables(alloc: Global, parts: Vec<PartTable>) -> Result<NameTable, AllocError>
    ensures { (files : List NamedFacts) → Cover files parts.items → IfOk result (λ t. t ≡ files) }
{
    let entries = merged_entries(alloc, parts)?;
    NameTable::of(alloc, entries)
}
