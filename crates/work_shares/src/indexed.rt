// The shares with the tables of their files.
ghost use Rattle.std.specs.Prelude.{IfOk};
ghost use Rattle.work_shares.specs.Parts.{IsIndexed, AreTaken};

use crate::part_table::PartTable;
use crate::shares::Share;
use std::alloc::{AllocError, Global};
use thread_heap::make_room_for_files;

// A share, with the declarations of its files by name.
#[derive(Drop)]
pub struct IndexedShare {
    pub share: Share,
    pub part: PartTable,
}

// Shares and the tables of their files, in the same order.
#[derive(Drop)]
pub struct IndexedShares {
    pub shares: Vec<Share>,
    pub parts: Vec<PartTable>,
}

// The work of one thread: the table of a share's files.
pub fn index_share(alloc: Global, share: Share) -> Result<IndexedShare, AllocError>
    ensures { IfOk result (IsIndexed share) }
{
    make_room_for_files(alloc, 0)?;
    let part = PartTable::of(
        alloc,
        share.first,
        share.pieces.as_slice(),
        share.reads_others,
    )?;
    Ok(IndexedShare { share, part })
}

// All shares and all tables, in the order of the answers. An `Err` where one of these is one.
pub fn take_apart(
    alloc: Global,
    answers: Vec<Result<IndexedShare, AllocError>>,
) -> Result<IndexedShares, AllocError>
    ensures { IfOk result (AreTaken answers.items) }
{
    let mut shares = Vec::new(alloc);
    let mut parts = Vec::new(alloc);
    for answer in answers {
        let IndexedShare { share, part } = answer?;
        shares.push(share)?;
        parts.push(part)?;
    }
    Ok(IndexedShares { shares, parts })
}
