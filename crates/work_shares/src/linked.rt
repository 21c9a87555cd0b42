// The pieces of a share with what is known of each.
ghost use Rattle.std.specs.Prelude.{◌≡◌, length, IfOk};
ghost use Rattle.work_index.specs.Pieces.{AreNumbersIn};
ghost use Rattle.work_shares.specs.Shares.{IsLinkedBy, AreJoined};

use crate::shares::Share;
use piece_collector::Piece;
use proto_resolve::Table;
use sqlite_items::Items;
use std::alloc::{AllocError, Global};
use work_index::{FileWork, Gate, Resolutions, diagnose_files, link_files};

// The pieces of a share, as they were, what is wrong in them, and what their names mean, if that is kept.
#[derive(Drop)]
pub struct LinkedShare {
    pub pieces: Vec<Piece<FileWork>>,
    pub resolutions: Resolutions,
}

// The work of one thread: links the files of a share in order, and enters the gate before each of them. Where links aren't kept, those of
// a file are dropped as soon as it is known what is wrong in it.
pub fn link_share<G: Gate>(
    alloc: Global,
    share: Share,
    table: &Table,
    gate: &G,
) -> Result<LinkedShare, AllocError>
    requires { AreNumbersIn (length table.now) share.first (length share.pieces.items) }
    ensures { IfOk result (IsLinkedBy table.now share) }
{
    let Share {
        first,
        pieces,
        keeps_links,
        ..
    } = share;
    let resolutions = if keeps_links {
        link_files(alloc, table, first, pieces.as_slice(), gate)?
    } else {
        diagnose_files(alloc, table, first, pieces.as_slice(), gate)?
    };
    Ok(LinkedShare {
        pieces,
        resolutions,
    })
}

// All pieces and links, with what is wrong in each file, in the order of the shares. An `Err` where one of the answers is one.
pub fn gather(
    alloc: Global,
    answers: Vec<Result<LinkedShare, AllocError>>,
) -> Result<LinkedShare, AllocError>
    ensures { IfOk result (AreJoined answers.items) }
{
    let mut pieces = Vec::new(alloc);
    let mut links = Vec::new(alloc);
    let mut diagnostics = Vec::new(alloc);
    for answer in answers {
        let LinkedShare {
            pieces: mut more,
            mut resolutions,
        } = answer?;
        pieces.append(&mut more)?;
        links.append(&mut resolutions.links)?;
        diagnostics.append(&mut resolutions.diagnostics)?;
    }
    let resolutions = Resolutions { links, diagnostics };
    Ok(LinkedShare {
        pieces,
        resolutions,
    })
}
