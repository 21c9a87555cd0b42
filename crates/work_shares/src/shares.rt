// Consecutive pieces that one thread links.
ghost use Rattle.std.specs.Prelude.{◌≡◌, ℕ, [], map, vec_len, IfOk};
ghost use Rattle.work_shares.specs.Shares.{pieces_in, AreConsecutive, AreBalanced, AreKept, AreRead};

use piece_collector::Piece;
use std::alloc::{AllocError, Global};
use work_index::FileWork;

// Consecutive pieces of a workspace, the first of which has this number, from 0, among all.
#[derive(Drop)]
pub struct Share {
    pub first: usize,
    pub pieces: Vec<Piece<FileWork>>,
    // Whether the links of the files are kept once it is known what is wrong in them.
    pub keeps_links: bool,
    // Whether texts that aren't proto3 are read for what they declare.
    pub reads_others: bool,
}

// Cuts a share of all pieces into so many consecutive ones, the larger ones first. Their sizes differ by at most one.
pub fn cut(alloc: Global, all: Share, count: usize) -> Result<Vec<Share>, AllocError>
    requires { count ≡ 0 → all.pieces.items ≡ [] }
    ensures whole { IfOk result (λ shares. pieces_in shares.items ≡ all.pieces.items) }
    ensures places { IfOk result (λ shares. AreConsecutive 0 shares.items) }
    ensures kept { IfOk result (λ shares. AreKept all.keeps_links shares.items) }
    ensures read { IfOk result (λ shares. AreRead all.reads_others shares.items) }
    ensures count { IfOk result (λ shares. vec_len shares ≡ count) }
    ensures sizes { IfOk result (λ shares. AreBalanced (map (λ s. vec_len s.pieces) shares.items)) }
{
    let Share {
        mut pieces,
        keeps_links,
        reads_others,
        ..
    } = all;
    let mut shares = Vec::new(alloc);
    let mut first = 0usize;
    for i in 0..count {
        let here = pieces.len().div_ceil(count - i);
        let rest = pieces.split_off(here)?;
        shares.push(Share {
            first,
            pieces,
            keeps_links,
            reads_others,
        })?;
        pieces = rest;
        first += here;
    }
    Ok(shares)
}
