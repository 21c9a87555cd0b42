// The pieces that a board lends.
ghost use Rattle.std.specs.Prelude.{◌≡◌};
ghost use Rattle.piece_collector.specs.Board.{Ascends};

use crate::piece::{Piece, Work};
use std::marker::Model;

/// Pieces that a board lent, or others in their place. Their paths ascend strictly.
#[derive(Drop)]
pub struct Lent<W: Work> {
    pieces: Vec<Piece<W>>,
}

impl<W: Work> Model for Lent<W> {
    ghost use Rattle.std.specs.Prelude.{List};
    ghost use Rattle.piece_collector.specs.Views.{TextAt};
    ghost use Rattle.piece_collector.specs.Board.{Ascends};

    ghost Value = { List TextAt };

    ghost view = { λ l. l.pieces.items };

    ghost invariant = { λ l. Ascends l.pieces.items };
}

impl<W: Work> Lent<W> {
    /// These pieces, whose paths ascend strictly.
    pub fn of(pieces: Vec<Piece<W>>) -> Lent<W>
        requires { Ascends pieces.items }
        ensures { result ≡ pieces.items }
    {
        Lent { pieces }
    }

    /// The pieces, in path order.
    pub fn into_pieces(self) -> Vec<Piece<W>>
        ensures pieces { result.items ≡ self }
        ensures ascends { Ascends result.items }
    {
        self.pieces
    }

    /// The pieces, in path order, which stay where they are.
    pub fn pieces(&self) -> &[Piece<W>]
        ensures pieces { result.now ≡ self.now }
        ensures ascends { Ascends result.now }
    {
        self.pieces.as_slice()
    }
}
