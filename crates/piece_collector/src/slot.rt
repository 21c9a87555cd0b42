// What a board keeps for a path.
ghost use Rattle.std.specs.Prelude.{◌≡◌, Some, None, true, false, cond, ◌&&◌, is_some, option_map};
ghost use Rattle.piece_collector.specs.Views.{is_wanting, failure_at, verdict_at};

use crate::piece::{Piece, Work};
use crate::text::SharedText;
use crate::verdict::Verdict;
use std::marker::Model;

/// The text of a path, whether a job for it was given, and the piece that was made of it.
#[derive(Drop)]
pub struct Slot<W: Work> {
    text: SharedText,
    stamp: u64,
    is_out: bool,
    piece: Option<Piece<W>>,
}

impl<W: Work> Model for Slot<W> {
    ghost use Rattle.piece_collector.specs.Views.{SlotView};

    ghost Value = { SlotView };

    ghost view = { λ s. record { text = s.text; stamp = s.stamp; is_out = s.is_out; piece = s.piece } };
}

impl<W: Work> Slot<W> {
    /// A text that is wanted.
    pub(crate) fn new(text: SharedText, stamp: u64) -> Slot<W>
        ensures { result ≡ record { text = text; stamp = stamp; is_out = false; piece = None } }
    {
        Slot {
            text,
            stamp,
            is_out: false,
            piece: None,
        }
    }

    /// The text.
    pub(crate) fn text(&self) -> &SharedText
        ensures { result.now ≡ self.now.text }
    {
        &self.text
    }

    /// The stamp.
    pub(crate) fn stamp(&self) -> u64
        ensures { result ≡ self.now.stamp }
    {
        self.stamp
    }

    /// Whether its piece is held.
    pub(crate) fn is_held(&self) -> bool
        ensures { result ≡ is_some self.now.piece }
    {
        self.piece.is_some()
    }

    /// Its piece, if it is held.
    pub(crate) fn piece(&self) -> Option<&Piece<W>>
        ensures { option_map (λ p. p.now) result ≡ self.now.piece }
    {
        self.piece.as_ref()
    }

    /// The text is to be worked on, and no job for it is out.
    pub(crate) fn is_wanted(&self) -> bool
        ensures { result ≡ is_wanting (Some self.now) }
    {
        !self.is_held() && !self.is_out
    }

    /// What a failure with this stamp is answered.
    pub(crate) fn judge(&self, stamp: u64) -> Verdict
        ensures { result ≡ failure_at stamp (Some self.now) }
    {
        if stamp < self.stamp {
            Verdict::Stale
        } else if stamp > self.stamp {
            Verdict::Foreign
        } else if self.is_held() {
            Verdict::Doubled
        } else {
            Verdict::Taken
        }
    }

    /// What a piece is answered.
    pub(crate) fn judge_piece(&self, piece: &Piece<W>) -> Verdict
        ensures { result ≡ verdict_at piece.now.stamp piece.now.text (Some self.now) }
    {
        if piece.stamp() < self.stamp {
            Verdict::Stale
        } else if piece.stamp() > self.stamp {
            Verdict::Foreign
        } else if self.is_held() {
            Verdict::Doubled
        } else if piece.text() != self.text.as_str() {
            Verdict::Foreign
        } else {
            Verdict::Taken
        }
    }

    /// A job for it is out, or isn't.
    pub(crate) fn set_out(&mut self, is_out: bool)
        ensures { self.new ≡ record self.old { is_out = is_out } }
    {
        self.is_out = is_out;
    }

    /// Keeps a piece.
    pub(crate) fn keep(&mut self, piece: Piece<W>)
        ensures { self.new ≡ record self.old { is_out = false; piece = Some piece } }
    {
        self.piece = Some(piece);
        self.is_out = false;
    }

    /// Puts the piece back that was taken.
    pub(crate) fn restore(&mut self, piece: Piece<W>)
        ensures { self.new ≡ record self.old { piece = Some piece } }
    {
        self.piece = Some(piece);
    }

    /// Takes the piece.
    pub(crate) fn take_piece(&mut self) -> Option<Piece<W>>
        ensures piece { result ≡ self.old.piece }
        ensures rest { self.new ≡ record self.old { piece = None } }
    {
        self.piece.take()
    }
}
