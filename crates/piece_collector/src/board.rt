// The texts of the known paths, each with its stamp, and the pieces that were made of them.
ghost use Rattle.std.specs.Prelude.{◌≡◌, ℕ, ◌+◌, ◌↔◌, List, [], ◌∷◌, Bool, true, false, IfOk, OnOk, OnErr, Err, Some, None, option_map, string_bytes, is_some, IsTrue, IfSome, bytes_eq};
ghost use Rattle.piece_collector.specs.Events.{Event, SetText, Remove, NextJob, Offer, Fail};
ghost use Rattle.piece_collector.specs.History.{verdict_on, failure_on, stands_at, first_wanted, history};
ghost use Rattle.piece_collector.specs.Board.{IsAfter, Records, WhateverCame, IsFirstWanted, IsComplete, IsFull, IsTextsOf, IsTextsIn, current_text};
ghost use Rattle.std.specs.Map.{update};
ghost use Rattle.piece_collector.specs.Views.{slot_of, known_text, text_in};
ghost use Rattle.piece_collector.specs.Lending.{piece_in};
ghost use Rattle.piece_collector.specs.declared.fault.BoardFault.TheVariants.{Exhausted};

use crate::fault::BoardFault;
use crate::job::Job;
use crate::lent::Lent;
use crate::piece::{Piece, Work};
use crate::slot::Slot;
use crate::slots;
use crate::text::SharedText;
use crate::verdict::Verdict;
use std::alloc::{AllocError, Global};
use std::collections::{BTreeMap, BTreeSet};
use std::marker::Model;

/// A text for each known path, with its stamp, and the pieces that were made of the texts.
///
/// A path is known from [`set_text`](Board::set_text) to [`remove`](Board::remove). It is wanted, out or held: wanted
/// until a job for it is given, out until the job fails, and held once a piece is taken, whether it was out or not. A
/// new text makes it wanted again, whatever became of the job. While the pieces are lent only `take_back` and `is_lent`
/// may be called.
///
/// A text is in memory once: the board, the jobs that it gives and their pieces share it.
///
/// Contracts speak of what was done to a board as a list of events, the latest first. A board that stands for a list
/// stands after each call for that list and the call's event, unless the call was refused.
///
/// Each path that has no piece is among `unheld`, so that the search for the next job passes over no held path. No path
/// before `from` is wanted, so that the search begins there: it passes again over the paths that are out only after a
/// failed job, or a new text of a path before `from`.
#[derive(Drop)]
pub struct Board<W: Work> {
    alloc: Global,
    last: u64,
    slots: BTreeMap<String, Slot<W>>,
    unheld: BTreeSet<String>,
    from: String,
    is_lent: bool,
}

impl<W: Work> Model for Board<W> {
    ghost use Rattle.piece_collector.specs.Views.{BoardView, seen, IsKept};

    ghost Value = { BoardView };

    ghost view = { λ b. seen b.last b.slots b.is_lent };

    ghost invariant = { λ b. IsKept b.slots b.unheld b.from b.is_lent };
}

impl<W: Work> Board<W> {
    /// A board that knows no path, for pieces of this work. Its first stamp is 1. It keeps the allocator, and takes no
    /// memory yet.
    pub fn new(alloc: Global, work: W) -> Board<W>
        ensures is_after { IsAfter 0 result [] }
        ensures texts { (q : List ℕ) → known_text q result ≡ None }
        ensures here { result.is_lent ≡ false }
    {
        Board::counting_from(alloc, work, 0)
    }

    /// A board that knows no path, for pieces of this work. Its first stamp is the one after `stamp`. It keeps the
    /// allocator, and takes no memory yet.
    pub fn counting_from(alloc: Global, _work: W, stamp: u64) -> Board<W>
        ensures is_after { IsAfter stamp result [] }
        ensures texts { (q : List ℕ) → known_text q result ≡ None }
        ensures here { result.is_lent ≡ false }
    {
        Board {
            alloc,
            last: stamp,
            slots: BTreeMap::new(alloc),
            unheld: BTreeSet::new(alloc),
            from: String::new(alloc),
            is_lent: false,
        }
    }

    // Whether no stamp is left.
    fn is_exhausted(&self) -> bool
        ensures { IsTrue result ↔ (self.now.last ≡ 18446744073709551615) }
    {
        self.last == u64::MAX
    }

    /// Sets the text of a path, which is wanted from then on, also where it had this text before. Gives its stamp: one
    /// more than the last that was given.
    ///
    /// Refused with 502 where the last stamp was `u64::MAX`, and with 501 where memory was; the board is as before.
    pub fn set_text(&mut self, path: String, text: String) -> Result<u64, BoardFault>
        requires { self.old.is_lent ≡ false }
        ensures is_after { OnOk result (Records self.old self.new (SetText (string_bytes path) (string_bytes text) ∷ [])) }
        ensures texts { OnOk result ((q : List ℕ) → known_text q self.new ≡ update bytes_eq (λ p. known_text p self.old) (string_bytes path) (Some (string_bytes text)) q) }
        ensures stamp { IfOk result (λ stamp. (stamp ≡ self.old.last + 1) × (stamp ≡ self.new.last)) }
        ensures here { self.new.is_lent ≡ false }

        // Only where the last stamp was given is there none left, whatever memory there is.
        ensures exhausted { (result ≡ Err BoardFault.Exhausted) ↔ (self.old.last ≡ 18446744073709551615) }
        ensures err { OnErr result (self.new ≡ self.old) }
    {
        if self.is_exhausted() {
            return Err(BoardFault::Exhausted);
        }
        let text = SharedText::shared(self.alloc, text)?;
        self.set_shared_text(path, text)
    }

    /// Sets the text of a path as [`set_text`](Board::set_text) does, and is refused as that is. The text isn't copied: the board shares it
    /// with its other owners.
    pub fn set_shared_text(&mut self, path: String, text: SharedText) -> Result<u64, BoardFault>
        requires { self.old.is_lent ≡ false }
        ensures is_after { OnOk result (Records self.old self.new (SetText (string_bytes path) text ∷ [])) }
        ensures texts { OnOk result ((q : List ℕ) → known_text q self.new ≡ update bytes_eq (λ p. known_text p self.old) (string_bytes path) (Some text) q) }
        ensures stamp { IfOk result (λ stamp. (stamp ≡ self.old.last + 1) × (stamp ≡ self.new.last)) }
        ensures here { self.new.is_lent ≡ false }

        // Only where the last stamp was given is there none left, whatever memory there is.
        ensures exhausted { (result ≡ Err BoardFault.Exhausted) ↔ (self.old.last ≡ 18446744073709551615) }
        ensures err { OnErr result (self.new ≡ self.old) }
    {
        if self.is_exhausted() {
            return Err(BoardFault::Exhausted);
        }
        let stamp = self.last + 1;
        self.unheld.insert(path.clone()?)?;
        slots::look_back(&mut self.from, path.as_str());
        self.slots.insert(path, Slot::new(text, stamp))?;
        self.last = stamp;
        Ok(stamp)
    }

    /// Forgets a path, with its text and its piece. Answers whether it was known; where it wasn't, nothing changes.
    pub fn remove(&mut self, path: &str) -> bool
        requires { self.old.is_lent ≡ false }
        ensures is_after { Records self.old self.new (Remove path.now ∷ []) }
        ensures texts { (q : List ℕ) → known_text q self.new ≡ update bytes_eq (λ p. known_text p self.old) path.now None q }
        ensures known { result ≡ is_some (slot_of path.now self.old) }
        ensures here { self.new.is_lent ≡ false }
    {
        self.unheld.remove(path);
        self.slots.remove(path).is_some()
    }

    /// Gives a job for the first wanted path, in path order, which is out from then on; none only where no path is
    /// wanted. Where memory is refused the board is as before.
    pub fn next_job(&mut self) -> Result<Option<Job>, AllocError>
        requires { self.old.is_lent ≡ false }
        ensures is_after { OnOk result (Records self.old self.new (NextJob ∷ [])) }
        ensures first { IfOk result (λ job. WhateverCame self.old (λ opening events. IsFirstWanted opening events (option_map (λ j. j.path) job))) }

        // The job has the path's current stamp and text.
        ensures text { IfOk result (λ job. WhateverCame self.old (λ opening events. IfSome job (λ j. option_map (current_text j.path) (stands_at opening events j.path) ≡ Some j))) }
        ensures texts { (q : List ℕ) → known_text q self.new ≡ known_text q self.old }
        ensures here { self.new.is_lent ≡ false }
        ensures err { OnErr result (self.new ≡ self.old) }
    {
        let Some(job) = slots::first_job(&self.slots, &self.unheld, &self.from)? else {
            if let Some(last) = self.unheld.last() {
                self.from = last.clone()?;
            }
            return Ok(None);
        };
        self.from = String::from_str(self.alloc, job.path())?;
        slots::set_out(&mut self.slots, job.path(), true);
        Ok(Some(job))
    }

    /// Brings a piece, whether or not its job was given. It is taken where its path is known and has no piece yet, and
    /// the piece has the path's current stamp and text; the path is held from then on. Any other piece is dropped, and
    /// the verdict says why.
    pub fn offer(&mut self, piece: Piece<W>) -> Verdict
        requires { self.old.is_lent ≡ false }
        ensures is_after { Records self.old self.new (Offer piece.path piece.stamp piece.text ∷ []) }
        ensures texts { (q : List ℕ) → known_text q self.new ≡ known_text q self.old }
        ensures verdict { WhateverCame self.old (λ opening events. result ≡ verdict_on piece.stamp piece.text (stands_at opening events piece.path)) }
        ensures here { self.new.is_lent ≡ false }
    {
        let verdict = slots::judge_piece(&self.slots, &piece);
        if verdict != Verdict::Taken {
            return verdict;
        }
        self.unheld.remove(piece.path());
        slots::keep(&mut self.slots, piece);
        verdict
    }

    /// Brings the failure of a job by its path and stamp, whether or not the job was given. It is taken where the path
    /// is known and has no piece yet, and the stamp is the current one; the path is wanted from then on.
    pub fn fail(&mut self, path: &str, stamp: u64) -> Verdict
        requires { self.old.is_lent ≡ false }
        ensures is_after { Records self.old self.new (Fail path.now stamp ∷ []) }
        ensures texts { (q : List ℕ) → known_text q self.new ≡ known_text q self.old }
        ensures verdict { WhateverCame self.old (λ opening events. result ≡ failure_on stamp (stands_at opening events path.now)) }
        ensures here { self.new.is_lent ≡ false }
    {
        let verdict = slots::judge(&self.slots, path, stamp);
        if verdict != Verdict::Taken {
            return verdict;
        }
        self.from.clear();
        slots::set_out(&mut self.slots, path, false);
        verdict
    }

    /// Whether each known path is held.
    pub fn is_complete(&self) -> bool
        requires { self.now.is_lent ≡ false }
        ensures full { IsTrue result ↔ IsFull self.now }
        ensures complete { WhateverCame self.now (λ opening events. IsTrue result ↔ IsComplete opening events) }
    {
        slots::are_held(&self.slots, &self.unheld)
    }

    /// The piece of a path, made of its current text; `None` if there is none. Takes no memory. Not while the pieces are lent.
    pub fn piece(&self, path: &str) -> Option<&Piece<W>>
        requires { self.now.is_lent ≡ false }
        ensures piece { option_map (λ p. p.now) result ≡ piece_in (slot_of path.now self.now) }
        ensures current { IfSome result (λ p. IfSome (slot_of path.now self.now) (λ s. p.now ≡ text_in path.now s)) }
    {
        slots::piece_of(&self.slots, path)
    }

    /// The last stamp that was given; before the first one that which the board counts from.
    pub fn last_stamp(&self) -> u64
        ensures { result ≡ self.now.last }
    {
        self.last
    }

    /// Whether the pieces are lent.
    pub fn is_lent(&self) -> bool
        ensures { result ≡ self.now.is_lent }
    {
        self.is_lent
    }

    /// Lends the pieces of a complete board, in path order: they are of the current texts of all known paths. The
    /// board is lent until [`take_back`](Board::take_back). Where memory is refused it is as before.
    pub fn lend_all(&mut self) -> Result<Lent<W>, AllocError>
        requires here { self.old.is_lent ≡ false }
        requires full { IsFull self.old }
        ensures texts { IfOk result (λ lent. WhateverCame self.old (λ opening events. IsTextsOf opening events lent)) }

        // These are what `take_back` asks for.
        ensures back { IfOk result (λ lent. IsTextsIn self.new lent) }

        // Lending is no event.
        ensures is_after { OnOk result (Records self.old self.new []) }
        ensures lent { OnOk result (self.new ≡ record self.old { is_lent = true }) }
        ensures err { OnErr result (self.new ≡ self.old) }
    {
        let mut pieces = Vec::with_capacity(self.alloc, self.slots.len())?;
        let kept = Vec::with_capacity(self.alloc, self.slots.len())?;
        slots::take_all(self.alloc, &mut self.slots, kept, &mut pieces);
        self.is_lent = true;
        Ok(Lent::of(pieces))
    }

    /// Takes the lent pieces back, or others with the same paths, stamps and texts, in order. The board is as before
    /// they were lent.
    pub fn take_back(&mut self, lent: Lent<W>)
        requires lent { self.old.is_lent ≡ true }
        requires texts { IsTextsIn self.old lent }
        ensures is_after { Records self.old self.new [] }
        ensures here { self.new ≡ record self.old { is_lent = false } }
    {
        slots::restore_all(&mut self.slots, lent.into_pieces());
        self.is_lent = false;
    }

    /// The allocator that the board was made with.
    pub(crate) fn alloc(&self) -> Global {
        self.alloc
    }
}
