// A list of events, done on a board one after the other.
ghost use Rattle.std.specs.Prelude.{◌≡◌, ℕ, List, [], ◌∷◌, ◌++◌, false, map, IfOk, IfErr, OnOk, OnErr, Err};
ghost use Rattle.piece_collector.specs.Events.{Event};
ghost use Rattle.piece_collector.specs.History.{answer};
ghost use Rattle.piece_collector.specs.Board.{IsAfter, Records, WhateverCame};
ghost use Rattle.piece_collector.specs.Runs.{event_of, IsRefusedWith, Ran, Stopped};
ghost use Rattle.piece_collector.specs.declared.fault.BoardFault.TheVariants.{Exhausted};

use crate::board::Board;
use crate::fault::BoardFault;
use crate::piece::{Piece, Work};
use crate::verdict::Verdict;

/// What can be done to a board that isn't lent.
#[derive(Drop)]
pub enum BoardEvent<W: Work> {
    /// [`Board::set_text`].
    SetText {
        /// The path.
        path: String,
        /// Its new text.
        text: String,
    },
    /// [`Board::remove`].
    Remove {
        /// The path.
        path: String,
    },
    /// [`Board::next_job`]; the job is dropped.
    NextJob,
    /// [`Board::offer`].
    Offer(Piece<W>),
    /// [`Board::fail`].
    Fail {
        /// The path of the job.
        path: String,
        /// Its stamp.
        stamp: u64,
    },
}

/// Does the events in turn. Gives the verdicts of the offers and failures, in their order.
///
/// Refused with 502 where no stamp is left for a `SetText`, and with 501 where memory was refused; the board is then as
/// the events before the refused one leave it. A removal is never refused.
pub fn run_events<W: Work>(
    board: &mut Board<W>,
    events: Vec<BoardEvent<W>>,
) -> Result<Vec<Verdict>, BoardFault>
    requires { board.old.is_lent ≡ false }
    ensures ok { IfOk result (λ verdicts. WhateverCame board.old (λ opening earlier. Ran opening earlier (map event_of events.items) board.new verdicts.items)) }
    ensures err { IfErr result (λ fault. WhateverCame board.old (λ opening earlier. Stopped opening earlier (map event_of events.items) board.new fault)) }
    ensures exhausted { (result ≡ Err BoardFault.Exhausted) → (board.new.last ≡ 18446744073709551615) }
    ensures here { board.new.is_lent ≡ false }
{
    let mut verdicts = Vec::new(board.alloc());
    for event in events {
        step(board, event, &mut verdicts)?;
    }
    Ok(verdicts)
}

/// Does one event, and notes its verdict.
fn step<W: Work>(
    board: &mut Board<W>,
    event: BoardEvent<W>,
    verdicts: &mut Vec<Verdict>,
) -> Result<(), BoardFault>
    requires { board.old.is_lent ≡ false }
    ensures is_after { OnOk result (Records board.old board.new (event_of event ∷ [])) }
    ensures answer { OnOk result (WhateverCame board.old (λ opening earlier. verdicts.new.items ≡ verdicts.old.items ++ answer opening earlier (event_of event))) }
    ensures err { OnErr result (board.new ≡ board.old) }
    ensures refused { IfErr result (IsRefusedWith board.old.last (event_of event)) }
    ensures here { board.new.is_lent ≡ false }
{
    match event {
        BoardEvent::SetText { path, text } => {
            board.set_text(path, text)?;
            Ok(())
        }
        BoardEvent::Remove { path } => {
            board.remove(path.as_str());
            Ok(())
        }
        BoardEvent::NextJob => {
            board.next_job()?;
            Ok(())
        }
        BoardEvent::Offer(piece) => {
            verdicts.reserve(1)?;
            verdicts.push_reserved(board.offer(piece));
            Ok(())
        }
        BoardEvent::Fail { path, stamp } => {
            verdicts.reserve(1)?;
            verdicts.push_reserved(board.fail(path.as_str(), stamp));
            Ok(())
        }
    }
}
