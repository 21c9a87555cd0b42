// Boards of texts and pieces: events in, verdicts out.
ghost use Rattle.std.specs.Prelude.{◌≡◌, false};

use crate::line::Line;
use crate::marks::plain;
use crate::words::{field, first_word, number};
use piece_collector::{Board, BoardEvent, Job, Lent, Piece, Verdict, Work, run_events};
use std::alloc::{AllocError, Global};

/// Work whose product is the text's length.
#[derive(Drop)]
struct Length;

impl Work for Length {
    type Out = usize;

    ghost use Rattle.std.specs.Prelude.{◌≡◌, length};

    ghost is_product_of = { λ out text. out ≡ length text };

    fn work(&self, text: &str) -> Result<usize, AllocError> {
        Ok(text.len())
    }
}

// A job: the path, the stamp and the text.
fn job(alloc: Global, words: &str) -> Result<Job, AllocError> {
    let (path, rest) = first_word(words);
    let (stamp, text) = first_word(rest);
    let path = String::from_str(alloc, path)?;
    Ok(Job::new(path, number(stamp), plain(alloc, text)?))
}

fn piece(job: Job) -> Result<Piece<Length>, AllocError> {
    match Piece::make(&Length, job) {
        Ok(piece) => Ok(piece),
        Err(_) => Err(AllocError),
    }
}

fn write_text(line: &mut Line, path: &str, stamp: u64, text: &str) {
    line.put(path);
    line.put(" ");
    line.put_number(stamp);
    line.put(" ");
    line.put_shown(text);
}

fn write_job(line: &mut Line, job: &Job) {
    write_text(line, job.path(), job.stamp(), job.text());
}

fn write_piece(line: &mut Line, piece: &Piece<Length>) {
    write_text(line, piece.path(), piece.stamp(), piece.text());
    line.put(" ");
    line.put_number(*piece.out() as u64);
}

/// The word for a verdict.
pub fn verdict_word(verdict: Verdict) -> &'static str {
    match verdict {
        Verdict::Taken => "Taken",
        Verdict::Stale => "Stale",
        Verdict::Foreign => "Foreign",
        Verdict::Doubled => "Doubled",
    }
}

fn event(alloc: Global, field: &str) -> Result<BoardEvent<Length>, AllocError> {
    let (word, rest) = first_word(field);
    let (path, words) = first_word(rest);
    if word == "offer" {
        return Ok(BoardEvent::Offer(piece(job(alloc, rest)?)?));
    }
    let path = plain(alloc, path)?;
    Ok(match word {
        "set" => BoardEvent::SetText {
            path,
            text: plain(alloc, words)?,
        },
        "remove" => BoardEvent::Remove { path },
        "fail" => BoardEvent::Fail {
            path,
            stamp: number(words),
        },
        _ => BoardEvent::NextJob,
    })
}

// The events up to the field `then`.
fn events(alloc: Global, given: &str) -> Result<Vec<BoardEvent<Length>>, AllocError> {
    let mut events = Vec::new(alloc);
    for field in given.split(" :: ").skip(2) {
        if field == "then" {
            break;
        }
        events.push(event(alloc, field)?)?;
    }
    Ok(events)
}

/// A board whose last stamp is given first: the verdicts of a run of events or the fault that ends it, whether the board is
/// complete then, and the answers to the calls behind the field `then`.
pub fn run(alloc: Global, line: &mut Line, given: &str) -> Result<(), AllocError> {
    let mut board = Board::counting_from(alloc, Length, number(field(given, 1)));
    write_run(line, &mut board, events(alloc, given)?);
    let mut is_behind = false;
    for call in given.split(" :: ") {
        if is_behind {
            line.put("; ");
            step(alloc, line, &mut board, call)?;
        }
        is_behind = is_behind || call == "then";
    }
    Ok(())
}

fn write_verdicts(line: &mut Line, verdicts: &[Verdict]) {
    for verdict in verdicts {
        line.put(verdict_word(*verdict));
        line.put(" ");
    }
}

fn write_run(line: &mut Line, board: &mut Board<Length>, events: Vec<BoardEvent<Length>>)
    requires { board.old.is_lent ≡ false }
    ensures { board.new.is_lent ≡ false }
{
    match run_events(board, events) {
        Ok(verdicts) => write_verdicts(line, verdicts.as_slice()),
        Err(fault) => {
            line.put_fault(fault.code());
            line.put(" ");
        }
    }
    line.put("complete ");
    line.put_bool(board.is_complete());
}

// A call on a board, and its answer.
fn step(
    alloc: Global,
    line: &mut Line,
    board: &mut Board<Length>,
    call: &str,
) -> Result<(), AllocError>
    requires { board.old.is_lent ≡ false }
    ensures { board.new.is_lent ≡ false }
{
    let (word, rest) = first_word(call);
    match word {
        "set" => set(alloc, line, board, rest)?,
        "remove" => line.put_bool(board.remove(rest)),
        "next" => next(line, board)?,
        "work" => work(line, board)?,
        "offer" => line.put(verdict_word(board.offer(piece(job(alloc, rest)?)?))),
        "fail" => {
            let (path, stamp) = first_word(rest);
            line.put(verdict_word(board.fail(path, number(stamp))));
        }
        "piece" => find(line, board, rest),
        _ => lend(line, board)?,
    }
    Ok(())
}

fn set(
    alloc: Global,
    line: &mut Line,
    board: &mut Board<Length>,
    file: &str,
) -> Result<(), AllocError>
    requires { board.old.is_lent ≡ false }
    ensures { board.new.is_lent ≡ false }
{
    let (path, text) = first_word(file);
    let path = plain(alloc, path)?;
    match board.set_text(path, plain(alloc, text)?) {
        Ok(stamp) => line.put_number(stamp),
        Err(fault) => line.put_fault(fault.code()),
    }
    Ok(())
}

fn next(line: &mut Line, board: &mut Board<Length>) -> Result<(), AllocError>
    requires { board.old.is_lent ≡ false }
    ensures { board.new.is_lent ≡ false }
{
    match board.next_job()? {
        Some(job) => write_job(line, &job),
        None => line.put("none"),
    }
    Ok(())
}

// Offers the piece that is made of the next job.
fn work(line: &mut Line, board: &mut Board<Length>) -> Result<(), AllocError>
    requires { board.old.is_lent ≡ false }
    ensures { board.new.is_lent ≡ false }
{
    match board.next_job()? {
        Some(job) => line.put(verdict_word(board.offer(piece(job)?))),
        None => line.put("none"),
    }
    Ok(())
}

// The piece at a path.
fn find(line: &mut Line, board: &Board<Length>, path: &str)
    requires { board.now.is_lent ≡ false }
{
    match board.piece(path) {
        Some(piece) => write_piece(line, piece),
        None => line.put("none"),
    }
}

fn write_pieces(line: &mut Line, pieces: &[Piece<Length>]) {
    for piece in pieces {
        write_piece(line, piece);
        line.put(", ");
    }
}

// Lends all pieces where the board is complete, and takes them back.
fn lend(line: &mut Line, board: &mut Board<Length>) -> Result<(), AllocError>
    requires { board.old.is_lent ≡ false }
    ensures { board.new.is_lent ≡ false }
{
    if !board.is_complete() {
        line.put("not complete");
        return Ok(());
    }
    let lent = board.lend_all()?;
    write_pieces(line, lent.pieces());
    line.put("lent ");
    line.put_bool(board.is_lent());
    board.take_back(Lent::of(lent.into_pieces()));
    line.put(", then ");
    line.put_bool(board.is_lent());
    line.put(", complete ");
    line.put_bool(board.is_complete());
    Ok(())
}
