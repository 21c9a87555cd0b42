// The pieces of files, and what is written of any piece. What stands here for any work is proved without what a file's work makes.
ghost use Rattle.std.specs.Prelude.{◌≡◌, false, map, string_bytes, IfOk};

use crate::marks::plain;
use crate::words::first_word;
use piece_collector::{Board, Job, Lent, Piece, Work};
use std::alloc::{AllocError, Global};
use work_index::FileWork;
use work_meaning::NamedText;

/// A text with its path and its stamp.
#[derive(Clone, Copy)]
pub struct StampedText<'a> {
    pub path: &'a str,
    pub stamp: u64,
    pub text: &'a str,
}

fn stamped_text<W: Work>(piece: &Piece<W>) -> StampedText<'_> {
    StampedText {
        path: piece.path(),
        stamp: piece.stamp(),
        text: piece.text(),
    }
}

/// The text of a piece, with its path and its stamp.
pub fn text_of(piece: &Piece<FileWork>) -> StampedText<'_> {
    stamped_text(piece)
}

// Brings the piece that is made of a job.
fn bring<W: Work>(board: &mut Board<W>, work: &W, job: Job) -> Result<(), AllocError>
    requires { board.old.is_lent ≡ false }
    ensures { board.new.is_lent ≡ false }
{
    match Piece::make(work, job) {
        Ok(piece) => {
            board.offer(piece);
            Ok(())
        }
        Err(_) => Err(AllocError),
    }
}

fn set<W: Work>(alloc: Global, board: &mut Board<W>, file: &str) -> Result<(), AllocError>
    requires { board.old.is_lent ≡ false }
    ensures { board.new.is_lent ≡ false }
{
    let (path, text) = first_word(file);
    let path = plain(alloc, path)?;
    match board.set_text(path, plain(alloc, text)?) {
        Ok(_) => Ok(()),
        Err(_) => Err(AllocError),
    }
}

// Sets the text of a file, and brings the piece that is made of it.
fn put<W: Work>(alloc: Global, board: &mut Board<W>, work: &W, file: &str) -> Result<(), AllocError>
    requires { board.old.is_lent ≡ false }
    ensures { board.new.is_lent ≡ false }
{
    set(alloc, board, file)?;
    match board.next_job()? {
        Some(job) => bring(board, work, job),
        None => Ok(()),
    }
}

fn lent_of<W: Work>(board: &mut Board<W>) -> Result<Lent<W>, AllocError>
    requires { board.old.is_lent ≡ false }
{
    if board.is_complete() {
        board.lend_all()
    } else {
        Err(AllocError)
    }
}

// The pieces of the files of the fields behind so many. The board is made with one worker, the pieces by the other.
fn made<W: Work>(
    alloc: Global,
    of_board: W,
    work: &W,
    given: &str,
    behind: usize,
) -> Result<Lent<W>, AllocError> {
    let mut board = Board::new(alloc, of_board);
    for file in given.split(" :: ").skip(behind) {
        put(alloc, &mut board, work, file)?;
    }
    lent_of(&mut board)
}

/// The pieces of the files of the fields behind so many, in the order of their paths.
pub fn pieces_of(alloc: Global, given: &str, behind: usize) -> Result<Lent<FileWork>, AllocError> {
    let work = FileWork::new(alloc);
    made(alloc, work, &work, given, behind)
}

/// The files of pieces, by their paths and texts alone.
pub fn texts_of<W: Work>(alloc: Global, pieces: &[Piece<W>]) -> Result<Vec<NamedText>, AllocError>
    ensures { IfOk result (λ files. map (λ f. string_bytes f.path) files.items ≡ map (λ p. p.path) pieces.now) }
{
    let mut files = Vec::new(alloc);
    for piece in pieces {
        files.push(NamedText {
            path: String::from_str(alloc, piece.path())?,
            text: String::from_str(alloc, piece.text())?,
        })?;
    }
    Ok(files)
}
