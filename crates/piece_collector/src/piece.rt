// What a worker makes of a text.
ghost use Rattle.std.specs.Prelude.{◌≡◌, ℕ, List, IfOk, IfErr};

use crate::job::Job;
use crate::text::SharedText;
use std::alloc::AllocError;
use std::marker::Model;

/// The work that is done on each text. One that makes collections keeps the allocator that it was made with.
pub trait Work: Drop {
    /// What comes of a text. Pieces go from one thread to another.
    type Out: Drop + Send;

    /// When a product stands for the value of a text. It is a fact about the type, whichever value does the work.
    ghost is_product_of: { Self.Out → List ℕ → Type 0 };

    /// Works on a text. Gives a product that stands for its value, or an error where memory was refused.
    fn work(&self, text: &str) -> Result<Self::Out, AllocError>
        ensures { IfOk result (λ out. is_product_of out text.now) };
}

/// What was made of a text, with the text and its path and stamp. The product stands for the value of the text: a piece
/// can be made no other way than by a [`Work`].
pub struct Piece<W: Work> {
    path: String,
    stamp: u64,
    text: SharedText,
    out: W::Out,
    ghost true_to_text: { ∥ W.is_product_of out text ∥₁ },
}

impl<W: Work> Drop for Piece<W> {
    fn drop(self) {
        let Piece {
            path: _,
            stamp: _,
            text: _,
            out: _,
        } = self;
    }
}

impl<W: Work> Model for Piece<W> {
    ghost use Rattle.std.specs.Prelude.{string_bytes};
    ghost use Rattle.piece_collector.specs.Views.{TextAt};

    ghost Value = { TextAt };

    ghost view = { λ p. record { path = string_bytes p.path; stamp = p.stamp; text = p.text } };
}

impl<W: Work> Piece<W> {
    /// Works on the job's text. Gives a piece with the job's path, stamp and text, or the job back where the work found
    /// no memory.
    pub fn make(work: &W, job: Job) -> Result<Piece<W>, Job>
        ensures ok { IfOk result (λ piece. piece ≡ job) }
        ensures err { IfErr result (λ back. back ≡ job) }
    {
        match work.work(job.text()) {
            Ok(out) => {
                let (path, stamp, text) = job.into_parts();
                Ok(Piece {
                    path,
                    stamp,
                    text,
                    out,
                })
            }
            Err(_) => Err(job),
        }
    }

    /// The path of its text.
    pub fn path(&self) -> &str
        ensures { result.now ≡ self.now.path }
    {
        self.path.as_str()
    }

    /// The stamp that its text had.
    pub fn stamp(&self) -> u64
        ensures { result ≡ self.now.stamp }
    {
        self.stamp
    }

    /// The text that it was made of.
    pub fn text(&self) -> &str
        ensures { result.now ≡ self.now.text }
    {
        self.text.as_str()
    }

    /// The text for another owner, as by [`SharedText::another`].
    pub fn shared_text(&self) -> Result<SharedText, AllocError>
        ensures { IfOk result (λ text. text ≡ self.now.text) }
    {
        self.text.another()
    }

    /// The product, which stands for the value of the piece's text.
    pub fn out(&self) -> &W::Out
        ensures { ∥ W.is_product_of result.now self.now.text ∥₁ }
    {
        &self.out
    }
}
