// A file of a workspace.
ghost use Rattle.std.specs.Prelude.{◌≡◌, true, IfOk, string_bytes};
ghost use Rattle.work_links.specs.Asked.{has_all};
ghost use Rattle.work_index.specs.Pieces.{source_of};
ghost use Rattle.work_index.specs.Workspace.{asked_of, source_facts};

use crate::file_work::{FileWork, KnownText, known_in, shared_text_in};
use piece_collector::{Piece, SharedText, Work};
use proto_decls::{Name, SharedFacts};
use std::alloc::{AllocError, Global};
use std::marker::Model;
use work_links::Asked;

/// A file of a workspace: its path, its text, whether that is read for what it declares if it isn't proto3, and what is known of it by itself. The
/// text and what is known of it are shared with the piece that was made of the text. Contracts see the path, and the text with the choice.
pub struct SourceFile {
    path: Name,
    text: SharedText,
    reads_others: bool,
    known: KnownText,
}

// (Written out: a derived one would be proved again, with those of all parts, in each crate that drops such a value.)
impl Drop for SourceFile {
    fn drop(self) {
        let SourceFile {
            path: _,
            text: _,
            reads_others: _,
            known: _,
        } = self;
    }
}

impl Model for SourceFile {
    ghost use Rattle.work_index.specs.Products.{IsKnownOf};
    ghost use Rattle.work_index.specs.Workspace.{SourceAt};

    ghost Value = { SourceAt };

    ghost view = { λ f. (f.path, record { text = f.text; reads_others = f.reads_others }) };

    ghost invariant = { λ f. IsKnownOf (record { text = f.text; reads_others = f.reads_others }) f.known };
}

impl SourceFile {
    /// The file of a piece; `reads_others` says whether a text that isn't proto3 is read for what it declares. An `Err` comes only where memory was
    /// refused, here and below.
    pub fn of(
        alloc: Global,
        piece: &Piece<FileWork>,
        reads_others: bool,
    ) -> Result<SourceFile, AllocError>
        ensures { IfOk result (λ file. file ≡ source_of reads_others piece.now) }
    {
        let path = Name::of(String::from_str(alloc, piece.path())?);
        let text = shared_text_in(piece)?;
        let known = known_in(piece, reads_others).another()?;
        Ok(SourceFile {
            path,
            text,
            reads_others,
            known,
        })
    }

    /// The file with another text, which is worked on. It is as if it asked for all names: its links are made anew, whatever else changes.
    pub fn with_text(&self, alloc: Global, text: String) -> Result<SourceFile, AllocError>
        ensures { IfOk result (λ file. file ≡ (self.now.0, record { text = string_bytes text; reads_others = self.now.1.reads_others })) }
    {
        let out = FileWork::linking_once(alloc).work(text.as_str())?;
        let known = out.known(self.reads_others).another()?;
        let path = self.path.copy(alloc)?;
        let text = SharedText::shared(alloc, text)?;
        Ok(SourceFile {
            path,
            text,
            reads_others: self.reads_others,
            known,
        })
    }

    /// The same file once more. What is known of its text is shared.
    pub fn another(&self, alloc: Global) -> Result<SourceFile, AllocError>
        ensures { IfOk result (λ file. file ≡ self.now) }
    {
        let path = self.path.copy(alloc)?;
        let text = self.text.another()?;
        let known = self.known.another()?;
        Ok(SourceFile {
            path,
            text,
            reads_others: self.reads_others,
            known,
        })
    }

    /// Its path.
    pub fn path(&self) -> &str
        ensures { result.now ≡ self.now.0 }
    {
        self.path.as_str()
    }

    /// Its text.
    pub fn text(&self) -> &str
        ensures { result.now ≡ self.now.1.text }
    {
        self.text.as_str()
    }

    /// Whether its text is read for what it declares if it isn't proto3.
    pub fn reads_others(&self) -> bool
        ensures { result ≡ self.now.1.reads_others }
    {
        self.reads_others
    }

    /// What its text says by itself.
    pub fn facts(&self) -> &SharedFacts
        ensures { result.now ≡ source_facts self.now.1 }
    {
        &self.known.facts
    }

    /// For which full names it asks.
    pub fn asked(&self) -> &Asked
        ensures { has_all result.now (asked_of self.now.1) ≡ true }
    {
        &self.known.asked
    }
}
