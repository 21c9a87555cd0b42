// Pieces of a line that stand for longer ones.
ghost use Rattle.std.specs.Prelude.{◌≡◌};

use crate::line::Line;
use crate::words::field;
use std::alloc::{AllocError, Global};

/// Pieces that have names.
#[derive(Drop)]
pub struct Names {
    alloc: Global,
    // Of each piece its name, ` :: ` and the piece.
    pieces: Vec<String>,
}

impl Names {
    /// No names.
    pub fn new(alloc: Global) -> Names {
        Names {
            alloc,
            pieces: Vec::new(alloc),
        }
    }

    /// The allocator of the names.
    pub fn alloc(&self) -> Global
        ensures { result ≡ self.now.alloc }
    {
        self.alloc
    }

    // Gives a piece a name, which stands before it, with ` :: ` between them, and answers with the name.
    fn add(&mut self, line: &mut Line, piece: &str) -> Result<(), AllocError> {
        self.pieces.push(String::from_str(self.alloc, piece)?)?;
        line.put("let ");
        line.put(field(piece, 0));
        Ok(())
    }

    /// The call of a line and its fields, written out. None of a remark and an empty line, which are answered by themselves, and of a
    /// piece that gets a name.
    pub fn asked(&mut self, line: &mut Line, given: &str) -> Result<Option<String>, AllocError> {
        if given.is_empty() || given.starts_with('#') {
            line.put(given);
            return Ok(None);
        }
        let whole = self.expanded(given)?;
        if let Some(piece) = whole.as_str().strip_prefix("let ") {
            self.add(line, piece)?;
            return Ok(None);
        }
        Ok(Some(whole))
    }

    // The line with each `⟦name⟧` as the piece of that name, and each `⟦3 piece⟧` as the piece three times.
    fn expanded(&self, line: &str) -> Result<String, AllocError> {
        let mut whole = String::new(self.alloc);
        for part in line.split('⟦') {
            match part.split_once('⟧') {
                None => whole.push_str(part)?,
                Some((inside, rest)) => {
                    self.push_expanded(&mut whole, inside)?;
                    whole.push_str(rest)?;
                }
            }
        }
        Ok(whole)
    }

    fn push_expanded(&self, whole: &mut String, inside: &str) -> Result<(), AllocError> {
        match inside.split_once(' ') {
            None => whole.push_str(self.piece_of(inside)),
            Some((times, piece)) => {
                for _ in 0..times.parse::<u32>().unwrap_or(0) {
                    whole.push_str(piece)?;
                }
                Ok(())
            }
        }
    }

    // The piece of a name: empty where there is none.
    fn piece_of(&self, name: &str) -> &str {
        for piece in &self.pieces {
            if let Some((own, piece)) = piece.as_str().split_once(" :: ") {
                if own == name {
                    return piece;
                }
            }
        }
        ""
    }

    /// The name of a piece, if it has one.
    pub fn name_of(&self, piece: &str) -> Option<&str> {
        for other in &self.pieces {
            if let Some((name, other)) = other.as_str().split_once(" :: ") {
                if other == piece {
                    return Some(name);
                }
            }
        }
        None
    }
}
