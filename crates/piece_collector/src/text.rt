// A text that its owners share.
ghost use Rattle.std.specs.Prelude.{◌≡◌, IfOk, string_bytes};

use std::alloc::{AllocError, AllocFailed, Global};
use std::marker::Model;
use std::sync::Arc;

/// Who has a text.
#[derive(Drop)]
enum Owners {
    /// One owner alone.
    One(String),
    /// One owner or several, also in several threads. The text is freed with the last.
    Several(Arc<String>),
}

/// A text that has one owner, or several that share it: it is then in memory once. Contracts see it as its bytes in
/// UTF-8.
#[derive(Drop)]
pub struct SharedText {
    owners: Owners,
}

impl Model for SharedText {
    ghost use Rattle.std.specs.Prelude.{List, ℕ};
    ghost use Rattle.piece_collector.specs.SharedText.{text_of};

    ghost Value = { List ℕ };

    ghost view = { λ t. text_of t.owners };
}

impl SharedText {
    /// A text with one owner, which is copied for another. Takes no memory.
    pub(crate) fn own(text: String) -> SharedText
        ensures { result ≡ string_bytes text }
    {
        SharedText {
            owners: Owners::One(text),
        }
    }

    /// A text that can have several owners. It isn't copied; an `Err` comes only where memory was refused.
    pub fn shared(alloc: Global, text: String) -> Result<SharedText, AllocError>
        ensures { IfOk result (λ shared. shared ≡ string_bytes text) }
    {
        match Arc::new(alloc, text) {
            Ok(text) => Ok(SharedText {
                owners: Owners::Several(text),
            }),
            Err(AllocFailed { .. }) => Err(AllocError),
        }
    }

    /// The same text for another owner. Takes no memory if the text is shared: an `Err` then comes only where it has 2
    /// to the power of 63 owners.
    pub fn another(&self) -> Result<SharedText, AllocError>
        ensures { IfOk result (λ other. other ≡ self.now) }
    {
        match &self.owners {
            Owners::One(text) => Ok(SharedText::own(text.clone()?)),
            Owners::Several(text) => Ok(SharedText {
                owners: Owners::Several(Arc::try_clone(text)?),
            }),
        }
    }

    /// The text. Takes no memory.
    pub fn as_str(&self) -> &str
        ensures { result.now ≡ self.now }
    {
        match &self.owners {
            Owners::One(text) => text.as_str(),
            Owners::Several(text) => text.as_str(),
        }
    }
}
