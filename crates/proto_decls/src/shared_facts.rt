// The facts of a text, with several owners.
ghost use Rattle.std.specs.Prelude.{◌≡◌, IfOk};

use crate::fact::FileFacts;
use std::alloc::{AllocError, AllocFailed, Global};
use std::marker::Model;
use std::sync::Arc;

/// The facts of a file's text, shared by all that were made of one another, also in several threads: they are freed with the last.
/// Contracts see it as the facts.
#[derive(Drop)]
pub struct SharedFacts {
    shared: Arc<FileFacts>,
}

impl Model for SharedFacts {
    ghost use Rattle.proto_decls.specs.declared.fact.FileFacts.{FileFacts};

    ghost Value = { FileFacts };

    ghost view = { λ f. f.shared.value };
}

impl SharedFacts {
    /// Facts that nothing shares yet. An `Err` comes only where memory was refused.
    pub fn of(alloc: Global, facts: FileFacts) -> Result<SharedFacts, AllocError>
        ensures { IfOk result (λ f. f ≡ facts) }
    {
        match Arc::new(alloc, facts) {
            Ok(shared) => Ok(SharedFacts { shared }),
            Err(AllocFailed { .. }) => Err(AllocError),
        }
    }

    /// The same facts once more, shared. Takes no memory. An `Err` comes only where they are shared 2 to the power of 63 times.
    pub fn another(&self) -> Result<SharedFacts, AllocError>
        ensures { IfOk result (λ f. f ≡ self.now) }
    {
        Ok(SharedFacts {
            shared: Arc::try_clone(&self.shared)?,
        })
    }

    /// The facts. Takes no memory.
    pub fn get(&self) -> &FileFacts
        ensures { result.now ≡ self.now }
    {
        &self.shared
    }
}
