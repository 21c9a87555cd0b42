// What the names of a file mean, for several analyses.
ghost use Rattle.std.specs.Prelude.{◌≡◌, IfOk, OnOk};
ghost use Rattle.work_links.specs.Laws.{decl_moved};
ghost use Rattle.work_links.specs.Touched.{decl_after, links_after};

use import_graph::FileNo;
use proto_resolve::Links;
use std::alloc::{AllocError, AllocFailed, Global};
use std::marker::Model;
use std::sync::Arc;
use work_links::{Renumbering, move_files, renumber};

/// The links of a file, shared by all that were made of one another, until one of them changes. Contracts see them as the links.
pub struct SharedLinks {
    shared: Arc<Links>,
}

// (Written out: a derived one would be proved again, with those of all parts, in each crate that drops such a value.)
impl Drop for SharedLinks {
    fn drop(self) {
        let SharedLinks { shared: _ } = self;
    }
}

impl Model for SharedLinks {
    ghost use Rattle.proto_resolve.specs.declared.resolve.Links.{Links};

    ghost Value = { Links };

    ghost view = { λ l. l.shared.value };
}

impl SharedLinks {
    /// Links that nothing shares yet. An `Err` comes only where memory was refused, here and below.
    pub fn of(alloc: Global, links: Links) -> Result<SharedLinks, AllocError>
        ensures { IfOk result (λ l. l ≡ links) }
    {
        match Arc::new(alloc, links) {
            Ok(shared) => Ok(SharedLinks { shared }),
            Err(AllocFailed { .. }) => Err(AllocError),
        }
    }

    /// The same links once more, shared. Takes no memory.
    pub fn another(&self) -> Result<SharedLinks, AllocError>
        ensures { IfOk result (λ l. l ≡ self.now) }
    {
        Ok(SharedLinks {
            shared: Arc::try_clone(&self.shared)?,
        })
    }

    /// The links.
    pub fn get(&self) -> &Links
        ensures { result.now ≡ self.now }
    {
        &self.shared
    }

    /// Gives the declarations the numbers that they have after a change of their file. Who else shares the links keeps them as they were.
    pub fn renumber(&mut self, alloc: Global, by: &Renumbering) -> Result<(), AllocError>
        ensures { OnOk result (self.new ≡ links_after (decl_after by.now) self.old) }
    {
        if let Some(links) = Arc::get_mut(&mut self.shared) {
            renumber(by, links);
            return Ok(());
        }
        let mut own = self.get().copy(alloc)?;
        renumber(by, &mut own);
        *self = SharedLinks::of(alloc, own)?;
        Ok(())
    }

    /// Gives the files of the declarations the numbers that they have after files came or left. Who else shares the links keeps them as they were.
    pub fn move_files(&mut self, alloc: Global, to: &[Option<FileNo>]) -> Result<(), AllocError>
        ensures { OnOk result (self.new ≡ links_after (decl_moved to.now) self.old) }
    {
        if let Some(links) = Arc::get_mut(&mut self.shared) {
            move_files(to, links);
            return Ok(());
        }
        let mut own = self.get().copy(alloc)?;
        move_files(to, &mut own);
        *self = SharedLinks::of(alloc, own)?;
        Ok(())
    }
}
