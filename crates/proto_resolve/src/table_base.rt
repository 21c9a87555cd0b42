// What is known of files beside their declarations by name.
ghost use Rattle.std.specs.Prelude.{IfOk};
ghost use Rattle.import_graph.specs.Paths.{IsInPathOrder};
ghost use Rattle.proto_resolve.specs.Bases.{IsBaseOf, WasBaseOf, WasBaseOfOthers};

use import_graph::{Graph, NamedFacts};
use proto_names::{PackagedFile, add_packaged, longest_of, longest_with, packaged_files};
use std::alloc::{AllocError, Global};

/// What a table knows of its files beside their declarations by name: their graph, and the files of each package.
#[derive(Drop)]
pub struct TableBase {
    pub(crate) graph: Graph,
    // The files that have packages, by these.
    pub(crate) packaged: Vec<PackagedFile>,
    // How long the longest name among those is.
    pub(crate) longest: usize,
}

impl TableBase {
    /// What is known of these files beside their declarations by name. They are in the order of their paths. An `Err` comes only
    /// where memory was refused.
    pub fn of(alloc: Global, files: &[NamedFacts]) -> Result<TableBase, AllocError>
        requires { IsInPathOrder files.now }
        ensures { IfOk result (IsBaseOf files.now) }
    {
        let graph = Graph::of(alloc, files)?;
        let packaged = packaged_files(alloc, files)?;
        let longest = longest_of(packaged.as_slice());
        Ok(TableBase {
            graph,
            packaged,
            longest,
        })
    }

    // What is known of the files now that other facts, which say the same of imports, stand in the place of one's, given by its number
    // from 0. Where the package of that one has the same name, all packages stay. An `Err` comes only where memory was refused; what
    // was known is gone then.
    pub(crate) fn changed(
        self,
        alloc: Global,
        files: &[NamedFacts],
        file: usize,
        same_package: bool,
    ) -> Result<TableBase, AllocError>
        requires { WasBaseOf files.now file same_package self }
        ensures { IfOk result (IsBaseOf files.now) }
    {
        if same_package {
            return Ok(self);
        }
        let mut base = self;
        base.packaged = packaged_files(alloc, files)?;
        base.longest = longest_of(base.packaged.as_slice());
        Ok(base)
    }

    // What is known of the files now that the one of the number `at`, from 0, came to those of which it was known, none of which imports it.
    // In the others only numbers change. An `Err` comes only where memory was refused; what was known is gone then.
    pub(crate) fn with_file(
        self,
        alloc: Global,
        files: &[NamedFacts],
        at: usize,
    ) -> Result<TableBase, AllocError>
        requires ordered { IsInPathOrder files.now }
        requires came { WasBaseOfOthers files.now at self }
        ensures { IfOk result (IsBaseOf files.now) }
    {
        let TableBase {
            graph,
            mut packaged,
            longest,
        } = self;
        let graph = graph.with_file(files, at)?;
        add_packaged(alloc, files, at, &mut packaged)?;
        let longest = longest_with(longest, &files[at].facts.get().package);
        Ok(TableBase {
            graph,
            packaged,
            longest,
        })
    }
}
