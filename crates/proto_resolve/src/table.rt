// An index that holds its files.
ghost use Rattle.std.specs.Prelude.{◌≡◌, ◌<◌, ◌≤◌, ◌↔◌, ℕ, Err, None, bytes_eq, length, position, IfOk, IsFalse, MatchOption};
ghost use Rattle.proto_decls.specs.declared.named_facts.NamedFacts.{NamedFacts};
ghost use Rattle.std.specs.List.{insert};
ghost use Rattle.import_graph.specs.Arrivals.{NobodyImports};
ghost use Rattle.import_graph.specs.Imports.{graph_of};
ghost use Rattle.import_graph.specs.Paths.{IsInPathOrder};
ghost use Rattle.proto_resolve.specs.Bases.{IsBaseOf};
ghost use Rattle.proto_resolve.specs.declared.fault.TableFault.TheVariants.{ThreadRefused};
ghost use Rattle.proto_names.specs.Files.{all_decls, facts_at};
ghost use Rattle.proto_resolve.specs.Outlines.{import_outline};
ghost use Rattle.proto_resolve.specs.TableChanges.{changed, IsPossible, KeepsImports};
ghost use Rattle.proto_names.specs.Outlines.{with_facts, exports};

use crate::by_threads::names_and_base;
use crate::fault::TableFault;
use crate::index::Index;
use crate::outline::same_imports;
use crate::table_base::TableBase;
use crate::table_change::TableChange;
use import_graph::{FileNo, Graph, NamedFacts, SharedFacts, number_of, place_for};
use proto_decls::{FileFacts, FullName, NameParts};
use proto_names::{
    DeclRef, NameEntries, NameTable, PackagedFile, all_decls, have_one_name, insert_decls,
    of_package, replace_decls, same_exports,
};
use std::alloc::{AllocError, Global};
use std::marker::Model;
use std::sync::Wait;
use std::thread::Threads;

/// Files with their graph, the declarations of each name, all of them in one list, and the files of each package. Contracts see it as the list
/// of the files.
#[derive(Drop)]
pub struct Table {
    names: NameTable,
    base: TableBase,
    // All declarations, by path, then offset.
    decls: Vec<DeclRef>,
}

impl Model for Table {
    ghost use Rattle.std.specs.Prelude.{◌≡◌, List};
    ghost use Rattle.proto_decls.specs.declared.named_facts.NamedFacts.{NamedFacts};
    ghost use Rattle.proto_names.specs.Files.{all_decls};
    ghost use Rattle.proto_resolve.specs.Bases.{IsBaseOf};

    ghost Value = { List NamedFacts };

    ghost view = { λ t. t.names };

    ghost invariant = { λ t. IsBaseOf t.names t.base × (t.decls.items ≡ all_decls t.names) };
}

// The names of the files with other facts of one. They stay in their order where that file declares what it did.
fn names_with(
    alloc: Global,
    names: NameTable,
    file: usize,
    facts: SharedFacts,
) -> Result<NameTable, AllocError>
    requires { file < length names }
    ensures { IfOk result (λ t. t ≡ with_facts names file facts) }
{
    if same_exports(facts.get(), names.files()[file].facts.get()) {
        let mut names = names;
        names.set_facts(file, facts);
        return Ok(names);
    }
    names.replace(alloc, file, facts)
}

impl Table {
    /// The table of these files, which are in the order of their paths. An `Err` comes only where memory was refused.
    pub fn of(alloc: Global, files: Vec<NamedFacts>) -> Result<Table, AllocError>
        requires { IsInPathOrder files.items }
        ensures { IfOk result (λ t. t ≡ files.items) }
    {
        let entries = NameEntries::of(alloc, files)?;
        let names = NameTable::of(alloc, entries)?;
        Table::of_names(alloc, names)
    }

    /// The table of the files of these entries, which are in the order of their paths, made by this thread and, of 64 files or more, two
    /// others. `Memory` if memory was refused, here or in a thread, and `ThreadRefused` if a thread couldn't be started. The entries are gone then.
    pub fn of_entries<R: Threads + Wait>(
        rt: &R,
        alloc: Global,
        entries: NameEntries,
    ) -> Result<Table, TableFault>
        requires { IsInPathOrder entries }
        ensures table { IfOk result (λ t. t ≡ entries) }
        ensures threads { result ≡ Err ThreadRefused → 64 ≤ length entries }
    {
        let (names, base) = names_and_base(rt, alloc, entries)?;
        Ok(Table::of_parts(alloc, names, base)?)
    }

    /// The same table, in memory of its own but for the facts of the files, which it shares. The names are copied as they are; the graph and the
    /// packages are made anew. An `Err` comes only where memory was refused.
    pub fn copy(&self, alloc: Global) -> Result<Table, AllocError>
        ensures { IfOk result (λ t. t ≡ self.now) }
    {
        let names = self.names.copy(alloc)?;
        Table::of_names(alloc, names)
    }

    // The table of the files whose declarations by name and whose base these are.
    fn of_parts(alloc: Global, names: NameTable, base: TableBase) -> Result<Table, AllocError>
        requires { IsBaseOf names base }
        ensures { IfOk result (λ t. t ≡ names) }
    {
        let decls = all_decls(alloc, names.files())?;
        Ok(Table { names, base, decls })
    }

    // The table of the files whose declarations by name these are. What else it knows of them is made anew.
    fn of_names(alloc: Global, names: NameTable) -> Result<Table, AllocError>
        requires { IsInPathOrder names }
        ensures { IfOk result (λ t. t ≡ names) }
    {
        let base = TableBase::of(alloc, names.files())?;
        Table::of_parts(alloc, names, base)
    }

    /// Puts other facts of a file, given by its number from 0, in the place of its facts, which say the same to the other files and of imports.
    /// Takes no memory.
    pub fn set_facts(&mut self, file: usize, facts: SharedFacts)
        requires within { file < length self.old }
        requires imports { import_outline facts ≡ import_outline (facts_at self.old file) }
        requires exports { exports facts ≡ exports (facts_at self.old file) }
        ensures { self.new ≡ with_facts self.old file facts }
    {
        self.names.set_facts(file, facts);
    }

    // The table with other facts of a file, and the graph before, unless they say the same of imports.
    fn with_facts(
        self,
        alloc: Global,
        file: usize,
        facts: SharedFacts,
    ) -> Result<(Table, Option<Graph>), AllocError>
        requires { file < length self }
        ensures table { IfOk result (λ r. r.0 ≡ with_facts self file facts) }
        ensures graph { IfOk result (λ r. MatchOption r.1 (import_outline facts ≡ import_outline (facts_at self file)) (λ before. before ≡ graph_of self)) }
    {
        let Table {
            names,
            base,
            mut decls,
        } = self;
        let old = names.files()[file].facts.get();
        let keeps_imports = same_imports(facts.get(), old);
        let keeps_package = have_one_name(&facts.get().package, &old.package);
        let names = names_with(alloc, names, file, facts)?;
        if !keeps_imports {
            return Ok((Table::of_names(alloc, names)?, Some(base.graph)));
        }
        let base = base.changed(alloc, names.files(), file, keeps_package)?;
        replace_decls(alloc, names.files(), file, &mut decls)?;
        Ok((Table { names, base, decls }, None))
    }

    // The table with one more file, which gets the number `at`, and the graph before, unless none of the others imports it.
    fn with_file(
        self,
        alloc: Global,
        at: usize,
        file: NamedFacts,
    ) -> Result<(Table, Option<Graph>), AllocError>
        requires within { at ≤ length self }
        requires ordered { IsInPathOrder (insert self at file) }
        ensures table { IfOk result (λ r. r.0 ≡ insert self at file) }
        ensures graph { IfOk result (λ r. MatchOption r.1 (NobodyImports self file.path) (λ before. before ≡ graph_of self)) }
    {
        let is_imported = self.is_imported(file.path.as_str());
        let Table {
            names,
            base,
            mut decls,
        } = self;
        let names = names.with_file(alloc, at, file)?;
        if is_imported {
            return Ok((Table::of_names(alloc, names)?, Some(base.graph)));
        }
        let base = base.with_file(alloc, names.files(), at)?;
        insert_decls(alloc, names.files(), at, &mut decls)?;
        Ok((Table { names, base, decls }, None))
    }

    /// The table after a change; and the graph of the files before if imports may lead elsewhere, as always where a file leaves. If not, the table
    /// has that graph still, with the numbers that files have now. Of the names only those of the file that changes, comes or leaves are put in
    /// order or taken out, and none where it declares what it did. All else is made anew only where imports may lead elsewhere. An `Err` comes
    /// only where memory was refused; the table is gone then.
    pub fn update(
        self,
        alloc: Global,
        change: TableChange,
    ) -> Result<(Table, Option<Graph>), AllocError>
        requires { IsPossible self change }
        ensures table { IfOk result (λ r. r.0 ≡ changed self change) }
        ensures graph { IfOk result (λ r. MatchOption r.1 (KeepsImports self change) (λ before. before ≡ graph_of self)) }
    {
        match change {
            TableChange::Facts(file, facts) => self.with_facts(alloc, file, facts),
            TableChange::Added(at, file) => self.with_file(alloc, at, file),
            TableChange::Removed(at) => {
                let Table { names, base, .. } = self;
                let names = names.without_file(alloc, at)?;
                Ok((Table::of_names(alloc, names)?, Some(base.graph)))
            }
        }
    }

    /// The number, from 0, of the file with a path; `None` where there is none. Found by halving; takes no memory.
    pub fn number_of(&self, path: &str) -> Option<FileNo>
        ensures { result ≡ position (λ file. bytes_eq file.path path.now) self.now }
    {
        number_of(self.names.files(), path)
    }

    /// The number, from 0, that a file with this path gets if it joins the files, none of which has the path. Found by halving; takes no
    /// memory.
    pub fn place_for(&self, path: &str) -> FileNo
        ensures { (at : ℕ) (file : NamedFacts) → file.path ≡ path.now → at ≤ length self.now → IsInPathOrder (insert self.now at file) → result ≡ at }
    {
        place_for(self.names.files(), path)
    }

    /// Whether an import of one of the files has a path that none of them has. It looks only at files that import a missing or an opaque one,
    /// and takes no memory.
    pub fn is_imported(&self, path: &str) -> bool
        requires { position (λ file. bytes_eq file.path path.now) self.now ≡ None }
        ensures { IsFalse result ↔ NobodyImports self.now path.now }
    {
        self.base.graph.is_imported(self.names.files(), path)
    }

    /// The graph of the files alone; the rest of the table is gone then.
    pub fn into_graph(self) -> Graph
        ensures { result ≡ graph_of self }
    {
        let Table { base, .. } = self;
        base.graph
    }

    /// All declarations, by path, then offset.
    pub fn decls(&self) -> &[DeclRef]
        ensures { result.now ≡ all_decls self.now }
    {
        self.decls.as_slice()
    }

    /// How many files there are.
    pub fn len(&self) -> usize
        ensures { result ≡ length self.now }
    {
        self.names.files().len()
    }
}

impl Index for Table {
    ghost files = { λ t. t };

    fn graph(&self) -> &Graph {
        &self.base.graph
    }

    fn facts(&self, file: usize) -> &FileFacts {
        self.names.files()[file].facts.get()
    }

    fn named(&self, full_name: &str) -> &[DeclRef] {
        self.names.decls_named(full_name)
    }

    fn declared_as(&self, full_name: &FullName) -> &[DeclRef] {
        self.names.decls_of(full_name)
    }

    fn packaged(&self, full_name: NameParts<'_>) -> &[PackagedFile] {
        of_package(self.base.packaged.as_slice(), self.base.longest, full_name)
    }

    fn last_held(&self, scope: &str, lengths: &[usize], name: &str) -> Option<usize> {
        self.names.last_held(scope, lengths, name)
    }
}
