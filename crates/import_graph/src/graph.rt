// The graph of imports.

ghost use Rattle.std.specs.Prelude.{◌≡◌, ◌<◌, ◌↔◌, ℕ, List, None, length, position, bytes_eq, IfOk, IfSome, IsFalse, IsTrue, Contains, All};
ghost use Rattle.std.specs.List.Sorted.{IsStrictlyIncreasing};
ghost use Rattle.import_graph.specs.Arrivals.{HasArrived, NobodyImports};
ghost use Rattle.import_graph.specs.Paths.{IsInPathOrder};

use crate::arrivals::have_path;
use crate::coming::{components_with, flags_with, imports_with, rows_with};
use crate::components::{Components, components_of};
use crate::condensed::condensed_steps;
use crate::file_search::reached;
use crate::imports::{FileImports, completeness, imports_of, is_analysed};
use crate::paths::FileNo;
use crate::seen_by::{importing, leading_to};
use crate::shared::{SharedLists, shared_lists};
use proto_decls::NamedFacts;
use sqlite_items::Items;
use std::alloc::{AllocError, Global};
use std::marker::Model;

/// The imports of the files of a workspace, which contracts see as the list of the files' edges.
///
/// Files and imports are numbers from 0: a file is its place in the list that the graph is made of, an import its place
/// among the imports of its file. The graph keeps the allocator that it is made with, and takes the memory of its answers
/// from there. An `Err` comes only where memory was refused; a graph that was only borrowed is unchanged then.
#[derive(Drop)]
pub struct Graph {
    alloc: Global,
    files: Vec<FileImports>,
    imports: Vec<Items<FileNo>>,
    // Steps that lead from each file to those that public imports lead to, and no others.
    steps: Vec<Items<FileNo>>,
    // For each file whether all that it imports is there and not opaque.
    complete: Vec<bool>,
    components: Components,
    // What some of the files see.
    shared: SharedLists,
}

impl Model for Graph {
    ghost use Rattle.std.specs.Prelude.{List};
    ghost use Rattle.import_graph.specs.declared.imports.FileImports.{FileImports};
    ghost use Rattle.import_graph.specs.Kept.{IsGraph};

    ghost Value = { List FileImports };

    ghost view = { λ g. g.files.items };

    ghost invariant = { λ g. IsGraph g.files.items g.imports.items g.steps.items g.complete.items g.components g.shared };
}

impl Graph {
    ghost use Rattle.import_graph.specs.Imports.{graph_of, edges_at, target_at, is_analysed};
    ghost use Rattle.std.specs.List.{list_all};
    ghost use Rattle.import_graph.specs.Closures.{view_of, seers_of, reaches, closes_cycle, is_complete, is_closed, incomplete_files, open_views};
    ghost use Rattle.import_graph.specs.Views.{Imports, Sees, SeesOne, Reaches, ClosesCycle, IsClosed};

    /// The graph of files, which are given in the order of their paths' bytes, no path twice. Each file's number is its
    /// place in the list, from 0. `Err` where memory was refused.
    pub fn of(alloc: Global, files: &[NamedFacts]) -> Result<Graph, AllocError>
        requires { IsInPathOrder files.now }
        ensures { IfOk result (λ g. g ≡ graph_of files.now) }
    {
        let mut file_imports = Vec::new(alloc);
        let mut imports = Vec::new(alloc);
        let mut public = Vec::new(alloc);
        for file in files {
            let imported = imports_of(alloc, files, file.facts.get())?;
            imports.push(imported.targets(alloc)?)?;
            public.push(imported.public_targets(alloc)?)?;
            file_imports.push(imported)?;
        }
        let complete = completeness(alloc, file_imports.as_slice())?;
        let steps = condensed_steps(alloc, public.as_slice())?;
        let components = components_of(alloc, imports.as_slice())?;
        let shared = shared_lists(alloc, steps.as_slice(), imports.as_slice())?;
        Ok(Graph {
            alloc,
            files: file_imports,
            imports,
            steps,
            complete,
            components,
            shared,
        })
    }

    /// The graph of files of which the one with the number `at` came to the others of this graph, and none of those imports it. Of the
    /// others only the numbers change. An `Err` comes only where memory was refused; the graph is gone then.
    pub fn with_file(self, files: &[NamedFacts], at: FileNo) -> Result<Graph, AllocError>
        requires ordered { IsInPathOrder files.now }
        requires arrived { HasArrived files.now at self }
        ensures { IfOk result (λ g. g ≡ graph_of files.now) }
    {
        let Graph {
            alloc,
            files: others,
            imports,
            steps,
            complete,
            components,
            shared,
        } = self;
        let graph = imports_with(alloc, files, at, others)?;
        let own = graph[at].targets(alloc)?;
        let public = graph[at].public_targets(alloc)?;
        let complete = flags_with(graph.as_slice(), at, complete)?;
        let components = components_with(at, own.as_slice(), components)?;
        Ok(Graph {
            alloc,
            files: graph,
            imports: rows_with(at, own, imports)?,
            steps: rows_with(at, public, steps)?,
            complete,
            components,
            shared: shared.with_file(at)?,
        })
    }

    /// Whether an import of one of the files, of which this is the graph, has the path, which is that of none of them. Looks only at the
    /// imports of files that import something that isn't there or is opaque. Takes no memory.
    pub fn is_imported(&self, files: &[NamedFacts], path: &str) -> bool
        requires graph { self.now ≡ graph_of files.now }
        requires new { position (λ file. bytes_eq file.path path.now) files.now ≡ None }
        ensures { IsFalse result ↔ NobodyImports files.now path.now }
    {
        for file in 0..files.len() {
            if !self.is_complete(file)
                && have_path(files[file].facts.get().imports.as_slice(), path)
            {
                return true;
            }
        }
        false
    }

    /// The number of the file that an import names: `None` where there is no such file. The import is given by its place,
    /// from 0, among the imports of its file. Takes no memory.
    pub fn import_of(&self, file: FileNo, import: usize) -> Option<FileNo>
        requires file { file < length self.now }
        requires import { import < length (edges_at self.now file) }
        ensures value { result ≡ target_at self.now file import }
        ensures within { IfSome result (λ g. g < length self.now) }
    {
        self.files[file].edges.as_slice()[import].target
    }

    /// Whether an import names a file that is not opaque. The import is given by its place, from 0, among the imports of its file. Takes no
    /// memory.
    pub fn names_analysed(&self, file: FileNo, import: usize) -> bool
        requires file { file < length self.now }
        requires import { import < length (edges_at self.now file) }
        ensures { result ≡ is_analysed self.now (target_at self.now file import) }
    {
        is_analysed(self.files.as_slice(), self.import_of(file, import))
    }

    // How many imports a file has.
    pub(crate) fn import_count(&self, file: FileNo) -> usize
        requires { file < length self.now }
        ensures { result ≡ length (edges_at self.now file) }
    {
        self.files[file].edges.as_slice().len()
    }

    /// The numbers of the files that a file sees, ascending, each once: itself, its imports, and what public imports lead
    /// to from there. `Err` where memory was refused.
    pub fn visible(&self, file: FileNo) -> Result<Vec<FileNo>, AllocError>
        requires { file < length self.now }
        ensures view { IfOk result (λ v. v.items ≡ view_of self.now file) }
        ensures ascending { IfOk result (λ v. IsStrictlyIncreasing v.items) }
        ensures within { IfOk result (λ v. All (λ g. g < length self.now) v.items) }
        ensures exact { IfOk result (λ v. (g : ℕ) → Contains v.items g ↔ Sees self.now file g) }
    {
        let _ = &self.files;
        let view = self.seen(file)?;
        Ok(view)
    }

    // The files that a file sees, as `visible` gives them: from the list that it shares, if there is one, or by a search.
    fn seen(&self, file: FileNo) -> Result<Vec<FileNo>, AllocError>
        requires { file < length self.now }
        ensures ascending { IfOk result (λ v. IsStrictlyIncreasing v.items) }
        ensures within { IfOk result (λ v. All (λ g. g < length self.now) v.items) }
        ensures exact { IfOk result (λ v. (g : ℕ) → Contains v.items g ↔ Sees self.now file g) }
    {
        match self.shared.list_of(file) {
            Some(list) => Vec::from_slice(self.alloc, list),
            None => self.searched(file),
        }
    }

    fn searched(&self, file: FileNo) -> Result<Vec<FileNo>, AllocError>
        requires { file < length self.now }
        ensures ascending { IfOk result (λ v. IsStrictlyIncreasing v.items) }
        ensures within { IfOk result (λ v. All (λ g. g < length self.now) v.items) }
        ensures exact { IfOk result (λ v. (g : ℕ) → Contains v.items g ↔ Sees self.now file g) }
    {
        let mut search = reached(
            self.alloc,
            self.steps.as_slice(),
            self.imports[file].as_slice(),
        )?;
        search.visit(file)?;
        search.into_ascending()
    }

    /// The numbers of the files that see a file, ascending, each once: itself, those that import it, and those of which an
    /// import leads to it by public imports. `Err` where memory was refused.
    pub fn seen_by(&self, file: FileNo) -> Result<Vec<FileNo>, AllocError>
        requires { file < length self.now }
        ensures seers { IfOk result (λ v. v.items ≡ seers_of self.now file) }
        ensures ascending { IfOk result (λ v. IsStrictlyIncreasing v.items) }
        ensures within { IfOk result (λ v. All (λ g. g < length self.now) v.items) }
        ensures exact { IfOk result (λ v. (g : ℕ) → Contains v.items g ↔ Sees self.now g file) }
    {
        let _ = &self.files;
        let seers = self.seers(&[file])?;
        Ok(seers)
    }

    // The files that see one of these, ascending.
    fn seers(&self, files: &[FileNo]) -> Result<Vec<FileNo>, AllocError>
        requires { All (λ g. g < length self.now) files.now }
        ensures ascending { IfOk result (λ v. IsStrictlyIncreasing v.items) }
        ensures exact { IfOk result (λ v. (g : ℕ) → Contains v.items g ↔ SeesOne self.now files.now g) }
    {
        let steps = self.steps.as_slice();
        let leading = leading_to(self.alloc, steps, files)?;
        let seers = importing(self.alloc, self.imports.as_slice(), &leading)?;
        Ok(seers)
    }

    // The files that aren't complete, ascending.
    fn incomplete(&self) -> Result<Vec<FileNo>, AllocError>
        ensures { IfOk result (λ v. v.items ≡ incomplete_files self.now) }
    {
        let mut found = Vec::new(self.alloc);
        for file in 0..self.files.len() {
            if !self.is_complete(file) {
                found.push(file)?;
            }
        }
        Ok(found)
    }

    /// The numbers of the files whose view isn't closed, ascending, each once. One search finds them, back from all files of which an import
    /// names no file, or an opaque one. `Err` where memory was refused.
    pub fn open_views(&self) -> Result<Vec<FileNo>, AllocError>
        ensures value { IfOk result (λ v. v.items ≡ open_views self.now) }
        ensures within { IfOk result (λ v. All (λ g. g < length self.now) v.items) }
    {
        let _ = &self.files;
        let incomplete = self.incomplete()?;
        if incomplete.is_empty() {
            return Ok(incomplete);
        }
        let seers = self.seers(incomplete.as_slice())?;
        Ok(seers)
    }

    /// Whether an import closes a cycle: imports lead from the file that it names back to the importing one, or it names
    /// that one itself. False where it names no file. The import is given by its place, from 0, among the imports of its
    /// file. `Err` where memory was refused.
    pub fn closes_cycle(&self, file: FileNo, import: usize) -> Result<bool, AllocError>
        requires file { file < length self.now }
        requires import { import < length (edges_at self.now file) }
        ensures value { IfOk result (λ closes. closes ≡ closes_cycle self.now file (target_at self.now file import)) }
        ensures exact { IfOk result (λ closes. IsTrue closes ↔ ClosesCycle self.now file (target_at self.now file import)) }
    {
        match self.import_of(file, import) {
            Some(target) => self.leads_back(file, target),
            None => Ok(false),
        }
    }

    // Whether imports lead back to a file from one that it imports.
    fn leads_back(&self, file: FileNo, target: FileNo) -> Result<bool, AllocError>
        requires file { file < length self.now }
        requires target { target < length self.now }
        requires imported { Imports self.now file target }
        ensures value { IfOk result (λ leads. leads ≡ reaches self.now target file) }
        ensures exact { IfOk result (λ leads. IsTrue leads ↔ Reaches self.now target file) }
    {
        if self.components.numbers[target] != self.components.numbers[file] {
            return Ok(false);
        }
        if self.components.tied[target] && self.components.tied[file] {
            return Ok(true);
        }
        // The tour that gave the numbers is meant to leave no such case; a search tells.
        self.reaches(target, file)
    }

    fn reaches(&self, from: FileNo, to: FileNo) -> Result<bool, AllocError>
        requires from { from < length self.now }
        requires to { to < length self.now }
        ensures value { IfOk result (λ found. found ≡ reaches self.now from to) }
        ensures exact { IfOk result (λ found. IsTrue found ↔ Reaches self.now from to) }
    {
        let search = reached(self.alloc, self.imports.as_slice(), &[from])?;
        Ok(search.has_seen(to))
    }

    /// Whether a file's view is closed: every import of every file that it sees names a file that is not opaque. `Err`
    /// where memory was refused.
    pub fn is_closed(&self, file: FileNo) -> Result<bool, AllocError>
        requires { file < length self.now }
        ensures value { IfOk result (λ closed. closed ≡ is_closed self.now file) }
        ensures exact { IfOk result (λ closed. IsTrue closed ↔ IsClosed self.now file) }
    {
        let seen = self.visible(file)?;
        Ok(self.are_complete(seen.as_slice()))
    }

    /// Whether every import of every one of the files names a file that is not opaque. Of the files that a file sees
    /// this is whether its view is closed. Takes no memory.
    pub fn are_complete(&self, files: &[FileNo]) -> bool
        requires { All (λ g. g < length self.now) files.now }
        ensures { result ≡ list_all (is_complete self.now) files.now }
    {
        for &file in files {
            if !self.is_complete(file) {
                return false;
            }
        }
        true
    }

    fn is_complete(&self, file: FileNo) -> bool
        requires { file < length self.now }
        ensures { result ≡ is_complete self.now file }
    {
        self.complete[file]
    }
}
