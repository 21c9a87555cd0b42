// The full names for which a file asks.
ghost use Rattle.std.specs.Prelude.{◌≡◌, ℕ, ◌==◌, ◌||◌, List, true, false, map, IfOk, OnOk};
ghost use Rattle.std.specs.List.{flat_map, list_any};
ghost use Rattle.proto_resolve.specs.Sites.{names_in, names_of, names_of_file, site};
ghost use Rattle.proto_resolve.specs.declared.site.Needs.{Needs};
ghost use Rattle.work_links.specs.Asked.{asked_by, asks_any, has_all, may_ask, names_asked};
ghost use Rattle.work_links.specs.Touched.{is_touched};

use crate::keys::{NameKeys, full_key, last_key};
use crate::touched::Touched;
use proto_decls::{Decl, FileFacts, text_at};
use proto_tree::{FileTree, Node, TypeName};
use std::alloc::{AllocError, Global};

/// The full names for which a file asks, by hashes: those that its names can mean, and those that it declares.
#[derive(Drop)]
pub struct Asked {
    // The keys of the last components of those that its names can mean. When all are added, each stands once, ascending.
    uses: Vec<u32>,
    // The keys of those that it declares, in no order.
    declares: Vec<u32>,
    // Whether it may ask for any name. What `of` makes of a parsed tree never does: each name there has a component.
    all: bool,
}

impl Asked {
    /// For which full names a file asks, given its text, its facts and its tree. An `Err` comes only where memory was refused.
    pub fn of(
        alloc: Global,
        text: &str,
        facts: &FileFacts,
        tree: &FileTree,
    ) -> Result<Asked, AllocError>
        ensures { IfOk result (λ asked. has_all asked (names_asked (names_of_file text.now facts.now tree.now.nodes) facts.now.decls) ≡ true) }
    {
        let mut asked = Asked {
            uses: Vec::new(alloc),
            declares: Vec::with_capacity(alloc, facts.decls.as_slice().len())?,
            all: false,
        };
        asked.add_nodes(text, tree.nodes.as_slice())?;
        asked.add_decls(facts.decls.as_slice())?;
        asked.uses.sort_unstable();
        asked.uses.dedup();
        // They are kept for long, so the list is copied to memory of its size.
        Ok(Asked {
            uses: Vec::from_slice(alloc, asked.uses.as_slice())?,
            ..asked
        })
    }

    /// Asks for every full name: for a file of which it doesn't matter for which names it asks. It takes no memory.
    pub fn any(alloc: Global) -> Asked
        ensures { (names : List (List ℕ)) → has_all result names ≡ true }
    {
        Asked {
            uses: Vec::new(alloc),
            declares: Vec::new(alloc),
            all: true,
        }
    }

    // Adds what the names of statements, and of all inside them, may ask for.
    #[cycle(asked)]
    fn add_nodes(&mut self, text: &str, nodes: &[Node]) -> Result<(), AllocError>
        ensures all { (scopes : List (List ℕ)) → OnOk result (has_all self.new (flat_map asked_by (names_in text.now nodes.now scopes)) ≡ true) }
        ensures kept { (name : List ℕ) → may_ask self.old name ≡ true → OnOk result (may_ask self.new name ≡ true) }
    {
        'nodes: for node in nodes {
            self.add_node(text, node)?;
        }
        Ok(())
    }

    #[cycle(asked)]
    fn add_node(&mut self, text: &str, node: &Node) -> Result<(), AllocError>
        ensures all { (scopes : List (List ℕ)) → OnOk result (has_all self.new (flat_map asked_by (names_of text.now node.now scopes)) ≡ true) }
        ensures kept { (name : List ℕ) → may_ask self.old name ≡ true → OnOk result (may_ask self.new name ≡ true) }
    {
        match node {
            Node::Message { items, .. } => self.add_nodes(text, items.get().as_slice()),
            Node::Service { items, .. } => self.add_nodes(text, items.get().as_slice()),
            Node::Oneof { items, .. } => self.add_nodes(text, items.get().as_slice()),
            Node::Extend { target, items, .. } => {
                self.add_type(text, target.get())?;
                self.add_nodes(text, items.get().as_slice())
            }
            Node::Rpc {
                request,
                response,
                ..
            } => {
                self.add_type(text, request.get())?;
                self.add_type(text, response.get())
            }
            Node::Field(field) => self.add_type(text, &field.get().type_name),
            Node::MapField(field) => self.add_type(text, &field.get().value),
            _ => Ok(()),
        }
    }

    // Adds what a type's name may ask for, in any scopes. A scalar type's asks for nothing, so its key is one too many.
    fn add_type(&mut self, text: &str, name: &TypeName) -> Result<(), AllocError>
        ensures all { (needs : Needs) (scopes : List (List ℕ)) → OnOk result (has_all self.new (asked_by (site text.now needs name.now scopes)) ≡ true) }
        ensures kept { (name : List ℕ) → may_ask self.old name ≡ true → OnOk result (may_ask self.new name ≡ true) }
    {
        let components = name.components.as_slice();
        self.all = self.all || components.is_empty();
        'components: for &component in components {
            self.uses
                .push(last_key(text_at(text, component).as_bytes()))?;
        }
        Ok(())
    }

    // Adds the full names of declarations.
    fn add_decls(&mut self, decls: &[Decl]) -> Result<(), AllocError>
        ensures all { OnOk result (has_all self.new (map (λ d. d.full_name) decls.now) ≡ true) }
        ensures kept { (name : List ℕ) → may_ask self.old name ≡ true → OnOk result (may_ask self.new name ≡ true) }
    {
        'decls: for decl in decls {
            self.declares.push(full_key(&decl.full_name))?;
        }
        Ok(())
    }

    /// Whether the file may ask for a touched name, as far as hashes tell. If it doesn't, it asks for none.
    pub fn asks_for(&self, touched: &Touched) -> bool
        ensures value { result ≡ asks_any self.now touched.now.names.items }
        ensures untouched { result ≡ false → (name : List ℕ) → may_ask self.now name ≡ true → is_touched touched.now name ≡ false }
    {
        self.all || self.has_one_of(touched.names.as_slice())
    }

    // Whether the file may ask for one of the names with these keys, if it doesn't ask for all.
    fn has_one_of(&self, names: &[NameKeys]) -> bool
        ensures { result ≡ list_any (λ name. list_any (λ k. k == name.last) self.now.uses.items || list_any (λ k. k == name.whole) self.now.declares.items) names.now }
    {
        names.iter().any(|name| self.may_ask(*name))
    }

    // Whether the file may ask for a name with these keys, if it doesn't ask for all.
    fn may_ask(&self, name: NameKeys) -> bool
        ensures { result ≡ (list_any (λ k. k == name.last) self.now.uses.items || list_any (λ k. k == name.whole) self.now.declares.items) }
    {
        self.uses.contains(&name.last) || self.declares.contains(&name.whole)
    }
}
