// The declarations of a tree.

ghost use Rattle.std.specs.Prelude.{◌≡◌, ◌++◌, ◌∷◌, [], length, OnOk, IfOk, None};
ghost use Rattle.proto_decls.specs.Decls as spec;
ghost use Rattle.proto_decls.specs.declared.fact.DeclKind.TheVariants as kinds;

use crate::text::Source;
use proto_decls::{Decl, DeclKind, FullName, ScopeName, text_at};
use proto_tree::{Node, Span};
use sqlite_items::Items;
use std::alloc::AllocError;
use thread_heap::make_room;

// Where a statement stands, and so what it declares there.
#[derive(Clone, Copy)]
pub struct Enclosing<'a> {
    // The text that it stands in.
    pub source: Source<'a>,
    // What a field is declared as there: as a field or as an extension.
    pub members: DeclKind,
    // What full names begin with there; empty at the top of a file without a package.
    pub scope: &'a ScopeName,
    // The number of the declaration whose body it is, if any.
    pub parent: Option<usize>,
}

// What a name declares in a place.
fn declared(kind: DeclKind, name: Span, place: Enclosing<'_>) -> Result<Decl, AllocError>
    ensures { IfOk result (λ d. d ≡ spec.declared place.entry.source.text.now kind name place.entry.scope.now place.entry.parent) }
{
    let Source { alloc, text } = place.source;
    Ok(Decl {
        kind,
        full_name: FullName::in_scope(alloc, place.scope, text_at(text, name))?,
        name_span: name,
        parent: place.parent,
    })
}

// Adds the declarations of statements, and of all inside them.
#[cycle(decls)]
pub fn add_decls(
    nodes: &[Node],
    place: Enclosing<'_>,
    found: &mut Items<Decl>,
) -> Result<(), AllocError>
    ensures { OnOk result (found.new ≡ found.old ++ spec.decls_in place.entry.source.text.now nodes.now place.entry.members place.entry.scope.now place.entry.parent (length found.old)) }
{
    'nodes: for node in nodes {
        add_decl(node, place, found)?;
    }
    Ok(())
}

// Adds a declaration that has no others inside it.
fn add_own(
    kind: DeclKind,
    name: Span,
    place: Enclosing<'_>,
    found: &mut Items<Decl>,
) -> Result<(), AllocError>
    ensures { OnOk result (found.new ≡ found.old ++ spec.declared place.entry.source.text.now kind name place.entry.scope.now place.entry.parent ∷ []) }
{
    make_room(place.source.alloc, found.len())?;
    found.push(declared(kind, name, place)?)
}

// Adds a message or a service, and what is declared inside it: its full name is the scope of that. The text of this scope is
// written only where there is anything inside.
#[cycle(decls)]
fn add_scope(
    kind: DeclKind,
    name: Span,
    items: &[Node],
    place: Enclosing<'_>,
    found: &mut Items<Decl>,
) -> Result<(), AllocError>
    ensures { OnOk result (found.new ≡ found.old ++ spec.scope_decls place.entry.source.text.now kind name items.now place.entry.scope.now place.entry.parent (length found.old)) }
{
    if items.is_empty() {
        return add_own(kind, name, place, found);
    }
    let own = found.len();
    let decl = declared(kind, name, place)?;
    let inner = decl.full_name.to_scope(place.source.alloc)?;
    make_room(place.source.alloc, own)?;
    found.push(decl)?;
    let inside = Enclosing {
        source: place.source,
        members: DeclKind::Field,
        scope: &inner,
        parent: Some(own),
    };
    add_decls(items, inside, found)
}

// Adds an enum or a oneof, and what is declared inside it, whose scope is the same.
#[cycle(decls)]
fn add_block(
    kind: DeclKind,
    name: Span,
    items: &[Node],
    place: Enclosing<'_>,
    found: &mut Items<Decl>,
) -> Result<(), AllocError>
    ensures { OnOk result (found.new ≡ found.old ++ spec.block_decls place.entry.source.text.now kind name items.now place.entry.scope.now place.entry.parent (length found.old)) }
{
    let inside = Enclosing {
        members: DeclKind::Field,
        parent: Some(found.len()),
        ..place
    };
    add_own(kind, name, place, found)?;
    add_decls(items, inside, found)
}

// Adds what is declared in an `extend` block, whose scope and parent are those of the block.
#[cycle(decls)]
fn add_extensions(
    items: &[Node],
    place: Enclosing<'_>,
    found: &mut Items<Decl>,
) -> Result<(), AllocError>
    ensures { OnOk result (found.new ≡ found.old ++ spec.decls_in place.entry.source.text.now items.now kinds.Extension place.entry.scope.now place.entry.parent (length found.old)) }
{
    let inside = Enclosing {
        members: DeclKind::Extension,
        ..place
    };
    add_decls(items, inside, found)
}

// Adds the declarations of a statement, and of all inside it.
#[cycle(decls)]
pub fn add_decl(
    node: &Node,
    place: Enclosing<'_>,
    found: &mut Items<Decl>,
) -> Result<(), AllocError>
    ensures { OnOk result (found.new ≡ found.old ++ spec.decls_of place.entry.source.text.now node.now place.entry.members place.entry.scope.now place.entry.parent (length found.old)) }
{
    match node {
        Node::Message { name, items, .. } => {
            let items = items.get().as_slice();
            add_scope(DeclKind::Message, *name, items, place, found)
        }
        Node::Service { name, items, .. } => {
            let items = items.get().as_slice();
            add_scope(DeclKind::Service, *name, items, place, found)
        }
        Node::EnumDef { name, items, .. } => {
            let items = items.get().as_slice();
            add_block(DeclKind::EnumDef, *name, items, place, found)
        }
        Node::Oneof { name, items, .. } => {
            let items = items.get().as_slice();
            add_block(DeclKind::Oneof, *name, items, place, found)
        }
        Node::Extend { items, .. } => add_extensions(items.get().as_slice(), place, found),
        Node::Rpc { name, .. } => add_own(DeclKind::Rpc, *name.get(), place, found),
        Node::Field(field) => add_own(place.members, field.get().name, place, found),
        Node::MapField(field) => add_own(place.members, field.get().name, place, found),
        Node::Value { name, .. } => add_own(DeclKind::Value, *name, place, found),
        _ => Ok(()),
    }
}
