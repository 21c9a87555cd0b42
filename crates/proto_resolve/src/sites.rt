// The names of a tree, with their scopes.
ghost use Rattle.std.specs.Prelude.{◌≡◌, ◌++◌, ◌∷◌, length, map, OnOk, IfOk};
ghost use Rattle.proto_resolve.specs.Sites as spec;

use crate::full_names::copied;
use crate::scope_chain::{ScopeChain, Scopes};
use crate::site::{Component, NameSite, Needs};
use proto_decls::{FileFacts, PackageFact, SyntaxFact, text_at};
use proto_tree::{Node, Span, TypeName};
use sqlite_items::Items;
use std::alloc::{AllocError, Global};
use thread_heap::make_room;

fn components(alloc: Global, text: &str, spans: &[Span]) -> Result<Items<Component>, AllocError>
    ensures { IfOk result (λ cs. cs ≡ map (spec.component text.now) spans.now) }
{
    let mut found = Vec::with_capacity(alloc, spans.len())?;
    'spans: for &span in spans {
        found.push(Component {
            text: copied(alloc, text_at(text, span))?,
            span,
        })?;
    }
    Ok(Items::from_vec(found))
}

// The scopes in a body with this name, which stands in these scopes.
fn inner(alloc: Global, text: &str, name: Span, scopes: &Scopes) -> Result<Scopes, AllocError>
    ensures { IfOk result (λ found. found ≡ spec.inner text.now name scopes.now) }
{
    let place = scopes.place().copied_inside(alloc, text_at(text, name))?;
    Scopes::of(alloc, place)
}

fn site(
    alloc: Global,
    text: &str,
    needs: Needs,
    name: &TypeName,
    scopes: &Scopes,
) -> Result<NameSite, AllocError>
    ensures { IfOk result (λ s. s ≡ spec.site text.now needs name.now scopes.now) }
{
    Ok(NameSite {
        span: name.span,
        is_absolute: name.is_absolute,
        components: components(alloc, text, name.components.as_slice())?,
        scopes: scopes.share()?,
        needs,
    })
}

fn is_scalar_word(word: &str) -> bool
    ensures { result ≡ spec.is_scalar_word word.now }
{
    matches!(
        word,
        "double"
            | "float"
            | "int32"
            | "int64"
            | "uint32"
            | "uint64"
            | "sint32"
            | "sint64"
            | "fixed32"
            | "fixed64"
            | "sfixed32"
            | "sfixed64"
            | "bool"
            | "string"
            | "bytes"
    )
}

fn is_scalar(text: &str, name: &TypeName) -> bool
    ensures { result ≡ spec.is_scalar text.now name.now }
{
    match name.components.as_slice() {
        [only] => !name.is_absolute && is_scalar_word(text_at(text, *only)),
        _ => false,
    }
}

fn push_type(
    alloc: Global,
    text: &str,
    name: &TypeName,
    scopes: &Scopes,
    found: &mut Items<NameSite>,
) -> Result<(), AllocError>
    ensures { OnOk result (found.new ≡ found.old ++ spec.type_names text.now name.now scopes.now) }
{
    if is_scalar(text, name) {
        return Ok(());
    }
    make_room(alloc, found.len())?;
    found.push(site(alloc, text, Needs::MessageOrEnum, name, scopes)?)
}

// Adds the names of statements, and of all inside them.
#[cycle(names)]
pub fn push_names(
    alloc: Global,
    text: &str,
    nodes: &[Node],
    scopes: &Scopes,
    found: &mut Items<NameSite>,
) -> Result<(), AllocError>
    ensures { OnOk result (found.new ≡ found.old ++ spec.names_in text.now nodes.now scopes.now) }
{
    'nodes: for node in nodes {
        push_names_of(alloc, text, node, scopes, found)?;
    }
    Ok(())
}

// Adds the names in a body with this name. Where it is empty, its scopes aren't written out.
#[cycle(names)]
fn push_inner(
    alloc: Global,
    text: &str,
    name: Span,
    nodes: &[Node],
    scopes: &Scopes,
    found: &mut Items<NameSite>,
) -> Result<(), AllocError>
    ensures { OnOk result (found.new ≡ found.old ++ spec.names_in text.now nodes.now (spec.inner text.now name scopes.now)) }
{
    if nodes.is_empty() {
        return Ok(());
    }
    let inside = inner(alloc, text, name, scopes)?;
    push_names(alloc, text, nodes, &inside, found)
}

#[cycle(names)]
fn push_names_of(
    alloc: Global,
    text: &str,
    node: &Node,
    scopes: &Scopes,
    found: &mut Items<NameSite>,
) -> Result<(), AllocError>
    ensures { OnOk result (found.new ≡ found.old ++ spec.names_of text.now node.now scopes.now) }
{
    match node {
        Node::Message { name, items, .. } => {
            push_inner(alloc, text, *name, items.get().as_slice(), scopes, found)
        }
        Node::Service { name, items, .. } => {
            push_inner(alloc, text, *name, items.get().as_slice(), scopes, found)
        }
        Node::Oneof { items, .. } => push_names(alloc, text, items.get().as_slice(), scopes, found),
        Node::Extend { target, items, .. } => {
            found.push(site(alloc, text, Needs::Message, target.get(), scopes)?)?;
            push_names(alloc, text, items.get().as_slice(), scopes, found)
        }
        Node::Rpc {
            request,
            response,
            ..
        } => {
            found.push(site(alloc, text, Needs::Message, request.get(), scopes)?)?;
            found.push(site(alloc, text, Needs::Message, response.get(), scopes)?)
        }
        Node::Field(field) => push_type(alloc, text, &field.get().type_name, scopes, found),
        Node::MapField(field) => push_type(alloc, text, &field.get().value, scopes, found),
        _ => Ok(()),
    }
}

fn package_scopes(
    alloc: Global,
    text: &str,
    package: &Option<PackageFact>,
) -> Result<Scopes, AllocError>
    ensures { IfOk result (λ scopes. scopes ≡ spec.package_scopes text.now «package».now) }
{
    let place = ScopeChain::outermost(alloc)?;
    match package {
        None => Scopes::of(alloc, place),
        Some(package) => Scopes::of(
            alloc,
            scopes_after(text, place, package.components.as_slice())?,
        ),
    }
}

fn scopes_after(
    text: &str,
    mut place: ScopeChain,
    components: &[Span],
) -> Result<ScopeChain, AllocError>
    ensures { IfOk result (λ found. found ≡ spec.scopes_after text.now place components.now) }
{
    'components: for &component in components {
        place = place.inside(text_at(text, component))?;
    }
    Ok(place)
}

// The names of a file, by offset.
pub fn names_of_file(
    alloc: Global,
    text: &str,
    facts: &FileFacts,
    nodes: &[Node],
) -> Result<Items<NameSite>, AllocError>
    ensures { IfOk result (λ sites. sites ≡ spec.names_of_file text.now facts.now nodes.now) }
{
    let mut found = Items::new(alloc);
    match facts.syntax {
        SyntaxFact::Other | SyntaxFact::Opaque => Ok(found),
        SyntaxFact::Proto3 => {
            let scopes = package_scopes(alloc, text, &facts.package)?;
            push_names(alloc, text, nodes, &scopes, &mut found)?;
            Ok(found)
        }
    }
}
