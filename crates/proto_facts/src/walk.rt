// Goes through all statements of a tree.

ghost use Rattle.std.specs.Prelude.{◌≡◌, ◌++◌, OnOk, None, length};
ghost use Rattle.std.specs.List.{flat_map};
ghost use Rattle.proto_decls.specs.Checks as checks;
ghost use Rattle.proto_decls.specs.Decls as declared;
ghost use Rattle.proto_decls.specs.declared.fact.DeclKind.TheVariants as kind;
ghost use Rattle.proto_decls.specs.Tree as spec;

use crate::bodies::add_statement_diags;
use crate::decls::{Enclosing, add_decl};
use crate::text::Source;
use proto_decls::{Decl, DeclKind, Diag, ScopeName};
use proto_tree::Node;
use sqlite_items::Items;
use std::alloc::AllocError;

// Adds what is wrong in each statement of a list, and in those inside it.
#[cycle(statements)]
pub fn add_all_diags(
    source: Source<'_>,
    nodes: &[Node],
    diags: &mut Items<Diag>,
) -> Result<(), AllocError>
    ensures { OnOk result (diags.new ≡ diags.old ++ flat_map (checks.statement_diags source.entry.text.now) (spec.all_statements nodes.now)) }
{
    'nodes: for node in nodes {
        add_statement_diags(source, node, diags)?;
        add_inner_diags(source, node, diags)?;
    }
    Ok(())
}

// Adds what each statement of a list declares and what is wrong in it, and in those inside it. One statement after the
// other has both done, while it is at hand.
pub fn add_statements(
    source: Source<'_>,
    nodes: &[Node],
    scope: &ScopeName,
    decls: &mut Items<Decl>,
    diags: &mut Items<Diag>,
) -> Result<(), AllocError>
    ensures decls { OnOk result (decls.new ≡ decls.old ++ declared.decls_in source.entry.text.now nodes.now kind.Field scope.now None (length decls.old)) }
    ensures diags { OnOk result (diags.new ≡ diags.old ++ flat_map (checks.statement_diags source.entry.text.now) (spec.all_statements nodes.now)) }
{
    let top = Enclosing {
        source,
        members: DeclKind::Field,
        scope,
        parent: None,
    };
    'nodes: for node in nodes {
        add_decl(node, top, decls)?;
        add_statement_diags(source, node, diags)?;
        add_inner_diags(source, node, diags)?;
    }
    Ok(())
}

#[cycle(statements)]
fn add_inner_diags(
    source: Source<'_>,
    node: &Node,
    diags: &mut Items<Diag>,
) -> Result<(), AllocError>
    ensures { OnOk result (diags.new ≡ diags.old ++ flat_map (checks.statement_diags source.entry.text.now) (spec.all_statements (spec.inside node.now))) }
{
    match node {
        Node::Message { items, .. } => add_all_diags(source, items.get().as_slice(), diags),
        Node::EnumDef { items, .. } => add_all_diags(source, items.get().as_slice(), diags),
        Node::Service { items, .. } => add_all_diags(source, items.get().as_slice(), diags),
        Node::Oneof { items, .. } => add_all_diags(source, items.get().as_slice(), diags),
        Node::Extend { items, .. } => add_all_diags(source, items.get().as_slice(), diags),
        Node::Rpc { items, .. } => add_all_diags(source, items.get().as_slice(), diags),
        _ => Ok(()),
    }
}
