// The facts of a text and its tree.

ghost use Rattle.std.specs.Prelude.{◌≡◌, ◌++◌, [], ◌∷◌, OnOk, IfOk, None, Some, List};
ghost use Rattle.proto_decls.specs.Facts as spec;
ghost use Rattle.proto_tree.specs.Others.{other_tree};
ghost use Rattle.proto_tree.specs.Read.{value_tree};

use crate::decls::{Enclosing, add_decls};
use crate::file::{
    add_faults, add_imports, add_package_diags, add_packages, add_stated, add_syntax_late,
    first_package, opaque,
};
use crate::text::Source;
use crate::twice::{add_declared_twice, add_imported_twice};
use crate::walk::add_statements;
use proto_decls::{
    Decl, DeclKind, Decls, Diag, FileFacts, ImportFact, ScopeName, StatedPackage, StatedSyntax,
    SyntaxFact, put_in_order,
};
use proto_tree::FileTree;
use sqlite_items::Items;
use std::alloc::{AllocError, Global};

// The statements that say what a file itself is and needs.
#[derive(Clone, Copy)]
struct OwnStatements<'a> {
    stated: &'a [StatedSyntax],
    packages: &'a [StatedPackage],
    imports: &'a [ImportFact],
}

// The facts of a file that is not analysed.
fn opaque_facts(alloc: Global, diag: Diag) -> Result<FileFacts, AllocError>
    ensures { IfOk result (λ f. f ≡ spec.opaque_facts diag) }
{
    let mut diags = Items::new(alloc);
    diags.push(diag)?;
    Ok(FileFacts {
        syntax: SyntaxFact::Opaque,
        package: None,
        imports: Items::new(alloc),
        decls: Decls::of(alloc, Items::new(alloc))?,
        diags,
        alloc,
    })
}

// The name of the first package; empty where there is none.
fn package_name(packages: &[StatedPackage]) -> &str
    ensures { result.now ≡ spec.package_name (spec.first_package packages.now) }
{
    match packages {
        [] => "",
        [first, ..] => first.fact.full_name.as_str(),
    }
}

// The declarations of a file in a package. Adds what is wrong with its tokens and statements.
fn add_tree_diags(
    source: Source<'_>,
    tree: &FileTree,
    package: &str,
    diags: &mut Items<Diag>,
) -> Result<Items<Decl>, AllocError>
    ensures decls { IfOk result (λ d. d ≡ spec.decls_with source.entry.text.now «package».now tree.now.nodes) }
    ensures diags { OnOk result (diags.new ≡ diags.old ++ spec.tree_diags source.entry.text.now tree.now) }
{
    let scope = ScopeName::of(source.alloc, package)?;
    let mut decls = Items::new(source.alloc);
    add_faults(tree.faults.as_slice(), diags)?;
    let nodes = tree.nodes.as_slice();
    add_statements(source, nodes, &scope, &mut decls, diags)?;
    Ok(decls)
}

fn add_file_diags(
    alloc: Global,
    packages: &[StatedPackage],
    imports: &[ImportFact],
    decls: &[Decl],
    diags: &mut Items<Diag>,
) -> Result<(), AllocError>
    ensures { OnOk result (diags.new ≡ diags.old ++ spec.file_diags packages.now imports.now decls.now) }
{
    add_declared_twice(alloc, decls, diags)?;
    add_imported_twice(alloc, imports, diags)?;
    add_package_diags(packages, diags)
}

// The declarations of a file that is analysed. Adds all its diagnostics, one kind after the other.
fn add_analysed(
    source: Source<'_>,
    tree: &FileTree,
    own: OwnStatements<'_>,
    diags: &mut Items<Diag>,
) -> Result<Items<Decl>, AllocError>
    ensures decls { IfOk result (λ d. d ≡ spec.decls_with source.entry.text.now (spec.package_name (spec.first_package own.entry.packages.now)) tree.now.nodes) }
    ensures diags { IfOk result (λ d. diags.new ≡ diags.old ++ spec.diags_of source.entry.text.now tree.now own.entry.stated.now own.entry.packages.now own.entry.imports.now d) }
{
    let decls = add_tree_diags(source, tree, package_name(own.packages), diags)?;
    add_syntax_late(tree, own.stated, diags)?;
    add_file_diags(
        source.alloc,
        own.packages,
        own.imports,
        decls.as_slice(),
        diags,
    )?;
    Ok(decls)
}

fn analysed_facts(
    alloc: Global,
    text: &str,
    tree: &FileTree,
    stated: &[StatedSyntax],
) -> Result<FileFacts, AllocError>
    ensures { IfOk result (λ f. f ≡ spec.analysed_facts stated.now text.now tree.now) }
{
    let nodes = tree.nodes.as_slice();
    let mut packages = Items::new(alloc);
    add_packages(alloc, text, nodes, &mut packages)?;
    let mut imports = Items::new(alloc);
    add_imports(alloc, text, nodes, &mut imports)?;
    let own = OwnStatements {
        stated,
        packages: packages.as_slice(),
        imports: imports.as_slice(),
    };
    let mut found = Items::new(alloc);
    let decls = add_analysed(Source { alloc, text }, tree, own, &mut found)?;
    let diags = put_in_order(alloc, found)?;
    let package = first_package(packages);
    Ok(FileFacts {
        syntax: SyntaxFact::Proto3,
        package,
        imports,
        decls: Decls::of(alloc, decls)?,
        diags,
        alloc,
    })
}

/// What a text says by itself: its language, package, imports and declarations, and what is wrong in it.
///
/// Any text and any tree has facts. Those of the text's own tree, which is the empty text's where the text has more
/// than 16,777,216 bytes, are the facts of the text. An `Err` comes only where memory was refused.
pub fn facts(alloc: Global, text: &str, tree: &FileTree) -> Result<FileFacts, AllocError>
    ensures any { IfOk result (λ f. f ≡ spec.facts_in text.now tree.now) }
    ensures of_text { tree.now ≡ value_tree text.now → IfOk result (λ f. f ≡ spec.facts_of text.now) }
{
    let mut stated = Items::new(alloc);
    add_stated(alloc, text, tree.nodes.as_slice(), &mut stated)?;
    match opaque(text, stated.as_slice()) {
        Some(diag) => opaque_facts(alloc, diag),
        None => analysed_facts(alloc, text, tree, stated.as_slice()),
    }
}

// The declarations of a file in a package.
fn declarations(
    source: Source<'_>,
    tree: &FileTree,
    package: &str,
) -> Result<Items<Decl>, AllocError>
    ensures { IfOk result (λ d. d ≡ spec.decls_with source.entry.text.now «package».now tree.now.nodes) }
{
    let scope = ScopeName::of(source.alloc, package)?;
    let mut decls = Items::new(source.alloc);
    let top = Enclosing {
        source,
        members: DeclKind::Field,
        scope: &scope,
        parent: None,
    };
    add_decls(tree.nodes.as_slice(), top, &mut decls)?;
    Ok(decls)
}

/// What a text that isn't proto3 says by itself where its declarations are read. Its package, imports and declarations are those of this tree; what is
/// wrong in it is what `own` says.
///
/// Any text and any tree has such facts. An `Err` comes only where memory was refused.
pub fn other_facts(
    alloc: Global,
    text: &str,
    tree: &FileTree,
    own: &FileFacts,
) -> Result<FileFacts, AllocError>
    ensures any { IfOk result (λ f. f ≡ spec.other_facts_in text.now tree.now (let facts = own.now in facts.diags)) }
    ensures of_text { tree.now ≡ other_tree text.now → own.now ≡ spec.facts_of text.now → IfOk result (λ f. f ≡ spec.other_facts text.now) }
{
    let nodes = tree.nodes.as_slice();
    let mut packages = Items::new(alloc);
    add_packages(alloc, text, nodes, &mut packages)?;
    let mut imports = Items::new(alloc);
    add_imports(alloc, text, nodes, &mut imports)?;
    let decls = declarations(
        Source { alloc, text },
        tree,
        package_name(packages.as_slice()),
    )?;
    let diags = Items::from_slice(alloc, own.diags.as_slice())?;
    let package = first_package(packages);
    Ok(FileFacts {
        syntax: SyntaxFact::Other,
        package,
        imports,
        decls: Decls::of(alloc, decls)?,
        diags,
        alloc,
    })
}
