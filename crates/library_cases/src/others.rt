// What texts that aren't proto3 declare.
use crate::line::Line;
use crate::marks::plain;
use proto_facts::{Decl, DeclKind, FileFacts, ImportFact, PackageFact, facts, other_facts};
use proto_syntax::{parse_other, parse_text};
use std::alloc::{AllocError, Global};

/// Writes what a text that isn't proto3 says where its declarations are read: its package, its imports, its declarations, each with its kind and its full
/// name, and how much is wrong in it.
pub fn write_others(alloc: Global, line: &mut Line, field: &str) -> Result<(), AllocError> {
    let text = plain(alloc, field)?;
    let found = facts_of(alloc, text.as_str())?;
    write_package(line, &found.package);
    write_imports(line, found.imports.as_slice());
    write_declarations(line, found.decls.as_slice());
    line.put_number(found.diags.as_slice().len() as u64);
    Ok(())
}

fn facts_of(alloc: Global, text: &str) -> Result<FileFacts, AllocError> {
    let tree = parse_text(alloc, text)?;
    let own = facts(alloc, text, &tree)?;
    let tree = parse_other(alloc, text)?;
    other_facts(alloc, text, &tree, &own)
}

fn write_package(line: &mut Line, package: &Option<PackageFact>) {
    if let Some(package) = package {
        line.put("package ");
        line.put(package.full_name.as_str());
        line.put(", ");
    }
}

fn write_imports(line: &mut Line, imports: &[ImportFact]) {
    for import in imports {
        line.put(if import.is_public {
            "public "
        } else {
            "import "
        });
        line.put(import.path.as_str());
        line.put(", ");
    }
}

fn write_declarations(line: &mut Line, decls: &[Decl]) {
    for decl in decls {
        line.put(kind(decl.kind));
        line.put(" ");
        if !decl.full_name.scope().is_empty() {
            line.put(decl.full_name.scope());
            line.put(".");
        }
        line.put(decl.full_name.last());
        line.put(", ");
    }
}

fn kind(kind: DeclKind) -> &'static str {
    match kind {
        DeclKind::Message => "message",
        DeclKind::EnumDef => "enum",
        DeclKind::Service => "service",
        DeclKind::Rpc => "rpc",
        DeclKind::Oneof => "oneof",
        DeclKind::Field => "field",
        DeclKind::Extension => "extension",
        DeclKind::Value => "value",
    }
}
