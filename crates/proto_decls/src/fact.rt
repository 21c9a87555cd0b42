// What a text says by itself.
ghost use Rattle.std.specs.Prelude.{◌≡◌, IfOk};

use crate::decls::Decls;
use crate::diagnostic::Diag;
use crate::full_name::FullName;
use crate::name::Name;
use proto_tree::Span;
use sqlite_items::Items;
use std::alloc::{AllocError, Global};

/// Which language a file is analysed as.
#[derive(Clone, Copy, Debug, PartialEq, Eq)]
pub enum SyntaxFact {
    /// Protocol Buffers version 3: the file's first `syntax` says so.
    Proto3,
    /// Another language, or no `syntax` at all, where the declarations of such files are read. The file's own names aren't resolved.
    Other,
    /// The same where they aren't read, or a text that is too long: nothing but this is known of the file.
    Opaque,
}

/// The package of a file: its full name, and where the identifiers between its dots stand.
#[derive(Debug, Drop)]
pub struct PackageFact {
    /// The identifiers joined by dots, without the blanks and comments that may stand between them.
    pub full_name: Name,
    /// The spans of the identifiers, in bytes of the text.
    pub components: Items<Span>,
}

/// An import of a file.
#[derive(Debug, Drop)]
pub struct ImportFact {
    /// The path: the contents of the string tokens, joined.
    pub path: Name,
    /// From the first quote to the last, in bytes of the text.
    pub span: Span,
    /// Whether what is imported is visible to those who import this file. A weak import counts as a plain one.
    pub is_public: bool,
}

/// What a declaration declares.
#[derive(Clone, Copy, Debug, PartialEq, Eq)]
pub enum DeclKind {
    /// A `message`.
    Message,
    /// An `enum`.
    EnumDef,
    /// A `service`.
    Service,
    /// An `rpc` of a service.
    Rpc,
    /// A `oneof` of a message.
    Oneof,
    /// A field of a message, also in a oneof, and a map.
    Field,
    /// A field in an `extend` block.
    Extension,
    /// A value of an enum.
    Value,
}

/// A declaration.
#[derive(Drop)]
pub struct Decl {
    /// What it declares.
    pub kind: DeclKind,
    /// The package, the messages or the service that hold the declaration, and its name, joined by dots. A oneof, an enum
    /// and an `extend` block add nothing, so the values of an enum are its siblings.
    pub full_name: FullName,
    /// Where its name stands, in bytes of the text.
    pub name_span: Span,
    /// The number of the declaration whose body holds this one, counted from 0 in the file's list.
    pub parent: Option<usize>,
}

/// What a text says by itself: its language, package, imports and declarations, and what is wrong in it.
///
/// Contracts see equal facts as one value: the allocator that they keep takes no part.
#[derive(Drop)]
pub struct FileFacts {
    /// Which language the file is analysed as. Of an opaque file there is nothing but one diagnostic.
    pub syntax: SyntaxFact,
    /// The first package that is stated, if any.
    pub package: Option<PackageFact>,
    /// The imports, in the order of the text.
    pub imports: Items<ImportFact>,
    /// The declarations, in the order of the text: each one is followed by those inside it.
    pub decls: Decls,
    /// The diagnostics 201 to 318, each once, by start, end, number and words.
    pub diags: Items<Diag>,
    /// Where copies of the facts get their memory.
    pub alloc: Global,
}

fn copy_package(
    alloc: Global,
    package: &Option<PackageFact>,
) -> Result<Option<PackageFact>, AllocError>
    ensures { IfOk result (λ p. p ≡ «package».now) }
{
    match package {
        Some(fact) => Ok(Some(PackageFact {
            full_name: fact.full_name.copy(alloc)?,
            components: Items::from_slice(alloc, fact.components.as_slice())?,
        })),
        None => Ok(None),
    }
}

fn copy_import(alloc: Global, import: &ImportFact) -> Result<ImportFact, AllocError>
    ensures { IfOk result (λ i. i ≡ import.now) }
{
    Ok(ImportFact {
        path: import.path.copy(alloc)?,
        span: import.span,
        is_public: import.is_public,
    })
}

fn copy_imports(alloc: Global, imports: &[ImportFact]) -> Result<Items<ImportFact>, AllocError>
    ensures { IfOk result (λ i. i ≡ imports.now) }
{
    let mut found = Items::new(alloc);
    'each: for fact in imports {
        found.push(copy_import(alloc, fact)?)?;
    }
    Ok(found)
}

fn copy_decl(alloc: Global, decl: &Decl) -> Result<Decl, AllocError>
    ensures { IfOk result (λ d. d ≡ decl.now) }
{
    Ok(Decl {
        kind: decl.kind,
        full_name: decl.full_name.copy(alloc)?,
        name_span: decl.name_span,
        parent: decl.parent,
    })
}

fn copy_decls(alloc: Global, decls: &[Decl]) -> Result<Items<Decl>, AllocError>
    ensures { IfOk result (λ d. d ≡ decls.now) }
{
    let mut found = Items::new(alloc);
    'each: for fact in decls {
        found.push(copy_decl(alloc, fact)?)?;
    }
    Ok(found)
}

impl FileFacts {
    /// Equal facts in memory of their own. An `Err` comes only where memory was refused.
    pub fn copy(&self) -> Result<FileFacts, AllocError>
        ensures { IfOk result (λ f. f ≡ self.now) }
    {
        let alloc = self.alloc;
        Ok(FileFacts {
            syntax: self.syntax,
            package: copy_package(alloc, &self.package)?,
            imports: copy_imports(alloc, self.imports.as_slice())?,
            decls: Decls::of(alloc, copy_decls(alloc, self.decls.as_slice())?)?,
            diags: Items::from_slice(alloc, self.diags.as_slice())?,
            alloc,
        })
    }
}
