// What facts say of imports.
ghost use Rattle.std.specs.Prelude.{◌≡◌, ◌↔◌, map, IsTrue};
ghost use Rattle.import_graph.specs.Imports.{is_opaque};
ghost use Rattle.proto_resolve.specs.Outlines.{imported, import_outline};

use proto_decls::{FileFacts, ImportFact, SyntaxFact};

fn name_alike(a: &ImportFact, b: &ImportFact) -> bool
    ensures { IsTrue result ↔ (imported a.now ≡ imported b.now) }
{
    a.path.as_str() == b.path.as_str() && a.is_public == b.is_public
}

fn are_alike(a: &[ImportFact], b: &[ImportFact]) -> bool
    ensures { IsTrue result ↔ (map imported a.now ≡ map imported b.now) }
{
    if a.len() != b.len() {
        return false;
    }
    for (i, import) in a.iter().enumerate() {
        if !name_alike(import, &b[i]) {
            return false;
        }
    }
    true
}

fn is_opaque(syntax: SyntaxFact) -> bool
    ensures { result ≡ is_opaque syntax }
{
    matches!(syntax, SyntaxFact::Opaque)
}

/// Whether facts say the same of imports: the same paths, in order, which of them are public, and whether the file is opaque.
/// Takes no memory.
pub fn same_imports(a: &FileFacts, b: &FileFacts) -> bool
    ensures { IsTrue result ↔ (import_outline a.now ≡ import_outline b.now) }
{
    is_opaque(a.syntax) == is_opaque(b.syntax)
        && are_alike(a.imports.as_slice(), b.imports.as_slice())
}
