// What facts say to files that see them.
ghost use Rattle.std.specs.Prelude.{◌≡◌, ◌↔◌, map, option_map, IsTrue};
ghost use Rattle.proto_names.specs.Outlines.{declared, exports};

use proto_decls::{Decl, FileFacts, PackageFact};

// Whether two declarations say the same to other files.
pub(crate) fn is_alike(a: &Decl, b: &Decl) -> bool
    ensures { IsTrue result ↔ (declared a.now ≡ declared b.now) }
{
    a.kind == b.kind && a.full_name.equals(&b.full_name)
}

fn declare_alike(a: &[Decl], b: &[Decl]) -> bool
    ensures { IsTrue result ↔ (map declared a.now ≡ map declared b.now) }
{
    if a.len() != b.len() {
        return false;
    }
    for (i, decl) in a.iter().enumerate() {
        if !is_alike(decl, &b[i]) {
            return false;
        }
    }
    true
}

/// Whether packages, where there are any, have the same full name. Takes no memory.
pub fn have_one_name(a: &Option<PackageFact>, b: &Option<PackageFact>) -> bool
    ensures { IsTrue result ↔ (option_map (λ p. p.full_name) a.now ≡ option_map (λ p. p.full_name) b.now) }
{
    match (a, b) {
        (Some(a), Some(b)) => a.full_name.as_str() == b.full_name.as_str(),
        (None, None) => true,
        _ => false,
    }
}

/// Whether facts say the same to the files that see theirs: the same kinds and full names of declarations, in order, and the
/// same package. Takes no memory.
pub fn same_exports(a: &FileFacts, b: &FileFacts) -> bool
    ensures { IsTrue result ↔ (exports a.now ≡ exports b.now) }
{
    declare_alike(a.decls.as_slice(), b.decls.as_slice()) && have_one_name(&a.package, &b.package)
}
