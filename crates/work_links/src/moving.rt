// How the numbers of files change.
ghost use Rattle.std.specs.Prelude.{◌≡◌, MatchOption};
ghost use Rattle.work_links.specs.Laws.{decl_moved};
ghost use Rattle.work_links.specs.Touched.{links_after, use_after};

use proto_resolve::{DeclRef, Links, NameUse, Target};

// The declaration under the new number of its file. One of a file that left stays.
fn moved_decl(to: &[Option<usize>], decl: DeclRef) -> DeclRef
    ensures { result ≡ decl_moved to.now decl }
{
    match to.get(decl.file) {
        Some(Some(file)) => DeclRef {
            file: *file,
            number: decl.number,
        },
        _ => decl,
    }
}

// A use with the new number, if it has a declaration of a file whose number changes. Otherwise it stays as it is.
fn moved_use(to: &[Option<usize>], name_use: &NameUse) -> Option<NameUse>
    ensures { MatchOption result (use_after (decl_moved to.now) name_use.now ≡ name_use.now) (λ u. u ≡ use_after (decl_moved to.now) name_use.now) }
{
    let Target::Declared(decl) = &name_use.target else {
        return None;
    };
    let after = moved_decl(to, *decl);
    if after == *decl {
        return None;
    }
    Some(NameUse {
        span: name_use.span,
        name: name_use.name,
        target: Target::Declared(after),
    })
}

/// Gives the declarations in links the new numbers of their files, in place, where `to` has, at each old number of a file, its new
/// one, or `None` if the file left. Numbers count from 0. A declaration of a file that left, or whose number lies past the end of
/// `to`, stays, and uses whose numbers don't change stay untouched. It takes no memory.
pub fn move_files(to: &[Option<usize>], links: &mut Links)
    ensures { links.new ≡ links_after (decl_moved to.now) links.old }
{
    for at in 0..links.uses.len() {
        if let Some(moved) = moved_use(to, &links.uses.as_slice()[at]) {
            links.uses.set(at, moved);
        }
    }
}
