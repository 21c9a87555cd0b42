// How the numbers of a file's declarations change.
ghost use Rattle.std.specs.Prelude.{◌≡◌, ℕ, IsTrue, MatchOption};
ghost use Rattle.work_links.specs.Touched.{decl_after, links_after, renumbered, use_after};

use proto_resolve::{DeclRef, Links, NameUse, Target};

/// How the numbers of a file's declarations change. Numbers count from 0.
#[derive(Clone, Copy)]
pub struct Renumbering {
    /// The file's number in the list of all files.
    pub file: usize,
    /// The first number that may change.
    pub from: usize,
    /// How many declarations the file had.
    pub before: usize,
    /// How many it has.
    pub after: usize,
}

impl Renumbering {
    // The declaration after the change. From the first number on that may change, it stands as far before the end of the
    // file's list as it stood. A number past the list's end stays.
    pub fn decl(&self, decl: DeclRef) -> DeclRef
        ensures { result ≡ decl_after self.now decl }
    {
        if decl.file != self.file || decl.number < self.from || decl.number >= self.before {
            return decl;
        }
        DeclRef {
            file: decl.file,
            number: self.after.saturating_sub(self.before - decl.number),
        }
    }

    // True only if no number changes.
    fn is_still(&self) -> bool
        ensures { IsTrue result → (number : ℕ) → renumbered self.now number ≡ number }
    {
        self.before == self.after || self.from >= self.before
    }
}

// A use with the number after the change, if it has a declaration whose number changes. Otherwise it stays as it is.
fn moved_use(by: &Renumbering, name_use: &NameUse) -> Option<NameUse>
    ensures { MatchOption result (use_after (decl_after by.now) name_use.now ≡ name_use.now) (λ u. u ≡ use_after (decl_after by.now) name_use.now) }
{
    let Target::Declared(decl) = &name_use.target else {
        return None;
    };
    let after = by.decl(*decl);
    if after == *decl {
        return None;
    }
    Some(NameUse {
        span: name_use.span,
        name: name_use.name,
        target: Target::Declared(after),
    })
}

/// Gives the links the numbers after the change, in place. Links without a declaration whose number changes stay untouched.
pub fn renumber(by: &Renumbering, links: &mut Links)
    ensures { links.new ≡ links_after (decl_after by.now) links.old }
{
    if by.is_still() {
        return;
    }
    for at in 0..links.uses.len() {
        if let Some(moved) = moved_use(by, &links.uses.as_slice()[at]) {
            links.uses.set(at, moved);
        }
    }
}
