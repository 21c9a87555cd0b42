// The numbers of files in buckets, once another file comes between them or one of them leaves.
ghost use Rattle.std.specs.Prelude.{◌≡◌, ◌<◌, ◌+◌, ℕ, All, map};
ghost use Rattle.proto_names.specs.declared.moving.Change.TheVariants.{Comes};
ghost use Rattle.proto_names.specs.Moved.{number_after, moved, AreMoved};

use crate::buckets::Buckets;
use crate::decl_ref::DeclRef;

// What happens to a file.
#[derive(Clone, Copy)]
pub enum Change {
    // It comes to a place: those from there on move behind it.
    Comes,
    // It leaves its place, into which the one behind it moves.
    Leaves,
}

// The number of a file, once one comes to the place `at` or leaves it.
pub fn number_after(change: Change, at: usize, file: usize) -> usize
    requires { file < 18446744073709551615 }
    ensures { result ≡ number_after change at file }
{
    match change {
        Change::Comes => { if file < at { file } else { file + 1 } }
        Change::Leaves => { if at < file { file - 1 } else { file } }
    }
}

// Names the declarations by those numbers.
pub fn renumber(change: Change, at: usize, decls: &mut Vec<DeclRef>)
    requires { All (λ r. r.file < 18446744073709551615) decls.old.items }
    ensures { decls.new.items ≡ map (moved change at) decls.old.items }
{
    for decl in decls.iter_mut() {
        decl.file = number_after(change, at, decl.file);
    }
}

impl Buckets {
    // Names all declarations by the numbers of the files, once one comes to the place `at` or leaves it. Each stays in its place.
    pub fn renumber(&mut self, change: Change, at: usize)
        requires { All (λ b. All (λ r. r.file < 18446744073709551615) b.decls.items) self.old.list.items }
        ensures { AreMoved change at self.old.list.items self.new.list.items }
    {
        for bucket in self.list.iter_mut() {
            renumber(change, at, &mut bucket.decls);
        }
    }

    // Names all declarations by the numbers of the files, once one comes to the place `at`, so that there are so many. If that is the last
    // place, no number changes.
    pub fn make_way(&mut self, at: usize, count: usize)
        requires { All (λ b. All (λ r. r.file + 1 < count) b.decls.items) self.old.list.items }
        ensures { AreMoved Comes at self.old.list.items self.new.list.items }
    {
        if count.saturating_sub(at) > 1 {
            self.renumber(Change::Comes, at);
        }
    }
}
