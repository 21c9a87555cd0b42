// What stands at a full name.
ghost use Rattle.std.specs.Prelude.{◌≡◌, ◌==◌, ◌<◌, ◌≤◌, find, length, nat_lt, true, false, IfOk, IfSome};
ghost use Rattle.std.specs.List.Sorted.{IsNonDecreasingBy, IsPartitionPoint};
ghost use Rattle.proto_names.specs.Files.{all_named, is_seen};
ghost use Rattle.proto_resolve.specs.Views.{IsView};
ghost use Rattle.proto_resolve.specs.Names.{found, first_declared, package_found, IsThere};

use crate::index::Index;
use crate::target::Target;
use crate::view::View;
use crate::views::sees_package;
use proto_decls::Name;
use proto_names::{DeclRef, unsplit};
use std::alloc::{AllocError, Global};

// The first place from which on no declaration is of an earlier file than this. Mostly that is the first of all.
fn start_of(decls: &[DeclRef], file: usize) -> usize
    requires { IsNonDecreasingBy (λ r. r.file) decls.now }
    ensures within { result ≤ length decls.now }
    ensures point { IsPartitionPoint (λ r. nat_lt r.file file ≡ true) (λ r. nat_lt r.file file ≡ false) decls.now result }
{
    if decls.is_empty() || decls[0].file >= file {
        return 0;
    }
    decls.partition_point(|decl| decl.file < file)
}

// The first declaration of a file, among declarations by file.
pub fn first_of(decls: &[DeclRef], file: usize) -> Option<DeclRef>
    requires { IsNonDecreasingBy (λ r. r.file) decls.now }
    ensures { result ≡ find (λ r. r.file == file) decls.now }
{
    let place = start_of(decls, file);
    if place >= decls.len() || decls[place].file != file {
        return None;
    }
    Some(decls[place])
}

// The first declaration of a file of the view, among declarations by file. The shorter list is walked.
fn first_seen(decls: &[DeclRef], view: &View) -> Option<DeclRef>
    requires { IsNonDecreasingBy (λ r. r.file) decls.now }
    ensures { result ≡ find (λ r. is_seen view.now.files r.file) decls.now }
{
    if decls.len() <= view.files.len() {
        decls.iter().copied().find(|decl| view.has(decl.file))
    } else {
        first_of_files(decls, view)
    }
}

fn first_of_files(decls: &[DeclRef], view: &View) -> Option<DeclRef>
    requires { IsNonDecreasingBy (λ r. r.file) decls.now }
    ensures { result ≡ find (λ r. is_seen view.now.files r.file) decls.now }
{
    for &file in view.files.as_slice() {
        if let Some(decl) = first_of(decls, file) {
            return Some(decl);
        }
    }
    None
}

// The declaration that a file finds at a full name, where it sees the files of the view.
pub fn declared<I: Index>(index: &I, view: &View, name: &str) -> Option<DeclRef>
    requires { IsView (I.files index.now) view.now }
    ensures value { result ≡ first_declared view.now.file view.now.files (all_named (I.files index.now) name.now) }
    ensures within { IfSome result (λ r. r.file < length (I.files index.now)) }
{
    first_declared(index.named(name), view)
}

// What a file finds at a full name, where it sees the files of the view.
pub fn found<I: Index>(
    alloc: Global,
    index: &I,
    view: &View,
    name: &str,
) -> Result<Option<Target>, AllocError>
    requires { IsView (I.files index.now) view.now }
    ensures value { IfOk result (λ r. r ≡ found (I.files index.now) view.now.file view.now.files name.now) }
    ensures within { IfOk result (λ r. IfSome r (IsThere (I.files index.now))) }
{
    match declared(index, view, name) {
        Some(decl) => Ok(Some(Target::Declared(decl))),
        None => package_found(alloc, index, view, name),
    }
}

fn first_declared(decls: &[DeclRef], view: &View) -> Option<DeclRef>
    requires { IsNonDecreasingBy (λ r. r.file) decls.now }
    ensures { result ≡ first_declared view.now.file view.now.files decls.now }
{
    match first_of(decls, view.file) {
        Some(decl) => Some(decl),
        None => first_seen(decls, view),
    }
}

fn package_found<I: Index>(
    alloc: Global,
    index: &I,
    view: &View,
    name: &str,
) -> Result<Option<Target>, AllocError>
    requires { IsView (I.files index.now) view.now }
    ensures value { IfOk result (λ r. r ≡ package_found (I.files index.now) view.now.files name.now) }
    ensures within { IfOk result (λ r. IfSome r (IsThere (I.files index.now))) }
{
    if !sees_package(index, view, unsplit(name.as_bytes())) {
        return Ok(None);
    }
    Ok(Some(Target::Package(Name::with_text(alloc, name)?)))
}
