// All declarations of files.
ghost use Rattle.std.specs.Prelude.{◌≡◌, ◌<◌, ◌≤◌, ◌+◌, ◌++◌, All, IfOk, List, OnOk, length, map};
ghost use Rattle.std.specs.List.{splice};
ghost use Rattle.proto_names.specs.declared.decl_ref.DeclRef.{DeclRef};
ghost use Rattle.proto_names.specs.Changes.{HadDecls, HadOtherDecls};
ghost use Rattle.proto_names.specs.Files.{all_decls, decls_at, refs_of};
ghost use Rattle.proto_names.specs.declared.moving.Change.TheVariants.{Comes};
ghost use Rattle.proto_names.specs.Moved.{moved};
ghost use Rattle.proto_names.specs.Replaced.{refs_between};

use crate::decl_ref::DeclRef;
use crate::moving::{Change, renumber};
use proto_decls::{Decl, NamedFacts};
use std::alloc::{AllocError, Global};

fn push_decls(file: usize, decls: &[Decl], found: &mut Vec<DeclRef>) -> Result<(), AllocError>
    ensures { OnOk result (found.new.items ≡ found.old.items ++ refs_of file decls.now) }
{
    for (number, _) in decls.iter().enumerate() {
        found.push(DeclRef { file, number })?;
    }
    Ok(())
}

// The declarations of a file, by offset.
pub fn decls_of(
    alloc: Global,
    files: &[NamedFacts],
    file: usize,
) -> Result<Vec<DeclRef>, AllocError>
    requires { file < length files.now }
    ensures { IfOk result (λ d. d.items ≡ refs_of file (decls_at files.now file)) }
{
    let mut found = Vec::new(alloc);
    push_decls(file, files[file].facts.get().decls.as_slice(), &mut found)?;
    Ok(found)
}

// The declarations of a file from one number up to another.
pub fn decls_between(
    alloc: Global,
    file: usize,
    start: usize,
    end: usize,
) -> Result<Vec<DeclRef>, AllocError>
    requires { start ≤ end }
    ensures { IfOk result (λ d. d.items ≡ refs_between file start end) }
{
    let mut found = Vec::with_capacity(alloc, end - start)?;
    for number in start..end {
        found.push(DeclRef { file, number })?;
    }
    Ok(found)
}

// How many declarations files have.
fn count_decls(files: &[NamedFacts]) -> usize {
    let mut count: usize = 0;
    for file in files {
        count = count.saturating_add(file.facts.get().decls.as_slice().len());
    }
    count
}

/// All declarations of files, by file, then offset. An `Err` comes only where memory was refused.
pub fn all_decls(alloc: Global, files: &[NamedFacts]) -> Result<Vec<DeclRef>, AllocError>
    ensures { IfOk result (λ d. d.items ≡ all_decls files.now) }
{
    let mut found = Vec::with_capacity(alloc, count_decls(files))?;
    for (number, file) in files.iter().enumerate() {
        push_decls(number, file.facts.get().decls.as_slice(), &mut found)?;
    }
    Ok(found)
}

// The first place among declarations, which are by file, from which on none is of an earlier file than this, given by its number from
// 0.
fn start_of(decls: &[DeclRef], file: usize) -> usize
    ensures { (front rest : List DeclRef) → decls.now ≡ front ++ rest → All (λ r. r.file < file) front → All (λ r. file ≤ r.file) rest → result ≡ length front }
{
    decls.partition_point(|decl| decl.file < file)
}

// The first place from which on each is of a later file.
fn end_of(decls: &[DeclRef], file: usize) -> usize
    ensures { (front rest : List DeclRef) → decls.now ≡ front ++ rest → All (λ r. r.file ≤ file) front → All (λ r. file < r.file) rest → result ≡ length front }
{
    decls.partition_point(|decl| decl.file <= file)
}

// Puts others in the place of the declarations from `start` up to `end`.
fn put(
    decls: &mut Vec<DeclRef>,
    start: usize,
    end: usize,
    others: Vec<DeclRef>,
) -> Result<(), AllocError>
    requires ordered { start ≤ end }
    requires within { end ≤ length decls.old.items }
    ensures { OnOk result (decls.new.items ≡ splice decls.old.items start end others.items) }
{
    let mut others = others;
    let behind = decls.len() - end;
    decls.append(&mut others)?;
    decls[end..].rotate_left(behind);
    drop(decls.drain(start..end));
    Ok(())
}

/// Puts the declarations of a file, given by its number from 0, in the place of those that it had. The others stay, and all do where
/// the file has as many as it had. An `Err` comes only where memory was refused; what is there then is neither.
pub fn replace_decls(
    alloc: Global,
    files: &[NamedFacts],
    file: usize,
    decls: &mut Vec<DeclRef>,
) -> Result<(), AllocError>
    requires { HadDecls files.now file decls.old.items }
    ensures { OnOk result (decls.new.items ≡ all_decls files.now) }
{
    let start = start_of(decls, file);
    let end = end_of(decls, file);
    if files[file].facts.get().decls.as_slice().len() == end - start {
        return Ok(());
    }
    let own = decls_of(alloc, files, file)?;
    put(decls, start, end, own)
}

// Names declarations by the numbers that files have once another comes to the place `at`, so that there are so many. If that is the last place,
// no number changes.
fn make_way(at: usize, count: usize, decls: &mut Vec<DeclRef>)
    requires { All (λ r. r.file + 1 < count) decls.old.items }
    ensures { decls.new.items ≡ map (moved Comes at) decls.old.items }
{
    if count.saturating_sub(at) > 1 {
        renumber(Change::Comes, at, decls);
    }
}

/// All declarations of the files, among which the one of the number `at`, from 0, came to those of which these were all. Only numbers change
/// in the others. An `Err` comes only where memory was refused; what is there then is neither.
pub fn insert_decls(
    alloc: Global,
    files: &[NamedFacts],
    at: usize,
    decls: &mut Vec<DeclRef>,
) -> Result<(), AllocError>
    requires { HadOtherDecls files.now at decls.old.items }
    ensures { OnOk result (decls.new.items ≡ all_decls files.now) }
{
    let start = start_of(decls, at);
    make_way(at, files.len(), decls);
    let own = decls_of(alloc, files, at)?;
    put(decls, start, start, own)
}
