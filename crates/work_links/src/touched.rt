// What a change of a file's declarations touches.
ghost use Rattle.std.specs.Prelude.{◌≡◌, ◌≤◌, ◌-◌, ◌++◌, ◌↔◌, take, drop, length, map, IsTrue, IfOk, IfSome, OnOk};
ghost use Rattle.proto_names.specs.Outlines.{declared, package_name};
ghost use Rattle.work_links.specs.Keys as spec;
ghost use Rattle.work_links.specs.Touched.{Tells};

use crate::keys::{NameKeys, keys_of};
use crate::renumbering::Renumbering;
use proto_decls::{Decl, FileFacts};
use std::alloc::{AllocError, Global};

/// The full names that a change of a file's declarations touches, by hashes, and how the numbers of the file's other declarations
/// change.
#[derive(Drop)]
pub struct Touched {
    // The keys of each of them, in no order.
    pub(crate) names: Vec<NameKeys>,
    /// How the numbers change.
    pub by: Renumbering,
}

// The most names that are told apart, since each one is looked for in what every file asks for. If more are touched, every file that
// sees the change is linked again.
const MOST_NAMES: usize = 256;

// Whether two files have packages of one full name, or none.
fn same_package(old: &FileFacts, new: &FileFacts) -> bool
    ensures { IsTrue result ↔ (package_name old.now ≡ package_name new.now) }
{
    match (&old.package, &new.package) {
        (Some(old), Some(new)) => old.full_name.as_str() == new.full_name.as_str(),
        (None, None) => true,
        _ => false,
    }
}

// Whether two declarations agree in kind and full name.
fn is_alike(old: &Decl, new: &Decl) -> bool
    ensures { IsTrue result ↔ (declared old.now ≡ declared new.now) }
{
    old.kind == new.kind && old.full_name.equals(&new.full_name)
}

// How many declarations at the front agree.
fn same_front(old: &[Decl], new: &[Decl]) -> usize
    ensures in_old { result ≤ length old.now }
    ensures in_new { result ≤ length new.now }
    ensures alike { map declared (take result old.now) ≡ map declared (take result new.now) }
{
    old.iter()
        .zip(new)
        .take_while(|(old, new)| is_alike(old, new))
        .count()
}

// How many declarations at the back agree.
fn same_back(old: &[Decl], new: &[Decl]) -> usize
    ensures in_old { result ≤ length old.now }
    ensures in_new { result ≤ length new.now }
    ensures alike { map declared (drop (length old.now - result) old.now) ≡ map declared (drop (length new.now - result) new.now) }
{
    old.iter()
        .rev()
        .zip(new.iter().rev())
        .take_while(|(old, new)| is_alike(old, new))
        .count()
}

// Adds the keys of declarations' full names.
fn push_keys(decls: &[Decl], names: &mut Vec<NameKeys>) -> Result<(), AllocError>
    ensures { OnOk result (names.new.items ≡ names.old.items ++ map (λ d. record { last = spec.last_key d.full_name; whole = spec.key d.full_name }) decls.now) }
{
    for decl in decls {
        names.push(keys_of(&decl.full_name))?;
    }
    Ok(())
}

impl Touched {
    /// What a change of a file's declarations touches, given the file's number, counted from 0 in the list of all files, and its
    /// facts before and after. The touched names are those of the declarations, before and after, that stand between the ones that
    /// agree in kind and full name at the front of both lists and the ones that agree at the back. `None` if the packages have
    /// different full names, or if more than 256 names are touched. An `Err` comes only where memory was refused.
    pub fn of(
        alloc: Global,
        file: usize,
        old: &FileFacts,
        new: &FileFacts,
    ) -> Result<Option<Touched>, AllocError>
        ensures { IfOk result (λ found. IfSome found (Tells file old.now new.now)) }
    {
        if !same_package(old, new) {
            return Ok(None);
        }
        let (old, new) = (old.decls.as_slice(), new.decls.as_slice());
        let from = same_front(old, new);
        let behind = same_back(&old[from..], &new[from..]);
        let gone = &old[from..old.len() - behind];
        let added = &new[from..new.len() - behind];
        if gone.len().saturating_add(added.len()) > MOST_NAMES {
            return Ok(None);
        }
        let mut names = Vec::new(alloc);
        push_keys(gone, &mut names)?;
        push_keys(added, &mut names)?;
        let by = Renumbering {
            file,
            from,
            before: old.len(),
            after: new.len(),
        };
        Ok(Some(Touched { names, by }))
    }
}
