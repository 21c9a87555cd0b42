// Declarations and imports whose name an earlier one has.
//
// Names are told apart by their hashes, which are sorted. A text can be written so that names share a hash: where some do, all
// are put into an ordered set.

ghost use Rattle.std.specs.Prelude.{◌≡◌, ◌++◌, IfOk, IsTrue, OnOk, map};
ghost use Rattle.proto_decls.specs.Checks as checks;
ghost use Rattle.proto_decls.specs.Facts as facts;
ghost use Rattle.proto_decls.specs.FullNames.{hash_of};
ghost use Rattle.proto_facts.specs.Twice as spec;

use crate::checks::{add, diag_if};
use crate::seen::{note_full_name, note_name};
use proto_decls::{Decl, Diag, ImportFact, Problem, hash_of};
use sqlite_items::Items;
use std::alloc::{AllocError, Global};
use std::collections::BTreeSet;

// Whether each number is there only once.
fn are_distinct(numbers: Vec<u64>) -> bool
    ensures { IsTrue result → spec.AreDistinct numbers.items }
{
    let mut sorted = numbers;
    sorted.sort_unstable();
    sorted.as_slice().is_sorted_by(|a, b| a < b)
}

// ---- imports

fn path_hashes(alloc: Global, imports: &[ImportFact]) -> Result<Vec<u64>, AllocError>
    ensures { IfOk result (λ v. v.items ≡ map (λ i. hash_of i.path) imports.now) }
{
    let mut hashes = Vec::with_capacity(alloc, imports.len())?;
    for import in imports {
        hashes.push(hash_of(import.path.as_str().as_bytes()))?;
    }
    Ok(hashes)
}

// Adds the imports whose path an earlier one has, by a set of the paths met.
fn add_imported_again(
    alloc: Global,
    imports: &[ImportFact],
    diags: &mut Items<Diag>,
) -> Result<(), AllocError>
    ensures { OnOk result (diags.new ≡ diags.old ++ checks.judged facts.imported_twice imports.now) }
{
    let mut seen = BTreeSet::new(alloc);
    'names: for name in imports {
        let again = note_name(&mut seen, name.path.as_str())?;
        add(diag_if(again, Problem::ImportedTwice, name.span), diags)?;
    }
    Ok(())
}

// Adds the imports whose path an earlier one has.
pub fn add_imported_twice(
    alloc: Global,
    imports: &[ImportFact],
    diags: &mut Items<Diag>,
) -> Result<(), AllocError>
    ensures { OnOk result (diags.new ≡ diags.old ++ checks.judged facts.imported_twice imports.now) }
{
    if are_distinct(path_hashes(alloc, imports)?) {
        Ok(())
    } else {
        add_imported_again(alloc, imports, diags)
    }
}

// ---- declarations

fn name_hashes(alloc: Global, decls: &[Decl]) -> Result<Vec<u64>, AllocError>
    ensures { IfOk result (λ v. v.items ≡ map (λ d. hash_of d.full_name) decls.now) }
{
    let mut hashes = Vec::with_capacity(alloc, decls.len())?;
    for decl in decls {
        hashes.push(decl.full_name.hash())?;
    }
    Ok(hashes)
}

// Adds the declarations whose full name an earlier one has, by a set of the names met.
fn add_declared_again(
    alloc: Global,
    decls: &[Decl],
    diags: &mut Items<Diag>,
) -> Result<(), AllocError>
    ensures { OnOk result (diags.new ≡ diags.old ++ checks.judged facts.declared_twice decls.now) }
{
    let mut seen = BTreeSet::new(alloc);
    'names: for name in decls {
        let again = note_full_name(&mut seen, &name.full_name)?;
        add(
            diag_if(again, Problem::DeclaredTwice, name.name_span),
            diags,
        )?;
    }
    Ok(())
}

// Adds the declarations whose full name an earlier one has.
pub fn add_declared_twice(
    alloc: Global,
    decls: &[Decl],
    diags: &mut Items<Diag>,
) -> Result<(), AllocError>
    ensures { OnOk result (diags.new ≡ diags.old ++ checks.judged facts.declared_twice decls.now) }
{
    if are_distinct(name_hashes(alloc, decls)?) {
        Ok(())
    } else {
        add_declared_again(alloc, decls, diags)
    }
}
