// Where a declaration is used.
ghost use Rattle.std.specs.Prelude.{◌≡◌, IfOk, not, nat_lt, filter, option_map};
ghost use Rattle.lsp_queries.specs.Answers.{is_of, uses_of, with_own, sites_in, sites_of, own_place, references};

use crate::files::{place_of, uses_in};
use crate::offsets::declaration_at;
use crate::place::Place;
use import_graph::FileNo;
use proto_resolve::{DeclRef, Target};
use std::alloc::{AllocError, Global};
use work_index::Analysis;

fn is_of(decl: DeclRef, target: &Target) -> bool
    ensures { result ≡ is_of decl target.now }
{
    match target {
        Target::Declared(found) => found.file == decl.file && found.number == decl.number,
        Target::Package(_) => false,
    }
}

// Where a file uses a declaration.
fn uses_of(
    alloc: Global,
    analysis: &Analysis,
    decl: DeclRef,
    file: FileNo,
) -> Result<Vec<Place>, AllocError>
    ensures { IfOk result (λ places. places.items ≡ uses_of analysis.now decl file) }
{
    let mut places = Vec::new(alloc);
    for found in uses_in(analysis, file) {
        if is_of(decl, &found.target) {
            places.push(Place {
                file,
                start: found.span.start,
                end: found.span.end,
            })?;
        }
    }
    Ok(places)
}

// The places that start before an offset.
fn places_before(alloc: Global, places: &[Place], start: usize) -> Result<Vec<Place>, AllocError>
    ensures { IfOk result (λ found. found.items ≡ filter (λ p. nat_lt p.start start) places.now) }
{
    let mut found = Vec::with_capacity(alloc, places.len())?;
    for place in places {
        if place.start < start {
            found.push(*place)?;
        }
    }
    Ok(found)
}

// The places that start at an offset or behind it.
fn places_from(alloc: Global, places: &[Place], start: usize) -> Result<Vec<Place>, AllocError>
    ensures { IfOk result (λ found. found.items ≡ filter (λ p. not (nat_lt p.start start)) places.now) }
{
    let mut found = Vec::with_capacity(alloc, places.len())?;
    for place in places {
        if !(place.start < start) {
            found.push(*place)?;
        }
    }
    Ok(found)
}

// The places of a file with the declaration's own place among them.
fn with_own(alloc: Global, own: Place, places: &[Place]) -> Result<Vec<Place>, AllocError>
    ensures { IfOk result (λ all. all.items ≡ with_own own places.now) }
{
    let mut all = places_before(alloc, places, own.start)?;
    let mut behind = places_from(alloc, places, own.start)?;
    all.push(own)?;
    all.append(&mut behind)?;
    Ok(all)
}

// Where a file has a declaration, whose own place counts if it is given.
fn sites_in(
    alloc: Global,
    analysis: &Analysis,
    decl: DeclRef,
    own: Option<Place>,
    file: FileNo,
) -> Result<Vec<Place>, AllocError>
    ensures { IfOk result (λ places. places.items ≡ sites_in analysis.now decl own file) }
{
    let places = uses_of(alloc, analysis, decl, file)?;
    if let Some(own) = own {
        if own.file == file {
            return with_own(alloc, own, places.as_slice());
        }
    }
    Ok(places)
}

/// Where a declaration is used in all files, by file, then offset. If `own` is given, the place of its name, that is put among them,
/// before the uses in its file that don't start before it; it is left out if there is no such file. An `Err` comes only where memory
/// was refused.
pub fn sites_of(
    alloc: Global,
    analysis: &Analysis,
    decl: DeclRef,
    own: Option<Place>,
) -> Result<Vec<Place>, AllocError>
    ensures { IfOk result (λ places. places.items ≡ sites_of analysis.now decl own) }
{
    let mut found = Vec::new(alloc);
    for file in 0..analysis.file_count() {
        let mut places = sites_in(alloc, analysis, decl, own, file)?;
        found.append(&mut places)?;
    }
    Ok(found)
}

fn own_place(analysis: &Analysis, decl: DeclRef, include_declaration: bool) -> Option<Place>
    ensures { result ≡ own_place analysis.now decl include_declaration }
{
    if include_declaration {
        place_of(analysis, decl)
    } else {
        None
    }
}

/// Where the declaration is used that the name at a byte offset of a file stands for, and where it is declared if that is asked
/// for, by file, then offset. `None` if no name that means something is there, or one that stands for a package. An `Err` comes only
/// where memory was refused.
pub fn references(
    alloc: Global,
    analysis: &Analysis,
    file: FileNo,
    offset: usize,
    include_declaration: bool,
) -> Result<Option<Vec<Place>>, AllocError>
    ensures { IfOk result (λ found. option_map (λ v. v.items) found ≡ references analysis.now file offset include_declaration) }
{
    let Some(decl) = declaration_at(analysis, file, offset) else {
        return Ok(None);
    };
    let own = own_place(analysis, decl, include_declaration);
    Ok(Some(sites_of(alloc, analysis, decl, own)?))
}
