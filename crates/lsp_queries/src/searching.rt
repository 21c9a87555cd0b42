// The declarations of a workspace by their names.
ghost use Rattle.std.specs.Prelude.{◌≡◌, ◌<◌, length, IfOk, IsFalse};
ghost use Rattle.lsp_queries.specs.Answers.{is_match, symbols};
ghost use Rattle.lsp_queries.specs.Searching.{HasNoMatch, LeavesOut};

use crate::files::decl_of;
use crate::matching::contains;
use import_graph::FileNo;
use proto_resolve::DeclRef;
use std::alloc::{AllocError, Global};
use work_index::Analysis;

// Whether a declaration of a file may be a match. It is told from what stands side by side in all their names.
fn may_match(analysis: &Analysis, query: &str, file: FileNo) -> bool
    requires { file < length analysis.now.paths }
    ensures { IsFalse result → HasNoMatch analysis.now query.now file }
{
    analysis.facts(file).decls.may_contain(query)
}

// For each file whether it has to be searched.
fn searched_files(alloc: Global, analysis: &Analysis, query: &str) -> Result<Vec<bool>, AllocError>
    ensures { IfOk result (λ searched. LeavesOut analysis.now query.now searched.items) }
{
    let mut searched = Vec::new(alloc);
    for file in 0..analysis.file_count() {
        searched.push(may_match(analysis, query, file))?;
    }
    Ok(searched)
}

// Whether the full name of a declaration contains the query. It is written over `name`.
fn is_match(
    alloc: Global,
    analysis: &Analysis,
    query: &str,
    decl: DeclRef,
    name: &mut String,
) -> Result<bool, AllocError>
    ensures { IfOk result (λ found. found ≡ is_match analysis.now query.now decl) }
{
    match decl_of(analysis, decl) {
        Some(decl) => {
            name.clear();
            decl.full_name.write_to(name)?;
            contains(alloc, name.as_str(), query)
        }
        None => Ok(false),
    }
}

// Whether the full name of a declaration contains the query. It isn't looked at if the file isn't searched.
fn is_found(
    alloc: Global,
    analysis: &Analysis,
    query: &str,
    searched: &[bool],
    decl: DeclRef,
    name: &mut String,
) -> Result<bool, AllocError>
    requires { LeavesOut analysis.now query.now searched.now }
    ensures { IfOk result (λ found. found ≡ is_match analysis.now query.now decl) }
{
    match searched.get(decl.file) {
        Some(false) => Ok(false),
        _ => is_match(alloc, analysis, query, decl, name),
    }
}

/// The declarations whose full name contains the query, without regard to the case of ASCII letters, by path, then offset.
/// An `Err` comes only where memory was refused.
pub fn symbols(alloc: Global, analysis: &Analysis, query: &str) -> Result<Vec<DeclRef>, AllocError>
    ensures { IfOk result (λ found. found.items ≡ symbols analysis.now query.now) }
{
    let searched = searched_files(alloc, analysis, query)?;
    let mut name = String::new(alloc);
    let mut found = Vec::new(alloc);
    for decl in analysis.decls() {
        if is_found(
            alloc,
            analysis,
            query,
            searched.as_slice(),
            *decl,
            &mut name,
        )? {
            found.push(*decl)?;
        }
    }
    Ok(found)
}
