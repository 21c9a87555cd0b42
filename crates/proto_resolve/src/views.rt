// The view of a file.
ghost use Rattle.std.specs.Prelude.{◌≡◌, ◌<◌, ◌≤◌, List, length, take, All, IfOk};
ghost use Rattle.std.specs.List.{list_any};
ghost use Rattle.std.specs.List.Sorted.{IsNonDecreasing};
ghost use Rattle.import_graph.specs.Imports.{graph_of};
ghost use Rattle.import_graph.specs.Closures.{view_of};
ghost use Rattle.proto_decls.specs.Text.{joined};
ghost use Rattle.proto_names.specs.Files.{has_package};
ghost use Rattle.proto_names.specs.Holders.{IsPast};
ghost use Rattle.proto_resolve.specs.Views.{IsView};

use crate::index::Index;
use crate::view::View;
use proto_decls::NameParts;
use proto_names::{is_within, last_within, later};
use sqlite_items::Items;
use std::alloc::{AllocError, Global};

// The files that a file sees.
pub fn view_of<I: Index>(index: &I, file: usize) -> Result<View, AllocError>
    requires { file < length (I.files index.now) }
    ensures file { IfOk result (λ v. v.file ≡ file) }
    ensures files { IfOk result (λ v. v.files ≡ view_of (graph_of (I.files index.now)) file) }
    ensures is_view { IfOk result (IsView (I.files index.now)) }
{
    let files = Items::from_vec(index.graph().visible(file)?);
    Ok(View { file, files })
}

// Whether one of the files has the package.
fn have_package<I: Index>(index: &I, files: &[usize], name: NameParts<'_>) -> bool
    requires { All (λ g. g < length (I.files index.now)) files.now }
    ensures { result ≡ list_any (has_package (I.files index.now) (joined name.entry.scope.now name.entry.last.now)) files.now }
{
    for &file in files {
        if is_within(name, &index.facts(file).package) {
            return true;
        }
    }
    false
}

// A view of up to so many files is walked: that takes less time than to look up who has a package.
const FEW: usize = 16;

// Whether a file of the view has the package. The shorter list is walked: that of the files that have it, or the view.
pub fn sees_package<I: Index>(index: &I, view: &View, name: NameParts<'_>) -> bool
    requires { IsView (I.files index.now) view.now }
    ensures { result ≡ list_any (has_package (I.files index.now) (joined name.entry.scope.now name.entry.last.now)) view.now.files }
{
    if view.files.len() <= FEW {
        return have_package(index, view.files.as_slice(), name);
    }
    let packaged = index.packaged(name);
    if packaged.len() <= view.files.len() {
        view.has_one_of(packaged)
    } else {
        have_package(index, view.files.as_slice(), name)
    }
}

// A place behind which no front part of a scope, of these lengths, has in it a package of the name that the view sees.
pub fn last_package<I: Index>(
    index: &I,
    view: &View,
    scope: &[u8],
    lengths: &[usize],
    name: &str,
) -> Option<usize>
    requires view { IsView (I.files index.now) view.now }
    requires ascending { IsNonDecreasing lengths.now }
    requires within { All (λ l. l ≤ length scope.now) lengths.now }
    ensures { IsPast (λ l. list_any (has_package (I.files index.now) (joined (take l scope.now) name.now)) view.now.files) lengths.now result }
{
    let mut place = None;
    for &file in view.files.as_slice() {
        let package = &index.facts(file).package;
        place = later(place, last_within(package, scope, lengths, name));
    }
    place
}
