// The imports because of which files aren't checked for unknown names.
ghost use Rattle.std.specs.Prelude.{◌≡◌, ◌<◌, length, slice_get, All, IfOk};
ghost use Rattle.std.specs.List.{enumerate_from, flat_map};
ghost use Rattle.proto_names.specs.Files.{imports_at};
ghost use Rattle.work_shares.specs.Unchecked.{lost_path, lost_paths, first_lost, UncheckedLaw};

use import_graph::FileNo;
use proto_decls::{ImportFact, Name};
use proto_resolve::{Index, Table};
use std::alloc::{AllocError, Global};

// The path in the first of a file's imports that names no analysed file.
fn lost_path(
    alloc: Global,
    table: &Table,
    file: FileNo,
    imports: &[ImportFact],
) -> Result<Option<Name>, AllocError>
    requires file { file < length table.now }
    requires imports { imports.now ≡ imports_at table.now file }
    ensures { IfOk result (λ path. path ≡ slice_get (flat_map (lost_path table.now file) (enumerate_from 0 imports.now)) 0) }
{
    for (number, import) in imports.iter().enumerate() {
        if !table.graph().names_analysed(file, number) {
            return Ok(Some(import.path.copy(alloc)?));
        }
    }
    Ok(None)
}

// The path in the first import of some files, one file after the other, that names no analysed file.
fn lost_path_in(alloc: Global, table: &Table, files: &[FileNo]) -> Result<Option<Name>, AllocError>
    requires { All (λ file. file < length table.now) files.now }
    ensures { IfOk result (λ path. path ≡ slice_get (flat_map (lost_paths table.now) files.now) 0) }
{
    for &file in files {
        let imports = table.facts(file).imports.as_slice();
        match lost_path(alloc, table, file, imports)? {
            Some(path) => return Ok(Some(path)),
            None => {}
        }
    }
    Ok(None)
}

// The path in the first import of the files that a file sees that names no analysed file.
pub fn first_lost_path(
    alloc: Global,
    table: &Table,
    file: FileNo,
) -> Result<Option<Name>, AllocError>
    requires { file < length table.now }
    ensures { IfOk result (λ path. path ≡ first_lost table.now file) }
{
    let seen = table.graph().visible(file)?;
    lost_path_in(alloc, table, seen.as_slice())
}

/// A law. A file isn't checked for unknown names exactly if, of the files that it sees, an import names no file, or one that isn't analysed.
pub fn unchecked_law()
    ensures { UncheckedLaw }
{}
