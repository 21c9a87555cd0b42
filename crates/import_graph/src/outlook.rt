// Whether two graphs say the same of a file.

ghost use Rattle.std.specs.Prelude.{◌≡◌, ◌<◌, ◌↔◌, length, IfOk, IsTrue};
ghost use Rattle.import_graph.specs.Imports.{edges_at, target_at};
ghost use Rattle.import_graph.specs.Outlooks.{import_outlook, imports_outlook, outlook};

use crate::graph::Graph;
use crate::paths::FileNo;
use std::alloc::AllocError;

fn is_import_alike(a: &Graph, b: &Graph, file: FileNo, import: usize) -> Result<bool, AllocError>
    requires a_file { file < length a.now }
    requires b_file { file < length b.now }
    requires a_import { import < length (edges_at a.now file) }
    requires b_import { import < length (edges_at b.now file) }
    ensures { IfOk result (λ alike. IsTrue alike ↔ (import_outlook a.now file (target_at a.now file import) ≡ import_outlook b.now file (target_at b.now file import))) }
{
    let close_alike = a.closes_cycle(file, import)? == b.closes_cycle(file, import)?;
    Ok(close_alike && a.import_of(file, import) == b.import_of(file, import))
}

fn are_imports_alike(a: &Graph, b: &Graph, file: FileNo) -> Result<bool, AllocError>
    requires a { file < length a.now }
    requires b { file < length b.now }
    ensures { IfOk result (λ alike. IsTrue alike ↔ (imports_outlook a.now file ≡ imports_outlook b.now file)) }
{
    let count = a.import_count(file);
    if count != b.import_count(file) {
        return Ok(false);
    }
    for import in 0..count {
        if !is_import_alike(a, b, file, import)? {
            return Ok(false);
        }
    }
    Ok(true)
}

/// Whether two graphs say the same of a file: it sees the same files in both, its view is closed in both or in neither, and
/// its imports, in order, name the same files and close cycles alike. `Err` where memory was refused.
pub fn same_outlook(a: &Graph, b: &Graph, file: FileNo) -> Result<bool, AllocError>
    requires a { file < length a.now }
    requires b { file < length b.now }
    ensures { IfOk result (λ alike. IsTrue alike ↔ (outlook a.now file ≡ outlook b.now file)) }
{
    let seen = a.visible(file)?;
    let other = b.visible(file)?;
    if seen.as_slice() != other.as_slice() {
        return Ok(false);
    }
    if a.are_complete(seen.as_slice()) != b.are_complete(other.as_slice()) {
        return Ok(false);
    }
    are_imports_alike(a, b, file)
}
