// What is wrong in a file.
ghost use Rattle.std.specs.Prelude.{◌≡◌, ◌<◌, Some, length};
ghost use Rattle.std.specs.List.{slice_get};

use import_graph::FileNo;
use proto_decls::Diag;
use work_index::Analysis;

/// The diagnostics 201 to 406 of a file, each once, by start, end, number and words. Takes no memory.
pub fn report(analysis: &Analysis, file: FileNo) -> &[Diag]
    requires { file < length analysis.now.paths }
    ensures { slice_get analysis.now.diagnostics file ≡ Some result.now }
{
    analysis.diagnostics(file)
}
