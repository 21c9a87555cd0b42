// Where the declaration is that a name stands for.
ghost use Rattle.std.specs.Prelude.{◌≡◌};
ghost use Rattle.lsp_queries.specs.Answers.{definition};

use crate::files::place_of;
use crate::offsets::declaration_at;
use crate::place::Place;
use import_graph::FileNo;
use work_index::Analysis;

/// Where the name of the declaration stands that the name at a byte offset of a file stands for. `None` if no name is there,
/// or one that stands for a package. Takes no memory.
pub fn definition(analysis: &Analysis, file: FileNo, offset: usize) -> Option<Place>
    ensures { result ≡ definition analysis.now file offset }
{
    place_of(analysis, declaration_at(analysis, file, offset)?)
}
