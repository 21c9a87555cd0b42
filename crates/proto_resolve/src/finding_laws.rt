// The law of what stands at a full name. It is proved for all names, and its function does nothing.
ghost use Rattle.proto_resolve.specs.FindingLaws.{FindingLaw};

use import_graph::{NamedFacts, view_law};

/// A law: what a file finds at a full name is the first declaration of the name in the files that it sees, its own file
/// first, then by path, then by offset; where there is none, the package of that name if a file that it sees has it; and
/// there is no other such answer.
pub fn finding_law(files: &[NamedFacts])
    ensures { FindingLaw files.now }
{
    view_law(files);
}
