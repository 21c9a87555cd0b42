// The law of the uses of names. It is proved for all workspaces, and its function does nothing.
ghost use Rattle.std.specs.Prelude.{All, IsUtf8};
ghost use Rattle.work_laws.specs.UseLaws.{NamesHaveTheirUses};
ghost use Rattle.work_index.specs.Workspace.{Workspace};

use proto_laws::{names_are_identifiers, names_nest};
use proto_resolve::uses_law;

/// A law: in UTF-8 texts a name that means nothing has no uses, and one that means something has one for each of its components, in
/// order, of what is found at the full name up to that component.
pub fn uses_of_names()
    ensures { (w : Workspace) → All (λ file. IsUtf8 file.1.text) w → NamesHaveTheirUses w }
{
    names_are_identifiers();
    names_nest();
    uses_law();
}
