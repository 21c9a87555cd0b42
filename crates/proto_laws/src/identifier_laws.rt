// The law of what the names of a text are made of. It is proved for all texts, and its function does nothing.
ghost use Rattle.proto_decls.specs.IdentifierLaws.{NamesAreIdentifiers, PackagesAreIdentifiers};

use crate::tree_laws::{identifiers_law, size_law};

/// A law: in UTF-8 text an identifier, which is an ASCII letter or an underscore and then ASCII letters, digits and underscores
/// alone, stands at each name that a statement declares, and at each component of a type and of a package.
pub fn names_are_identifiers()
    ensures names { NamesAreIdentifiers }
    ensures packages { PackagesAreIdentifiers }
{
    identifiers_law();
    size_law();
}
