// What the definitions of renaming say, beside what the code meets.
ghost use Rattle.lsp_renames.specs.Cutting.{PlacesAreCutOut};
ghost use Rattle.lsp_renames.specs.RenamingLaws.{FullNameScopeLaw, IdentifierFormLaw, RefusedForMeaning, RenamesKeepMeaning, TakenLaw, UnknownUsesLaw};

use proto_laws::{identifiers_law, names_apart, other_names_law, size_law, uses_in_order};

/// A law. What renaming takes for an identifier is what the lexer reads as one name, from its first byte to its last.
pub fn identifier_form_law()
    ensures { IdentifierFormLaw }
{}

/// A law. The scope of a full name is the one that its last component was joined to.
pub fn full_name_scope_law()
    ensures { FullNameScopeLaw }
{}

/// A law. A full name is taken exactly if another declaration of the workspace has it, or the package of one of the files is it or
/// lies in it.
pub fn taken_law()
    ensures { TakenLaw }
{}

/// A law. A file's declarations may have unknown uses exactly if it, or a file that sees it, isn't proto3 and is read for what it declares.
pub fn unknown_uses_law()
    ensures { UnknownUsesLaw }
{}

/// A law. Where a rename isn't refused all meanings stay. It is refused because a meaning changes exactly if one does, and no other
/// refusal fits.
pub fn meaning_law()
    ensures keeps { RenamesKeepMeaning }
    ensures refused { RefusedForMeaning }
{}

// A law: the places of a declaration are in order, none overlaps another, and each can be cut out of the text of its
// file, if that is UTF-8.
pub fn places_cut_out()
    ensures { PlacesAreCutOut }
{
    identifiers_law();
    names_apart();
    other_names_law();
    size_law();
    uses_in_order();
}
