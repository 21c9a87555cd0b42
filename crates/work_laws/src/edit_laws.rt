// Laws of the edits of a rename. Each is proved for all texts or workspaces, and its function does nothing.
ghost use Rattle.work_laws.specs.EditLaws.{ChangesEdit, EditsChangeThePlaces, RenamesChangeTheNames};

use doc_text::{changes_keep_utf8, round_trips};
use lsp_queries::places_apart;
use lsp_renames::identifier_form_law;
use proto_laws::{identifiers_law, other_names_law, size_law};

/// A law: changes of a UTF-8 text that give a name to each of some places, the last one made first, put it there and keep all the
/// rest, if no two of the places touch and each can be cut out. That is one which starts and ends between two characters and not
/// inside a line end.
pub fn edits_change_the_places()
    ensures places { EditsChangeThePlaces }
    ensures edits { ChangesEdit }
{
    round_trips();
    changes_keep_utf8();
}

/// A law: in UTF-8 texts the changes of a rename put the new name at each of its places in a file and keep all the rest.
pub fn renames_change_the_names()
    ensures { RenamesChangeTheNames }
{
    edits_change_the_places();
    places_apart();
    identifier_form_law();
    identifiers_law();
    other_names_law();
    size_law();
}
