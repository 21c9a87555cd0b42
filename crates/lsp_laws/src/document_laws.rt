// Laws of documents with edits. Each is proved for all workspaces, and its function does nothing.
ghost use Rattle.lsp_laws.specs.DocumentLaws.{GroupsAreTheFiles, RenamesEditTheWorkspace, RenamesEditUnderUris, RenamesRespellDocuments};

use lsp_queries::{places_apart, places_in_order};
use lsp_renames::meaning_law;
use lsp_rpc::edit_ranges;
use work_laws::renames_change_the_names;

/// A law: places whose files ascend are put together as one group for each file with a place, in ascending order, with all in it.
pub fn files_once()
    ensures { GroupsAreTheFiles }
{}

/// A law: in UTF-8 texts a rename's edits are one document for each file with a place of it. Made from the last to the first, they give
/// the file's text the new name at all of the places in it, and change nothing else.
pub fn documents_of_a_rename()
    ensures { RenamesRespellDocuments }
{
    files_once();
    places_in_order();
    renames_change_the_names();
}

/// A law: in UTF-8 texts a rename's edits, each document's in its own file, make the workspace with the new name at all of its places.
/// In that workspace all meanings are as they were. If no two files have one URI, the edits that the reply has under the URI of each
/// file make the same one, and it has none under other URIs.
pub fn renames_edit_the_workspace()
    ensures files { RenamesEditTheWorkspace }
    ensures uris { RenamesEditUnderUris }
{
    documents_of_a_rename();
    meaning_law();
    places_apart();
    edit_ranges();
}
