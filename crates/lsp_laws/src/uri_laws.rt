// The law of the URIs of a session's files. It is proved for all sessions, and its function does nothing.
ghost use Rattle.lsp_laws.specs.UriLaws.{RenamesOfASession, UrisOfWrittenRoots, UrisStayApart};

use crate::document_laws::renames_edit_the_workspace;
use work_files::roots_stay;
use workspace_uri::file_uris_of_several_roots;

/// A law: no two files have one URI, whatever messages came, if at the start the URI of each leads back to its path. It still does so
/// then, and the edits that the reply to a rename has under the URI of each file make the workspace with the new name at all places,
/// where the texts are UTF-8. The URIs lead back at the start below roots that are written as their URLs are, if no file's URI lies
/// below a root before the file's own.
pub fn uris_stay_apart()
    ensures stay { UrisStayApart }
    ensures start { UrisOfWrittenRoots }
    ensures renames { RenamesOfASession }
{
    roots_stay();
    file_uris_of_several_roots();
    renames_edit_the_workspace();
}
