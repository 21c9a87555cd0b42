// Laws of the definitions that the contracts cite. Each is a function with nothing to do, whose clause is the law.
ghost use Rattle.workspace_uri.specs.Laws.{FoldersHaveWrittenRoots, FileUrisLeadBack, FileUrisOfSeveralRoots};

/// A law: the root of a folder, which is `file://`, the folder's escaped path and `/`, is written as its URL is, if the path has no `.`,
/// no `..` and no empty component. So is `file:///`.
pub fn folders_have_written_roots()
    ensures { FoldersHaveWrittenRoots }
{}

/// A law: the URI of a file leads back to its path, where the root is written as its URL is and the root's folder is UTF-8.
pub fn file_uris_lead_back()
    ensures { FileUrisLeadBack }
{}

/// A law: with several roots the URI of a file leads back to its path unless it also lies below an earlier root, or the path is that
/// of a file of an earlier root.
pub fn file_uris_of_several_roots()
    ensures { FileUrisOfSeveralRoots }
{}
