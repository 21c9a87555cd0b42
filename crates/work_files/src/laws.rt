// What the definitions of files say, beside what the code meets.
ghost use Rattle.work_files.specs.Files.{TextsAreOfTheWorkspace, FilesStayInPathOrder, FilesInPathOrderAreApart};
ghost use Rattle.work_files.specs.Roots.{RootsStay, FoundFilesStayKept};
ghost use Rattle.work_files.specs.Texts.{TextsChangeAtOnePath};

/// A law. Of files that have different paths the text at a path is that of the workspace's file there: what a request
/// asks for is a document of the workspace, and no other.
pub fn texts_are_of_the_workspace()
    ensures { TextsAreOfTheWorkspace }
{}

/// A law. The paths of files on disk ascend, and those of files whose paths ascend still do after an open, a change, a
/// save and a close.
pub fn files_stay_in_path_order()
    ensures { FilesStayInPathOrder }
{}

/// A law. Files whose paths ascend have different paths.
pub fn files_in_path_order_are_apart()
    ensures { FilesInPathOrderAreApart }
{}

/// A law. An open, changes, a save and a close of a document change the text of its path alone: an open gives it the document's
/// text, and a save changes none.
pub fn documents_change_one_text()
    ensures { TextsChangeAtOnePath }
{}

/// A law. At the start the root of a path is that of the first file on disk there, and it stays: an open, changes and a save of a
/// document change the root of no path, and a close doesn't if each file that was found under a root has a kept text. Files from disk have
/// one, and an open, changes, a save and a close leave them one.
pub fn roots_stay()
    ensures roots { RootsStay }
    ensures kept { FoundFilesStayKept }
{}
