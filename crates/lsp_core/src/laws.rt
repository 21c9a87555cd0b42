// What the definitions of the session say, beside what the code meets.
ghost use Rattle.lsp_core.specs.Session.{ClientStays, FilesAreInPathOrder, DocumentsAreOfTheWorkspace, ReportsAgree, PublicationsAgree};

use lsp_answers::{publications_agree_with_reports, reports_agree_with_documents};

/// A law. Once an `initialize` was answered, no later message changes what is known of the client.
pub fn client_stays()
    ensures { ClientStays }
{}

/// A law. Whatever messages came, the paths of the files that the session knows ascend, so that none comes twice.
pub fn files_are_in_path_order()
    ensures { FilesAreInPathOrder }
{}

/// A law. Whatever messages came, the text that a request for a path is answered on is that of the workspace's file
/// there, and there is none where the workspace has no such file.
pub fn documents_are_of_the_workspace()
    ensures { DocumentsAreOfTheWorkspace }
{}

/// A law. Whatever messages came, the reports of all documents have, by path, the diagnostics that a request for the document
/// at that path gets.
pub fn reports_agree()
    ensures { ReportsAgree }
{
    reports_agree_with_documents();
}

/// A law. Whatever messages came, what would be published is what the reports of all documents say of those that are open: the same
/// diagnostics, URIs and versions, by path.
pub fn publications_agree()
    ensures { PublicationsAgree }
{
    publications_agree_with_reports();
}
