// What the definitions of answers say, beside what the code meets.
ghost use Rattle.lsp_answers.specs.Reports.{ReportsAgreeWithDocuments, PublicationsAgreeWithReports};

/// A law. Of files whose paths ascend, the report of each one in the reports of all has the diagnostics that a question for its
/// document gets.
pub fn reports_agree_with_documents()
    ensures { ReportsAgreeWithDocuments }
{}

/// A law. Of files whose paths ascend, the reports that are published are those of the open documents in the reports of all: the same
/// diagnostics, URIs and versions, in the same order.
pub fn publications_agree_with_reports()
    ensures { PublicationsAgreeWithReports }
{}
