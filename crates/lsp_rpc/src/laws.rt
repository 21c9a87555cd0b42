// Laws of the definitions that the contracts cite. Each is a function with nothing to do, whose clause
// is the law.
ghost use Rattle.lsp_rpc.specs.Laws.{OnlyJsonIsRead, BatchesAreInvalid, RequestsAreCalls, NotificationsAreCalls, TheFirstEncodingCounts, PullingIsDeclared, ResultText, ErrorText, InitializeText, DiagnosticText, ReportText, WorkspaceText, PublicationText, LocationsText, SymbolsText, UrisStandOnce, RangesAreKept, WorkspaceEditText};

/// A law: what is answered as a parse error is what is no JSON text, and nothing else.
pub fn parse_errors()
    ensures { OnlyJsonIsRead }
{}

/// A law: a batch is an invalid request, whatever it holds.
pub fn batches()
    ensures { BatchesAreInvalid }
{}

/// A law: a body is taken as a request if it is one by its own members, and in no other case.
pub fn requests()
    ensures { RequestsAreCalls }
{}

/// A law: a body is taken as a notification if it is one by its own members, and in no other case. What has an id is none, whatever
/// the id is.
pub fn notifications()
    ensures { NotificationsAreCalls }
{}

/// A law: the encoding is the one that the editor's list names first. Names that aren't encodings' and entries that aren't strings
/// don't count. It is UTF-16 if the list names none, or there is no such list.
pub fn encodings()
    ensures { TheFirstEncodingCounts }
{}

/// A law: an editor asks for diagnostics if it declares that capability by any value but `null`, and in no other case.
pub fn pulling()
    ensures { PullingIsDeclared }
{}

/// A law: the bytes of a reply with a result.
pub fn result_text()
    ensures { ResultText }
{}

/// A law: the bytes of a reply with an error.
pub fn error_text()
    ensures { ErrorText }
{}

/// A law: the bytes of the result of `initialize`, around the name of the encoding.
pub fn initialize_text()
    ensures { InitializeText }
{}

/// A law: the bytes of a diagnostic.
pub fn diagnostic_text()
    ensures { DiagnosticText }
{}

/// A law: the bytes of a report.
pub fn report_text()
    ensures { ReportText }
{}

/// A law: the bytes of the reports of a workspace.
pub fn workspace_text()
    ensures { WorkspaceText }
{}

/// A law: the bytes of the notification that publishes diagnostics, which has no `version` if there is none.
pub fn publication_text()
    ensures { PublicationText }
{}

/// A law: the bytes of the places in documents.
pub fn locations_text()
    ensures { LocationsText }
{}

/// A law: the bytes of declarations, of which one in the empty scope has no `containerName`.
pub fn symbols_text()
    ensures { SymbolsText }
{}

/// A law: the URIs of edits stand in the order of their bytes, each once.
pub fn edit_uris()
    ensures { UrisStandOnce }
{}

/// A law: a URI has the ranges of all documents that have it, in order, but for those that an earlier one has.
pub fn edit_ranges()
    ensures { RangesAreKept }
{}

/// A law: the bytes of edits.
pub fn workspace_edit_text()
    ensures { WorkspaceEditText }
{}
