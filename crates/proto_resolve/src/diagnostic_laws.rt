// The law of what is wrong in a file by what it sees. It is proved for all files and names, and its function does nothing.
ghost use Rattle.proto_resolve.specs.DiagnosticLaws.{DiagnosticLaw};

use import_graph::{NamedFacts, view_law};

/// A law: the diagnostics of a file by what it sees are one for each name in a closed view that means nothing (401) or another
/// kind of thing than is needed there (402), for each import that names no file (403) or closes a cycle (404), and for each
/// declaration whose full name another file that it sees declares (405) or is a package of a file that it sees (406); and there
/// is no other.
pub fn diagnostic_law(files: &[NamedFacts])
    ensures { DiagnosticLaw files.now }
{
    view_law(files);
}
