// Laws of what a change of declarations or of the numbers of files leaves as it was. Each is proved for all files, and its function does nothing.
ghost use Rattle.work_links.specs.Laws.{AskedLaw, MovedLaw, TouchedLaw};

/// A law: what is known of a file by what it sees depends, of all declarations, on those of the full names for which it asks. If
/// they are the same but for their numbers, what is known is the same but for these.
pub fn asked_law()
    ensures { AskedLaw }
{}

/// A law: a file that asks for no touched name is linked after a change of another file as before, but for the numbers of
/// declarations.
pub fn touched_law()
    ensures { TouchedLaw }
{}

/// A law: a file that sees the same files as before, with the same facts, under other numbers, is linked as before, but for the
/// numbers of files.
pub fn moved_law()
    ensures { MovedLaw }
{}
