// Laws of the definitions. Each is proved for all files and names, and its function does nothing.
ghost use Rattle.proto_resolve.specs.Laws.{ScopeLaw, UsesLaw};
ghost use Rattle.proto_resolve.specs.Seen.{SeenLaw};

/// A law: a name without a leading dot has as its scope the innermost one that settles it, and none where no scope does.
pub fn scope_law()
    ensures { ScopeLaw }
{}

/// A law: a name without a meaning has no uses, and a name with a meaning has one for each of its components, in order, of what
/// is found at the full name up to that component. It asks that the names of each file nest, that the file sees itself, and that
/// no component is empty.
pub fn uses_law()
    ensures { UsesLaw }
{}

/// A law: what is known of a file by what it sees depends on no more than that. It is the same in two lists of as many files,
/// where the imports say the same of it, where the file says the same by itself, and where each file that it sees has the same
/// kinds and full names of declarations, in order, and the same package.
pub fn seen_law()
    ensures { SeenLaw }
{}
