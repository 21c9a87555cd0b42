// The law of the names of a file. It is proved for all texts and trees, and its function does nothing.
ghost use Rattle.proto_laws.specs.NameScopes.{NamesStandInScopes, NoPackageIsEmpty, PackagesArePrefixes};

/// A law: the names of a proto3 file are the types of its fields and of its maps' values that aren't scalars, the targets of its
/// `extend` blocks and both types of its rpcs, each in the scopes of what holds it, and no others. The scopes of a name are, innermost
/// first, the full names of the messages or of the service that hold it, then the package and its shorter prefixes, then the empty one.
pub fn names_stand_in_scopes()
    ensures names { NamesStandInScopes }
    ensures no_package { NoPackageIsEmpty }
    ensures packages { PackagesArePrefixes }
{}
