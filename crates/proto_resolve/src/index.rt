// What has to be known of all files.
use import_graph::Graph;
use proto_decls::{FileFacts, FullName, NameParts};
use proto_names::{DeclRef, PackagedFile};
use std::marker::Sync;

/// The facts of all files, with their declarations by name. A file is its number in the list of all files, by path,
/// counted from 0. Several threads may read an index at once.
pub trait Index: Sync {
    ghost use Rattle.std.specs.Prelude.{List, All, ◌≡◌, ◌<◌, ◌≤◌, false, take, length, map};
    ghost use Rattle.std.specs.List.Sorted.{IsNonDecreasing};
    ghost use Rattle.proto_decls.specs.Text.{joined};
    ghost use Rattle.proto_decls.specs.declared.named_facts.NamedFacts.{NamedFacts};
    ghost use Rattle.import_graph.specs.Imports.{graph_of};
    ghost use Rattle.proto_names.specs.Files.{facts_at, all_named};
    ghost use Rattle.proto_names.specs.Holders.{is_held, IsLast};
    ghost use Rattle.proto_decls.specs.FullNames.{has_dot};
    ghost use Rattle.proto_names.specs.Packages.{AreThoseWith};

    /// The files, by path.
    ghost files: { Self → List NamedFacts };

    /// Which file imports which.
    fn graph(&self) -> &Graph
        ensures { result.now ≡ graph_of (files self.now) };

    /// The facts of a file.
    fn facts(&self, file: usize) -> &FileFacts
        requires { file < length (files self.now) }
        ensures { result.now ≡ facts_at (files self.now) file };

    /// The declarations of a full name, by path, then offset.
    fn named(&self, full_name: &str) -> &[DeclRef]
        ensures { result.now ≡ all_named (files self.now) full_name.now };

    /// The declarations with this full name, by path, then offset.
    fn declared_as(&self, full_name: &FullName) -> &[DeclRef]
        ensures { result.now ≡ all_named (files self.now) full_name.now };

    /// The files that have a package, given by its full name in two parts: those whose package it is and those whose package lies in it.
    fn packaged(&self, full_name: NameParts<'_>) -> &[PackagedFile]
        ensures { AreThoseWith (files self.now) (joined full_name.entry.scope.now full_name.entry.last.now) (map (λ p. p.file) result.now) };

    /// The longest front part of a scope, of these lengths, in which a message, an enum or a service of the name is declared:
    /// the length's place in the list. The name has no dot.
    fn last_held(&self, scope: &str, lengths: &[usize], name: &str) -> Option<usize>
        requires ascending { IsNonDecreasing lengths.now }
        requires within { All (λ l. l ≤ length scope.now) lengths.now }
        requires plain { has_dot name.now ≡ false }
        ensures { IsLast (λ l. is_held (files self.now) (joined (take l scope.now) name.now)) lengths.now result };
}
