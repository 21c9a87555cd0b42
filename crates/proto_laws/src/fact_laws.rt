// Laws of diagnostics and of facts. Each is proved for all lists, texts and trees, and its function does nothing.
ghost use Rattle.std.specs.List.Sorted.{IsStrictlyIncreasing};
ghost use Rattle.std.specs.Prelude.{◌≡◌, ℕ, Bool, List, map};
ghost use Rattle.proto_tree.specs.declared.node.FileTree.{FileTree};
ghost use Rattle.proto_decls.specs.declared.diagnostic.Diag.{Diag};
ghost use Rattle.proto_decls.specs.declared.fact.FileFacts.{FileFacts};
ghost use Rattle.proto_decls.specs.declared.problem.Problem.{Problem};
ghost use Rattle.proto_decls.specs.Facts.{AreFacts, facts_by, facts_in, facts_of};
ghost use Rattle.proto_decls.specs.Problems.{problem_order, variant_order};
ghost use Rattle.proto_laws.specs.FileDiagnostics.{DiagnosticsAreSaid};
ghost use Rattle.proto_laws.specs.Parents.{ParentsHold};
ghost use Rattle.proto_laws.specs.Scopes.{NamesHaveScopes};
ghost use Rattle.proto_tree.specs.Read.{value_tree};
ghost use Rattle.proto_decls.specs.Nesting.{NamesNest};
ghost use Rattle.proto_decls.specs.Order.{IsListOf, in_order as ordered};

use crate::tree_laws::{identifiers_law, names_law, other_names_law, size_law};

/// A law: the variants of `Problem` stand in the order of their numbers, and those of one number in that of their words.
pub fn problems_in_order()
    ensures { (a b : Problem) → variant_order a b ≡ problem_order a b }
{}

/// A law: `in_order` gives the one list that has each of the diagnostics once, in order, and no others.
pub fn one_list_in_order()
    ensures list { (all : List Diag) → IsListOf all (ordered all) }
    ensures only { (all diags : List Diag) → IsListOf all diags → diags ≡ ordered all }
{}

/// A law: `facts` gives the one value that says of a text and a tree what its facts are.
pub fn one_value_of_facts()
    ensures value { (text : List ℕ) (tree : FileTree) → AreFacts text tree (facts_in text tree) }
    ensures only { (text : List ℕ) (tree : FileTree) (f : FileFacts) → AreFacts text tree f → f ≡ facts_in text tree }
{}

/// A law: the declarations of a text stand in the order of their names: each name starts before the next one.
pub fn decls_in_order()
    ensures { (text : List ℕ) → IsStrictlyIncreasing (map (λ d. d.name_span.start) (facts_of text).decls) }
{
    names_law();
}

/// A law: the parent of a declaration of a text stands before it and is the message, enum, service or oneof whose body declares
/// it. One without a parent is declared by the file itself, and no declaration's body declares it.
pub fn parents_hold()
    ensures { (text : List ℕ) → ParentsHold (value_tree text).nodes (facts_of text).decls }
{
    decls_in_order();
}

/// A law: the declarations of a text nest. Each full name that a declaration lies in is declared too, or is the package or one that the
/// package lies in. So it is in a text that isn't proto3, and is read for what it declares.
pub fn names_nest()
    ensures { (reads_others : Bool) (text : List ℕ) → NamesNest (facts_by reads_others text) }
{
    identifiers_law();
    other_names_law();
    size_law();
}

/// A law: the full name of a declaration of a text is its name in the scope of the message or service that holds it, or else of the
/// package, and its kind is that of the statement that declares it. An enum and a oneof add nothing to the scope, so the values of
/// an enum are its siblings. In a proto3 file each name that a statement declares is that of a declaration.
pub fn names_have_scopes()
    ensures { (text : List ℕ) → NamesHaveScopes text (value_tree text).nodes (facts_of text) }
{}

/// A law: the diagnostics of a text and a tree, 201 to 318, are those that a rule for each of them says of its statements, in
/// integers, and no others.
pub fn diagnostics_are_said()
    ensures { DiagnosticsAreSaid }
{}
