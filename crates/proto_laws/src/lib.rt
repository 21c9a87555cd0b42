//! Laws of what Protocol Buffers texts (proto3) say, of their trees, their facts and their names, each a function that does nothing
//! and whose contract is the law.
//!
//! Trees. `items_law`: the statements of a body are its tokens joined, each up to the least place at which it ends.
//! `brackets_law`: the test for brackets in pairs passes what their grammar has. `headers_law` and `statements_law`: as a
//! header, or as a statement without a block, exactly what is spelled as Grammar.antt of `proto_tree` says is read.
//! `trees_law`: a text is read as the one tree that the rules for items and blocks say; `blocks_law`: a block that is cut out of
//! its body ends in `}`. `size_law`: a text of over 16,777,216 bytes has the tree of the empty text. `names_law`: the names that
//! statements declare, those inside a block behind the block's own, start at ascending offsets. `type_names_law`: so do the names
//! of types, and their components. `names_apart`: no two names touch. `identifiers_law`: declared names, and the components of
//! types and packages, are identifiers of the text. `other_trees_law`: a text that isn't proto3 is read for what it declares as the one tree
//! that rules in the words of proto2 and of the editions say. `other_names_law`: of such a text, declared names stand in order, no
//! two names touch, and each is an identifier.
//!
//! Facts. `one_value_of_facts`: what the facts of a text are, as a relation, has one value. `one_list_in_order`: so has the order of
//! diagnostics; `problems_in_order`: their kinds stand in the order of their numbers and words. `decls_in_order`: the
//! declarations of a text stand by the offsets of their names; `names_nest`: so do their full names nest. `parents_hold`: the
//! parent of a declaration is the one whose body declares it. `names_have_scopes`: its full name is its scope and its name.
//! `names_are_identifiers`: names are made of identifiers. `diagnostics_are_said`: the diagnostics of a file are those that a rule for
//! each of their numbers says.
//!
//! Names that stand for something. `names_stand_in_scopes`: which types of a file are names, and in which scopes each is looked
//! up. `names_in_order` and `uses_in_order`: the names of a text, their components and their uses stand by their offsets.
#![tactic(auto)]

mod fact_laws;
mod identifier_laws;
mod name_laws;
mod order_laws;
mod tree_laws;

pub use fact_laws::{
    decls_in_order, diagnostics_are_said, names_have_scopes, names_nest, one_list_in_order,
    one_value_of_facts, parents_hold, problems_in_order,
};
pub use identifier_laws::names_are_identifiers;
pub use name_laws::names_stand_in_scopes;
pub use order_laws::{names_in_order, uses_in_order};
pub use tree_laws::{
    blocks_law, brackets_law, headers_law, identifiers_law, items_law, names_apart, names_law,
    other_names_law, other_trees_law, size_law, statements_law, trees_law, type_names_law,
};
