//! Who sees whom: which file each import names, which files a file sees, and which imports close cycles.
//!
//! `Graph::of` takes the files of a workspace, each with its path and its facts, in the order of their paths. A file is a
//! number from then on, its place in that list, counted from 0. An import names the file whose path is its text. A file
//! sees itself, the files that it imports, and what public imports lead to from there. The definitions are in specs/:
//! Imports.antt says what imports name, Views.antt what is seen and reached as walks from file to file, and Closures.antt
//! gives the same as functions of the graph; the laws say that both agree. Outlooks.antt says what a graph says of one file,
//! which `same_outlook` compares. Where files come or leave, the others get other numbers: Moves.antt says what it is for a file
//! to look as before under the new ones, which `moved_outlook` tests. Arrivals.antt speaks of one more file that no other imports: for
//! the others all is as before but for their numbers.
//!
//! Which files lead to one another is found once, when the graph is made; that tells whether an import closes a cycle, and
//! where it could not, a search would. What a file sees is searched when it is asked for, in time that grows with what the search meets:
//! the file's imports, the files that it sees, and their steps, which are kept once for files that public imports lead to one another.
//! Which files see a file is searched back over the same steps, in time that grows with all files and imports.
#![tactic(auto)]

mod arrivals;
mod coming;
mod components;
mod condensed;
mod file_search;
mod graph;
mod imports;
mod laws;
mod moves;
mod outlook;
mod paths;
mod seen_by;
mod shared;
mod ties;
mod tour;

pub use arrivals::arrival_law;
pub use graph::Graph;
pub use imports::{FileImports, ImportEdge};
pub use laws::{closure_law, one_view, view_law};
pub use moves::moved_outlook;
pub use outlook::same_outlook;
pub use paths::{FileNo, are_in_path_order, number_of, place_for};
pub use proto_decls::{NamedFacts, SharedFacts};
