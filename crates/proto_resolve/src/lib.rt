//! What the names of a file mean, by the declarations that it sees: an index of all files, a text and its tree in, uses and
//! diagnostics out.
//!
//! `resolve_file` asks an [`Index`] for facts, imports and declarations by name; a [`Table`] is such an index, over the tables of `proto_names`. What is found
//! at a full name, and what a name means in its scopes, stands in specs/Names.antt; which names a file has in
//! specs/Sites.antt; the diagnostics 401 to 406 in specs/ViewDiagnostics.antt. The law `finding_law` says what is found at a full
//! name as the relation in specs/Finding.antt, without a search; `scope_law` says that a name is looked for in the innermost
//! scope that settles it, and `uses_law` that each component of a name with a meaning has one use. `seen_law` says that what is
//! known of a file by what it sees depends on no more than that. `diagnostic_law` says for what reason each of the
//! diagnostics 401 to 406 is there, and that there is no other.
#![tactic(auto)]

mod alone;
mod by_threads;
mod diagnostic_laws;
mod diagnostics;
mod fault;
mod finding;
mod finding_laws;
mod full_names;
mod index;
mod laws;
mod outline;
mod resolve;
mod resolver;
mod scope_chain;
mod scopes;
mod site;
mod sites;
mod table;
mod table_base;
mod table_change;
mod target;
mod uses;
mod view;
mod views;

pub use diagnostic_laws::diagnostic_law;
pub use fault::TableFault;
pub use finding_laws::finding_law;
pub use index::Index;
pub use laws::{scope_law, seen_law, uses_law};
pub use outline::same_imports;
pub use proto_names::{DeclRef, NameEntries, NameTable, PackagedFile, same_exports};
pub use resolve::{Links, resolve_file};
pub use table::Table;
pub use table_change::TableChange;
pub use target::Target;
pub use uses::NameUse;
