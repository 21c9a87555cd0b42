//! The declarations of files by their full names, and the files that have packages.
//!
//! A file is its number in a list of files, counted from 0. [`NameTable::of`] takes what [`NameEntries::of`] makes of files, and answers the declarations of a
//! full name, or the innermost scope in which something of a name may hold others. It stays in step as a file changes, comes or leaves.
//! Who sees whom is no matter here, nor what a name means.
#![tactic(auto)]

mod buckets;
mod decl_ref;
mod decls;
mod entry_order;
mod hashed;
mod holders;
mod kept;
mod moving;
mod name_entries;
mod name_table;
mod naming;
mod outline;
mod packages;
mod replacing;

pub use buckets::Buckets;
pub use decl_ref::DeclRef;
pub use decls::{all_decls, insert_decls, replace_decls};
pub use hashed::HashedDecl;
pub use holders::is_holder;
pub use name_entries::NameEntries;
pub use name_table::{NameTable, holders_in_buckets, names_in_buckets};
pub use outline::{have_one_name, same_exports};
pub use packages::{
    PackagedFile, add_packaged, is_within, last_within, later, longest_of, longest_with,
    of_package, packaged_files, unsplit,
};
