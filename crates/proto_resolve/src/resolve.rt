// The names of a file, resolved.
ghost use Rattle.std.specs.Prelude.{◌≡◌, ◌<◌, length, IfOk};
ghost use Rattle.proto_decls.specs.Order.{in_order};
ghost use Rattle.proto_resolve.specs.Resolved.{resolved};

use crate::alone::are_alone;
use crate::diagnostics::{import_diagnostics, view_diagnostics};
use crate::index::Index;
use crate::sites::names_of_file;
use crate::uses::{NameUse, copy_uses, resolve_names};
use crate::views::view_of;
use proto_decls::{Diag, fitted, in_order};
use proto_tree::FileTree;
use sqlite_items::Items;
use std::alloc::{AllocError, Global};

/// What is known of a file by what it sees.
#[derive(Debug, Drop)]
pub struct Links {
    /// One for each component of each name that has a meaning, by offset.
    pub uses: Items<NameUse>,
    /// The diagnostics 401 to 406, each once, by start, end, number and words.
    pub diags: Items<Diag>,
}

impl Links {
    /// The same, in memory of their own. An `Err` comes only where memory was refused.
    pub fn copy(&self, alloc: Global) -> Result<Links, AllocError>
        ensures { IfOk result (λ links. links ≡ self.now) }
    {
        Ok(Links {
            uses: copy_uses(alloc, self.uses.as_slice())?,
            diags: Items::from_slice(alloc, self.diags.as_slice())?,
        })
    }
}

// Uses, and diagnostics in order.
fn ordered_links(
    alloc: Global,
    uses: Items<NameUse>,
    found: &Items<Diag>,
) -> Result<Links, AllocError>
    ensures uses { IfOk result (λ l. l.uses ≡ uses) }
    ensures diags { IfOk result (λ l. l.diags ≡ in_order found.now) }
{
    Ok(Links {
        uses,
        diags: in_order(alloc, found.as_slice())?,
    })
}

/// What the names of a file of the index mean, given its number from 0, its text and its tree: the uses by offset, and the
/// diagnostics 401 to 406, each once, by start, end, number and words. An `Err` comes only where memory was refused.
pub fn resolve_file<I: Index>(
    alloc: Global,
    index: &I,
    file: usize,
    text: &str,
    tree: &FileTree,
) -> Result<Links, AllocError>
    requires { file < length (I.files index.now) }
    ensures { IfOk result (λ l. l ≡ resolved (I.files index.now) file text.now tree.now) }
{
    let facts = index.facts(file);
    let sites = names_of_file(alloc, text, facts, tree.nodes.as_slice())?;
    // A file without imports sees itself alone, so there is nothing to search.
    let imports_without_names = sites.is_empty() && !facts.imports.is_empty();
    if imports_without_names && are_alone(index, file, facts.decls.as_slice()) {
        // Nothing depends on what the file sees, so that isn't searched.
        let found = import_diagnostics(alloc, index, file)?;
        return ordered_links(alloc, Items::new(alloc), &found);
    }
    let view = view_of(index, file)?;
    let names = resolve_names(alloc, index, &view, sites.as_slice())?;
    let found = view_diagnostics(alloc, index, &view, names.diagnostics)?;
    ordered_links(alloc, fitted(alloc, names.uses)?, &found)
}
