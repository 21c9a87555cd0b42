// The declarations of a file.
ghost use Rattle.std.specs.Prelude.{◌≡◌, All, IfOk, IsFalse};
ghost use Rattle.proto_decls.specs.BytePairs.{HasNeighbours, HasPairs};

use crate::byte_pairs::BytePairs;
use crate::fact::Decl;
use crate::lists::fitted;
use sqlite_items::Items;
use std::alloc::{AllocError, Global};
use std::marker::Model;

/// The declarations of a file, in the order of its text. Contracts see them as a list.
#[derive(Drop)]
pub struct Decls {
    items: Items<Decl>,
    // The pairs of neighbouring bytes in their full names.
    pairs: BytePairs,
}

impl Model for Decls {
    ghost use Rattle.std.specs.Prelude.{List, All};
    ghost use Rattle.proto_decls.specs.BytePairs.{HasPairs};
    ghost use Rattle.proto_decls.specs.declared.fact.Decl.{Decl};

    ghost Value = { List Decl };

    ghost view = { λ d. d.items };

    ghost invariant = { λ d. All (λ decl. HasPairs d.pairs decl.full_name) d.items };
}

fn pairs_of(alloc: Global, decls: &[Decl]) -> Result<BytePairs, AllocError>
    ensures { IfOk result (λ pairs. All (λ decl. HasPairs pairs decl.full_name) decls.now) }
{
    let mut pairs = BytePairs::none(alloc)?;
    let mut before: &[u8] = &[];
    for decl in decls {
        let name = decl.full_name.parts();
        pairs.add_name(before, name);
        before = name.scope;
    }
    Ok(pairs)
}

impl Decls {
    /// These declarations. An `Err` comes only where memory was refused.
    pub fn of(alloc: Global, items: Items<Decl>) -> Result<Decls, AllocError>
        ensures { IfOk result (λ decls. decls ≡ items) }
    {
        let pairs = pairs_of(alloc, items.as_slice())?;
        Ok(Decls {
            items: fitted(alloc, items)?,
            pairs,
        })
    }

    /// The declarations.
    pub fn as_slice(&self) -> &[Decl]
        ensures { result.now ≡ self.now }
    {
        self.items.as_slice()
    }

    /// Whether a full name may contain a query, without regard to the case of ASCII letters. Where it is false, none has all
    /// that stands side by side in the query. Costs the length of the query, however many declarations there are.
    pub fn may_contain(&self, query: &str) -> bool
        ensures { IsFalse result → All (λ decl. ¬ HasNeighbours decl.full_name query.now) self.now }
    {
        self.pairs.have(query)
    }
}
