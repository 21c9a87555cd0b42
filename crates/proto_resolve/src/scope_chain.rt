// The scopes of a place in a file.
ghost use Rattle.std.specs.Prelude.{◌≡◌, ◌∷◌, ◌<◌, ◌≤◌, ℕ, List, [], false, length, slice_index_or, IfOk};
ghost use Rattle.proto_decls.specs.Text.{joined};
ghost use Rattle.proto_names.specs.Holders.{is_held, IsNext};
ghost use Rattle.proto_decls.specs.FullNames.{has_dot};
ghost use Rattle.std.specs.List.{list_any};
ghost use Rattle.proto_names.specs.Files.{has_package};
ghost use Rattle.proto_resolve.specs.Views.{IsView};

use crate::full_names::push_component;
use crate::index::Index;
use crate::view::View;
use crate::views::last_package;
use sqlite_items::Items;
use std::alloc::{AllocError, Global};
use std::marker::Model;
use std::rc::Rc;

// Scopes that lie in one another. Each is a part at the front of the innermost one's full name.
#[derive(Debug, Drop)]
pub struct ScopeChain {
    text: String,
    // How long each scope is, outermost first.
    lengths: Items<usize>,
}

// Contracts see the scopes, innermost first.
impl Model for ScopeChain {
    ghost use Rattle.std.specs.Prelude.{◌≡◌, ℕ, List, [], All, slice_index_or, string_bytes};
    ghost use Rattle.std.specs.List.Sorted.{IsNonDecreasing};
    ghost use Rattle.std.specs.String.Boundary.{IsSplitPoint};
    ghost use Rattle.proto_resolve.specs.ScopeChains.{front_parts};

    ghost Value = { List (List ℕ) };

    ghost view = { λ p. front_parts (string_bytes p.text) p.lengths };

    ghost invariant = { λ p. All (IsSplitPoint (string_bytes p.text)) p.lengths × (slice_index_or (front_parts (string_bytes p.text) p.lengths) 0 [] ≡ string_bytes p.text) × IsNonDecreasing p.lengths };
}

impl ScopeChain {
    // The empty scope alone.
    pub fn outermost(alloc: Global) -> Result<ScopeChain, AllocError>
        ensures { IfOk result (λ p. p ≡ [] ∷ []) }
    {
        let mut lengths = Items::new(alloc);
        lengths.push(0)?;
        Ok(ScopeChain {
            text: String::new(alloc),
            lengths,
        })
    }

    // The scopes in the body of what has a name and stands here.
    pub fn inside(self, name: &str) -> Result<ScopeChain, AllocError>
        ensures { IfOk result (λ p. p ≡ joined (slice_index_or self 0 []) name.now ∷ self) }
    {
        let ScopeChain {
            mut text,
            mut lengths,
        } = self;
        push_component(&mut text, name)?;
        lengths.push(text.len())?;
        Ok(ScopeChain { text, lengths })
    }

    // The scopes in the body of what has a name and stands here, in memory of their own.
    pub fn copied_inside(&self, alloc: Global, name: &str) -> Result<ScopeChain, AllocError>
        ensures { IfOk result (λ p. p ≡ joined (slice_index_or self.now 0 []) name.now ∷ self.now) }
    {
        let length = self.text.len().saturating_add(name.len());
        let mut text = String::with_capacity(alloc, length.saturating_add(1))?;
        text.push_str(self.text.as_str())?;
        let mut lengths = Vec::with_capacity(alloc, self.lengths.len().saturating_add(1))?;
        lengths.extend_from_slice(self.lengths.as_slice())?;
        let copy = ScopeChain {
            text,
            lengths: Items::from_vec(lengths),
        };
        copy.inside(name)
    }

    // How many scopes there are.
    pub fn len(&self) -> usize
        ensures { result ≡ length self.now }
    {
        self.lengths.len()
    }

    // A scope, counted from the innermost.
    pub fn get(&self, number: usize) -> &str
        requires { number < length self.now }
        ensures { result.now ≡ slice_index_or self.now number [] }
    {
        let length = self.lengths.as_slice()[self.lengths.len() - 1 - number];
        &self.text.as_str()[..length]
    }

    // The number of the next scope, from the one of a number on, in which a message, an enum or a service of the name is
    // declared.
    pub fn next_held<I: Index>(&self, index: &I, number: usize, name: &str) -> Option<usize>
        requires within { number ≤ length self.now }
        requires plain { has_dot name.now ≡ false }
        ensures { IsNext (λ s. is_held (I.files index.now) (joined s name.now)) self.now number result }
    {
        let left = self.lengths.len() - number;
        let lengths = &self.lengths.as_slice()[..left];
        match index.last_held(self.text.as_str(), lengths, name) {
            None => None,
            Some(place) => Some(self.lengths.len() - 1 - place),
        }
    }

    // A scope, by its number, or none, that no scope comes before in which there is a package of the name that the view sees,
    // from the one of a number on.
    pub fn next_package<I: Index>(
        &self,
        index: &I,
        view: &View,
        number: usize,
        name: &str,
    ) -> Option<usize>
        requires view { IsView (I.files index.now) view.now }
        requires within { number ≤ length self.now }
        ensures { IsNext (λ s. list_any (has_package (I.files index.now) (joined s name.now)) view.now.files) self.now number result }
    {
        let left = self.lengths.len() - number;
        let lengths = &self.lengths.as_slice()[..left];
        match last_package(index, view, self.text.as_str().as_bytes(), lengths, name) {
            None => None,
            Some(place) => Some(self.lengths.len() - 1 - place),
        }
    }
}

// The scopes of a place, which the names at that place share.
#[derive(Debug, Drop)]
pub struct Scopes {
    place: Rc<ScopeChain>,
}

impl Model for Scopes {
    ghost use Rattle.std.specs.Prelude.{ℕ, List};

    ghost Value = { List (List ℕ) };

    ghost view = { λ s. s.place.value };
}

impl Scopes {
    pub fn of(alloc: Global, place: ScopeChain) -> Result<Scopes, AllocError>
        ensures { IfOk result (λ s. s ≡ place) }
    {
        Ok(Scopes {
            place: Rc::new(alloc, place)?,
        })
    }

    pub fn place(&self) -> &ScopeChain
        ensures { result.now ≡ self.now }
    {
        self.place.as_ref()
    }

    // The same scopes, shared.
    pub fn share(&self) -> Result<Scopes, AllocError>
        ensures { IfOk result (λ s. s ≡ self.now) }
    {
        Ok(Scopes {
            place: self.place.clone()?,
        })
    }
}
