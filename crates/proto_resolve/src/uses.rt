// The uses of names.
ghost use Rattle.std.specs.Prelude.{◌≡◌, ◌++◌, ◌<◌, [], OnOk, IfOk, Some, map, option_and_then, option_copied, string_bytes};
ghost use Rattle.proto_resolve.specs.Views.{IsView};
ghost use Rattle.proto_resolve.specs.Uses.{uses_in, uses_at, uses_of, uses};
ghost use Rattle.proto_resolve.specs.Names.{found, joined_all, texts_of};
ghost use Rattle.proto_resolve.specs.ViewDiagnostics.{name_diagnostics};
ghost use Rattle.std.specs.List.{flat_map};
ghost use Rattle.std.specs.Option.{option_map_or};

use crate::diagnostics::push_name_diagnostic;
use crate::finding::found;
use crate::full_names::{joined_len, push_component};
use crate::index::Index;
use crate::resolver::Resolver;
use crate::site::{Component, NameSite};
use crate::target::Target;
use crate::view::View;
use proto_decls::Diag;
use proto_tree::Span;
use sqlite_items::Items;
use std::alloc::{AllocError, Global};

/// A component of a name, with what it refers to.
#[derive(Debug, Drop)]
pub struct NameUse {
    /// Where the component stands, in bytes of the text.
    pub span: Span,
    /// The number of the name in its file: names are counted from 0 by offset, with a meaning or without.
    pub name: usize,
    /// What stands at the full name up to the component.
    pub target: Target,
}

impl NameUse {
    /// The same, in memory of its own. An `Err` comes only where memory was refused.
    pub fn copy(&self, alloc: Global) -> Result<NameUse, AllocError>
        ensures { IfOk result (λ u. u ≡ self.now) }
    {
        Ok(NameUse {
            span: self.span,
            name: self.name,
            target: self.target.copy(alloc)?,
        })
    }
}

// The same uses, in memory of their own.
pub fn copy_uses(alloc: Global, uses: &[NameUse]) -> Result<Items<NameUse>, AllocError>
    ensures { IfOk result (λ c. c ≡ uses.now) }
{
    let mut copies = Items::from_vec(Vec::with_capacity(alloc, uses.len())?);
    for found in uses {
        copies.push(found.copy(alloc)?)?;
    }
    Ok(copies)
}

// The uses of the names of a file, in order, and what is wrong with what the names mean.
#[derive(Drop)]
pub struct ResolvedNames {
    pub uses: Items<NameUse>,
    pub diagnostics: Items<Diag>,
}

// Resolves the names of a file.
pub fn resolve_names<I: Index>(
    alloc: Global,
    index: &I,
    view: &View,
    sites: &[NameSite],
) -> Result<ResolvedNames, AllocError>
    requires { IsView (I.files index.now) view.now }
    ensures uses { IfOk result (λ n. n.uses ≡ uses (I.files index.now) view.now.file view.now.files sites.now) }
    ensures diagnostics { IfOk result (λ n. n.diagnostics ≡ flat_map (name_diagnostics (I.files index.now) view.now.file view.now.files) sites.now) }
{
    let mut names = ResolvedNames {
        uses: Items::new(alloc),
        diagnostics: Items::new(alloc),
    };
    let resolver = Resolver { alloc, index, view };
    let mut room = String::new(alloc);
    for (number, site) in sites.iter().enumerate() {
        resolver.push_name(number, site, &mut room, &mut names)?;
    }
    Ok(names)
}

// A name that is looked for in a scope: its number in its file, the scope, and its components.
#[derive(Clone, Copy)]
struct ScopedName<'a> {
    number: usize,
    scope: &'a str,
    components: &'a [Component],
}

impl<I: Index> Resolver<'_, I> {
    // Adds the uses of a name, and what is wrong with what it means. What the room holds is written over.
    fn push_name(
        &self,
        number: usize,
        site: &NameSite,
        room: &mut String,
        names: &mut ResolvedNames,
    ) -> Result<(), AllocError>
        ensures uses { OnOk result (names.new.uses ≡ names.old.uses ++ uses_of (I.files self.now.index.now) self.now.view.now.file self.now.view.now.files number site.now) }
        ensures diagnostics { OnOk result (names.new.diagnostics ≡ names.old.diagnostics ++ name_diagnostics (I.files self.now.index.now) self.now.view.now.file self.now.view.now.files site.now) }
    {
        let settled = self.scope_of(site, room)?;
        let target = self.meaning_in(settled, site)?;
        push_name_diagnostic(self.index, site, &target, &mut names.diagnostics)?;
        match (settled, target) {
            (Some(settled), Some(target)) => {
                let components = site.components.as_slice();
                let name = ScopedName {
                    number,
                    scope: settled.scope,
                    components,
                };
                self.push_uses(name, target, &mut names.uses)
            }
            _ => Ok(()),
        }
    }

    // Adds the uses of a name that means this.
    fn push_uses(
        &self,
        name: ScopedName<'_>,
        target: Target,
        uses: &mut Items<NameUse>,
    ) -> Result<(), AllocError>
        requires { found (I.files self.now.index.now) self.now.view.now.file self.now.view.now.files (joined_all name.scope.now (map (λ c. c.text) name.components.now)) ≡ Some target }
        ensures { OnOk result (uses.new ≡ uses.old ++ uses_in (I.files self.now.index.now) self.now.view.now.file self.now.view.now.files name.entry.number name.entry.scope.now name.entry.components.now) }
    {
        let components = name.components;
        if components.is_empty() {
            return Ok(());
        }
        let last = components.len() - 1;
        let before = ScopedName {
            number: name.number,
            scope: name.scope,
            components: &components[..last],
        };
        self.push_uses_before(before, uses)?;
        let span = components[last].span;
        uses.push(NameUse {
            span,
            name: name.number,
            target,
        })
    }

    // Adds the uses of the components of a name.
    fn push_uses_before(
        &self,
        name: ScopedName<'_>,
        uses: &mut Items<NameUse>,
    ) -> Result<(), AllocError>
        ensures { OnOk result (uses.new ≡ uses.old ++ uses_in (I.files self.now.index.now) self.now.view.now.file self.now.view.now.files name.entry.number name.entry.scope.now name.entry.components.now) }
    {
        if name.components.is_empty() {
            return Ok(());
        }
        let len = joined_len(name.scope, name.components);
        let mut full_name = String::with_capacity(self.alloc, len)?;
        full_name.push_str(name.scope)?;
        for component in name.components {
            push_component(&mut full_name, component.text.as_str())?;
            if let Some(target) = found(self.alloc, self.index, self.view, full_name.as_str())? {
                uses.push(NameUse {
                    span: component.span,
                    name: name.number,
                    target,
                })?;
            }
        }
        Ok(())
    }
}
