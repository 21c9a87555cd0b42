// The scope in which a name is looked for, and what it means.
ghost use Rattle.std.specs.Prelude.{◌≡◌, ◌==◌, ◌<◌, length, false, find, All, IfOk, IfSome, Some, option_map, option_and_then};
ghost use Rattle.proto_names.specs.Files.{all_named, kind_at};
ghost use Rattle.proto_names.specs.Holders.{earlier, IsNext, is_holder};
ghost use Rattle.proto_decls.specs.FullNames.{has_dot};
ghost use Rattle.proto_decls.specs.Text.{joined};
ghost use Rattle.proto_resolve.specs.declared.target.Target.TheVariants.{Declared};
ghost use Rattle.proto_resolve.specs.Names.{found, first_declared, is_type, settles, settles_at, first_text, joined_all, texts_of, scope_of, IsThere};
ghost use Rattle.proto_resolve.specs.Settled.{IsFirstIn};

use crate::finding::{declared, found};
use crate::full_names::{joined_all, push_component};
use crate::index::Index;
use crate::resolver::Resolver;
use crate::site::{NameSite, Needs};
use crate::target::Target;
use crate::views::sees_package;
use proto_decls::DeclKind;
use proto_names::{DeclRef, is_holder, unsplit};
use std::alloc::{AllocError, Global};

pub fn is_type(needs: Needs, kind: DeclKind) -> bool
    ensures { result ≡ is_type needs kind }
{
    match kind {
        DeclKind::Message => true,
        DeclKind::EnumDef => matches!(needs, Needs::MessageOrEnum),
        _ => false,
    }
}

pub fn kind_at<I: Index>(index: &I, decl: DeclRef) -> DeclKind
    requires { decl.file < length (I.files index.now) }
    ensures { result ≡ kind_at (I.files index.now) decl }
{
    match index.facts(decl.file).decls.as_slice().get(decl.number) {
        Some(decl) => decl.kind,
        None => DeclKind::Field,
    }
}

// Whether a first component that means this declaration settles the scope.
fn settles<I: Index>(index: &I, is_alone: bool, decl: DeclRef) -> bool
    requires { decl.file < length (I.files index.now) }
    ensures { result ≡ settles (I.files index.now) is_alone (Some (Declared decl)) }
{
    let kind = kind_at(index, decl);
    if is_alone {
        is_type(Needs::MessageOrEnum, kind)
    } else {
        is_holder(kind)
    }
}

fn has_dot(name: &str) -> bool
    ensures { result ≡ has_dot name.now }
{
    name.as_bytes().iter().any(|c| *c == b'.')
}

fn first_text(site: &NameSite) -> &str
    ensures { result.now ≡ first_text site.now }
{
    match site.components.as_slice().first() {
        Some(component) => component.text.as_str(),
        None => "",
    }
}

fn earlier(a: Option<usize>, b: Option<usize>) -> Option<usize>
    ensures { result ≡ earlier a b }
{
    match (a, b) {
        (None, b) => b,
        (a, None) => a,
        (Some(a), Some(b)) => Some(a.min(b)),
    }
}

// So many scopes are tried first, one by one, if they are short: a name mostly means something near.
const INNERMOST: usize = 2;
// How many bytes a short scope has, at most.
const SHORT: usize = 256;
// Up to so many scopes may be tried one by one.
const MOST_SCOPES: usize = 64;
// To look a name up takes about as long as to look at the packages of so many files.
const FILES_PER_LOOKUP: usize = 4;

// A scope that settles a name, and the declaration that the name's first component means there, where one was looked for and found.
#[derive(Clone, Copy)]
pub(crate) struct SettledScope<'s> {
    pub(crate) scope: &'s str,
    pub(crate) first: Option<DeclRef>,
}

// Whether a scope settles a name, and the declaration that the name's first component means there.
#[derive(Clone, Copy)]
struct Settling {
    settles: bool,
    first: Option<DeclRef>,
}

impl<I: Index> Resolver<'_, I> {
    // Whether a scope settles a name. The full name of the first component is written over `name`.
    fn settles_at(
        &self,
        site: &NameSite,
        scope: &str,
        name: &mut String,
    ) -> Result<Settling, AllocError>
        ensures value { IfOk result (λ r. r.settles ≡ settles_at (I.files self.now.index.now) self.now.view.now.file self.now.view.now.files site.now scope.now) }
        ensures first { IfOk result (λ r. r.first ≡ first_declared self.now.view.now.file self.now.view.now.files (all_named (I.files self.now.index.now) (joined scope.now (first_text site.now)))) }
        ensures within { IfOk result (λ r. IfSome r.first (λ d. d.file < length (I.files self.now.index.now))) }
    {
        name.clear();
        name.push_str(scope)?;
        push_component(name, first_text(site))?;
        let is_alone = site.components.len() == 1;
        let first = declared(self.index, self.view, name.as_str());
        let settles = match first {
            Some(decl) => settles(self.index, is_alone, decl),
            None => !is_alone && sees_package(self.index, self.view, unsplit(name.as_bytes())),
        };
        Ok(Settling { settles, first })
    }

    // The innermost scope that settles a name: where its first component is found as what ends the search. Full names that are looked up are
    // written over `name`.
    pub fn scope_of<'s>(
        &self,
        site: &'s NameSite,
        name: &mut String,
    ) -> Result<Option<SettledScope<'s>>, AllocError>
        ensures scope { IfOk result (λ r. option_map (λ s. s.scope.now) r ≡ scope_of (I.files self.now.index.now) self.now.view.now.file self.now.view.now.files site.now) }
        ensures first { IfOk result (λ r. IfSome r (λ s. IsFirstIn (I.files self.now.index.now) self.now.view.now site.now s.scope.now s.first)) }
    {
        if site.is_absolute {
            return Ok(Some(SettledScope {
                scope: "",
                first: None,
            }));
        }
        let scopes = site.scopes.place();
        let mut number = 0;
        while number < scopes.len() {
            match self.next_scope(site, number) {
                None => return Ok(None),
                Some(next) => {
                    let scope = scopes.get(next);
                    let Settling { settles, first } = self.settles_at(site, scope, name)?;
                    if settles {
                        return Ok(Some(SettledScope { scope, first }));
                    }
                    number = next + 1;
                }
            }
        }
        Ok(None)
    }

    // A scope, counted from the innermost, or none, that no scope which settles the name comes before, from the one of a
    // number on. Short innermost scopes are tried one by one, and so are few scopes where packages count and there are many
    // files whose packages may.
    fn next_scope(&self, site: &NameSite, number: usize) -> Option<usize>
        requires { number < length site.now.scopes }
        ensures { IsNext (settles_at (I.files self.now.index.now) self.now.view.now.file self.now.view.now.files site.now) site.now.scopes number result }
    {
        let first = first_text(site);
        let scopes = site.scopes.place();
        let is_near = number < INNERMOST && scopes.get(number).len() <= SHORT;
        if is_near || has_dot(first) {
            return Some(number);
        }
        if site.components.len() == 1 {
            return scopes.next_held(self.index, number, first);
        }
        if scopes.len() <= MOST_SCOPES.min(self.view.files.len() / FILES_PER_LOOKUP) {
            return Some(number);
        }
        earlier(
            scopes.next_held(self.index, number, first),
            scopes.next_package(self.index, self.view, number, first),
        )
    }

    // What a name means, if anything, where this is its scope.
    pub fn meaning_in(
        &self,
        settled: Option<SettledScope<'_>>,
        site: &NameSite,
    ) -> Result<Option<Target>, AllocError>
        requires { IfSome settled (λ s. IsFirstIn (I.files self.now.index.now) self.now.view.now site.now s.scope.now s.first) }
        ensures value { IfOk result (λ r. r ≡ option_and_then (λ s. found (I.files self.now.index.now) self.now.view.now.file self.now.view.now.files (joined_all s (texts_of site.now))) (option_map (λ s. s.scope.now) settled.entry)) }
        ensures within { IfOk result (λ r. IfSome r (IsThere (I.files self.now.index.now))) }
    {
        match settled {
            None => Ok(None),
            Some(settled) => {
                let target = self.meaning_at(settled, site)?;
                Ok(target)
            }
        }
    }

    // What a name means, if anything, where this is its scope, and what its only component means there, if it has one, is known.
    fn meaning_at(
        &self,
        settled: SettledScope<'_>,
        site: &NameSite,
    ) -> Result<Option<Target>, AllocError>
        requires { IsFirstIn (I.files self.now.index.now) self.now.view.now site.now settled.scope.now settled.first }
        ensures value { IfOk result (λ r. r ≡ found (I.files self.now.index.now) self.now.view.now.file self.now.view.now.files (joined_all settled.entry.scope.now (texts_of site.now))) }
        ensures within { IfOk result (λ r. IfSome r (IsThere (I.files self.now.index.now))) }
    {
        match settled.first {
            Some(decl) if site.components.len() == 1 => Ok(Some(Target::Declared(decl))),
            _ => self.found_in(settled.scope, site),
        }
    }

    // What stands at the full name that the components have in a scope.
    fn found_in(&self, scope: &str, site: &NameSite) -> Result<Option<Target>, AllocError>
        ensures value { IfOk result (λ r. r ≡ found (I.files self.now.index.now) self.now.view.now.file self.now.view.now.files (joined_all scope.now (texts_of site.now))) }
        ensures within { IfOk result (λ r. IfSome r (IsThere (I.files self.now.index.now))) }
    {
        let name = joined_all(self.alloc, scope, site.components.as_slice())?;
        let target = found(self.alloc, self.index, self.view, name.as_str())?;
        Ok(target)
    }
}
