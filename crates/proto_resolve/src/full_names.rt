// Full names: identifiers of a text, joined by dots.
ghost use Rattle.std.specs.Prelude.{◌≡◌, map, string_bytes, IfOk, OnOk};
ghost use Rattle.proto_decls.specs.Text as spec;
ghost use Rattle.proto_resolve.specs.Names.{joined_all};

use crate::site::Component;
use proto_decls::Name;
use std::alloc::{AllocError, Global};

// Puts a name behind the full name of its scope, with a dot between them unless the scope is empty.
pub fn push_component(text: &mut String, name: &str) -> Result<(), AllocError>
    ensures { OnOk result (string_bytes text.new ≡ spec.joined (string_bytes text.old) name.now) }
{
    if !text.is_empty() {
        text.push('.')?;
    }
    text.push_str(name)
}

pub fn copied(alloc: Global, text: &str) -> Result<Name, AllocError>
    ensures { IfOk result (λ n. n ≡ text.now) }
{
    Name::with_text(alloc, text)
}

// How many bytes the full name of several components in a scope has, or a little more.
pub fn joined_len(scope: &str, components: &[Component]) -> usize {
    let mut len = scope.len();
    for component in components {
        len = len
            .saturating_add(component.text.as_str().len())
            .saturating_add(1);
    }
    len
}

// The full name of several components in a scope.
pub fn joined_all(alloc: Global, scope: &str, components: &[Component]) -> Result<Name, AllocError>
    ensures { IfOk result (λ n. n ≡ joined_all scope.now (map (λ c. c.text) components.now)) }
{
    let mut name = String::with_capacity(alloc, joined_len(scope, components))?;
    name.push_str(scope)?;
    for component in components {
        push_component(&mut name, component.text.as_str())?;
    }
    Ok(Name::of(name))
}
