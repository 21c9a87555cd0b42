// What names and paths are made of.

ghost use Rattle.std.specs.Prelude.{◌≡◌, IfOk, OnOk, ◌++◌, string_bytes};
ghost use Rattle.std.specs.List.{flat_map};
ghost use Rattle.proto_decls.specs.Text as spec;

use proto_decls::{Name, text_at};
use proto_tree::{Literal, Span};
use std::alloc::{AllocError, Global};

// A text, and the memory for what is found in it.
#[derive(Clone, Copy)]
pub struct Source<'a> {
    pub alloc: Global,
    pub text: &'a str,
}

fn unquoted(text: &str, span: Span) -> &str
    ensures { result.now ≡ spec.text_at text.now (spec.unquoted span) }
{
    if span.start < span.end {
        text_at(
            text,
            Span {
                start: span.start + 1,
                end: span.end - 1,
            },
        )
    } else {
        ""
    }
}

// The value of a plain string literal.
pub fn literal_text(alloc: Global, text: &str, literal: &Literal) -> Result<Name, AllocError>
    ensures { IfOk result (λ n. n ≡ spec.literal_text text.now literal.now) }
{
    let mut found = String::new(alloc);
    'parts: for part in literal.parts.as_slice() {
        found.push_str(unquoted(text, *part))?;
    }
    Ok(Name::of(found))
}

// Identifiers joined by dots.
pub fn dotted(alloc: Global, text: &str, components: &[Span]) -> Result<Name, AllocError>
    ensures { IfOk result (λ n. n ≡ spec.dotted text.now components.now) }
{
    let mut found = String::new(alloc);
    if let [first, rest @ ..] = components {
        found.push_str(text_at(text, *first))?;
        add_with_dots(text, rest, &mut found)?;
    }
    Ok(Name::of(found))
}

fn add_with_dots(text: &str, components: &[Span], found: &mut String) -> Result<(), AllocError>
    ensures { OnOk result (string_bytes found.new ≡ string_bytes found.old ++ flat_map (spec.with_dot text.now) components.now) }
{
    'components: for component in components {
        found.push('.')?;
        found.push_str(text_at(text, *component))?;
    }
    Ok(())
}
