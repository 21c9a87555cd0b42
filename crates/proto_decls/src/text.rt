// Parts of a text.

ghost use Rattle.std.specs.Prelude.{◌≡◌, ◌<◌, ◌+◌, length, string_bytes, IfOk};
ghost use Rattle.proto_decls.specs.Text as spec;

use crate::name::Name;
use proto_tree::Span;
use std::alloc::{AllocError, Global};

fn is_boundary(text: &str, offset: usize) -> bool
    ensures { result ≡ spec.is_boundary text.now offset }
{
    text.is_char_boundary(offset)
}

/// What stands at a span of a text; nothing where the span is no part of the text, or begins or ends inside a character.
pub fn text_at(text: &str, span: Span) -> &str
    ensures { result.now ≡ spec.text_at text.now span }
{
    if span.start <= span.end && is_boundary(text, span.start) && is_boundary(text, span.end) {
        &text[span.start..span.end]
    } else {
        ""
    }
}

/// The full name of a name in a scope: the two with a dot between them, or the name alone where the scope is empty. It is
/// in memory of just its size.
///
/// # Errors
///
/// `AllocError` where memory was refused.
pub fn joined(alloc: Global, scope: &str, name: &str) -> Result<Name, AllocError>
    ensures { IfOk result (λ n. n ≡ spec.joined scope.now name.now) }
{
    Ok(Name::of(joined_text(alloc, scope, name)?))
}

// The full name of a name in a scope, as a text in memory of just its size.
pub fn joined_text(alloc: Global, scope: &str, name: &str) -> Result<String, AllocError>
    ensures { IfOk result (λ text. string_bytes text ≡ spec.joined scope.now name.now) }
{
    if scope.is_empty() {
        return String::from_str(alloc, name);
    }
    let mut text = String::with_capacity(alloc, scope.len() + 1 + name.len())?;
    text.push_str(scope)?;
    text.push('.')?;
    text.push_str(name)?;
    Ok(text)
}
