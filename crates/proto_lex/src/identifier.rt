// Whether a text is an identifier.
ghost use Rattle.std.specs.Prelude.{◌↔◌, IsTrue};
ghost use Rattle.proto_lex.specs.declared.token.Kind.TheVariants.{Ident};
ghost use Rattle.proto_lex.specs.Forms.{IsForm};

use crate::bytes::{Class, class_of, name_len};

/// Whether the whole text is one identifier: an ASCII letter or an underscore, and then ASCII letters, digits and
/// underscores alone. Takes no memory, and reads the text once.
pub fn is_identifier(text: &str) -> bool
    ensures { IsTrue result ↔ IsForm Ident text.now }
{
    let bytes = text.as_bytes();
    if bytes.is_empty() {
        return false;
    }
    let rest = &bytes[1..];
    class_of(bytes[0]) == Class::Letter && name_len(rest) == rest.len()
}
