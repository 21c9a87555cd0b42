// Names and paths.
ghost use Rattle.std.specs.Prelude.{◌≡◌, string_bytes, IfOk};

use arrayvec::ArrayString;
use std::alloc::{AllocError, Global};
use std::marker::Model;

// How many bytes a name may have that lies in the value itself. Most identifiers have fewer.
const SHORT: usize = 16;

// A short text in the value itself, or any text in memory of its own.
#[derive(Debug, Drop)]
enum NameText {
    Short(ArrayString<SHORT>),
    Long(String),
}

/// A name or a path, which contracts see as its bytes in UTF-8.
#[derive(Debug, Drop)]
pub struct Name {
    text: NameText,
}

impl Model for Name {
    ghost use Rattle.std.specs.Prelude.{List, ℕ};
    ghost use Rattle.proto_decls.specs.NameTexts.{bytes_of};

    ghost Value = { List ℕ };

    ghost view = { λ n. bytes_of n.text };
}

impl Name {
    /// The name that a text is. Takes no memory.
    pub fn of(text: String) -> Self
        ensures { result ≡ string_bytes text }
    {
        Name {
            text: NameText::Long(text),
        }
    }

    /// The name with this text, which takes memory only if it has more than 16 bytes. An `Err` comes only where memory was refused.
    pub fn with_text(alloc: Global, text: &str) -> Result<Name, AllocError>
        ensures { IfOk result (λ n. n ≡ text.now) }
    {
        match ArrayString::from(text) {
            Ok(short) => Ok(Name {
                text: NameText::Short(short),
            }),
            Err(_) => Ok(Name::of(String::from_str(alloc, text)?)),
        }
    }

    /// The name as a text.
    pub fn as_str(&self) -> &str
        ensures { result.now ≡ self.now }
    {
        match &self.text {
            NameText::Short(short) => short.as_str(),
            NameText::Long(long) => long.as_str(),
        }
    }

    /// An equal name in memory of its own. An `Err` comes only where memory was refused.
    pub fn copy(&self, alloc: Global) -> Result<Name, AllocError>
        ensures { IfOk result (λ n. n ≡ self.now) }
    {
        Name::with_text(alloc, self.as_str())
    }
}
