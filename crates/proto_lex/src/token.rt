// Tokens of a Protocol Buffers text: what kind each is, and which bytes it takes.

/// What is wrong with a bad token.
#[derive(Clone, Copy, Debug, PartialEq, Eq)]
pub enum Reason {
    /// A character that begins no token: one past ASCII, a control character that is no whitespace, or one of
    /// ``!#$%&*?@\^`|~``.
    Character,
    /// A run that begins as a number does and is neither an integer nor a float, such as `08` or `1.2.3`.
    Number,
    /// A string that meets a line feed or the text's end before its closing quote.
    String,
    /// A `/*` that no `*/` follows. It reaches to the text's end.
    Comment,
}

/// The kind of a token.
#[derive(Clone, Copy, Debug, PartialEq, Eq)]
pub enum Kind {
    /// A letter or `_`, then letters, digits and `_`. Keywords are such too.
    Ident,
    /// A decimal, octal or hexadecimal integer of any size, without a sign.
    Int,
    /// A decimal number with a point, an exponent or both, without a sign.
    Float,
    /// A string with its two quotes, `'` or `"`.
    Str,
    /// One of ``{}()[]<>;,=.:-+/``.
    Symbol,
    /// What no other kind fits; an error.
    Bad(Reason),
}

/// A token: its kind, and the byte offsets at which it starts and ends.
///
/// Offsets count the bytes of the UTF-8 text from 0; the byte at `end` is the first that isn't the token's.
#[derive(Clone, Copy, Debug, PartialEq, Eq)]
pub struct Token {
    pub kind: Kind,
    pub start: usize,
    pub end: usize,
}
