// The units in which a position counts characters (Language Server Protocol 3.17, "Position").

/// What one unit of a position's `character` is.
#[derive(Clone, Copy, Debug, PartialEq, Eq)]
pub enum Encoding {
    /// UTF-16 code units, the protocol's default: two for a character past U+FFFF, else one.
    Utf16,
    /// Bytes of UTF-8: one to four for a character.
    Utf8,
    /// Characters (Unicode scalar values).
    Utf32,
}
