// Places in a text document (Language Server Protocol 3.17, "Position" and "Range").

/// A place between two characters of a text. Any two numbers are a position: one past the text's last line is
/// the text's end, one past its line's last character is the line's end.
#[derive(Clone, Copy, Debug, PartialEq, Eq)]
pub struct Position {
    /// The line, from 0.
    pub line: u64,
    /// How much of the line stands before the place, from 0, in units of the encoding.
    pub character: u64,
}

/// What stands between two positions. Its end is exclusive, as a caret behind the last character. A range whose
/// start lies behind its end means the same bytes as the two turned round.
#[derive(Clone, Copy, Debug, PartialEq, Eq)]
pub struct Range {
    /// Where it starts.
    pub start: Position,
    /// The first place behind it.
    pub end: Position,
}
