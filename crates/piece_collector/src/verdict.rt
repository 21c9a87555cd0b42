// What a board answers to a result that is brought to it.

/// What is said of a piece or of a failure, by its path, its stamp and, of a piece, its text. The first that fits of:
/// foreign (the path is unknown), stale, foreign (the stamp is above the current one), doubled, foreign (the text is
/// another), taken.
#[derive(Clone, Copy, PartialEq, Eq, Debug)]
pub enum Verdict {
    /// It is of the current text, and the first of it.
    Taken,
    /// Its stamp is below the current one of its path.
    Stale,
    /// Its path is unknown, its stamp is above the current one of its path, or its text is another than the current one.
    Foreign,
    /// Its stamp is the current one of its path, and a piece of it is held.
    Doubled,
}
