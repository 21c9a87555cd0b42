// A change of a text document (Language Server Protocol 3.17, "TextDocumentContentChangeEvent").
use crate::Range;

/// A new text for a range of a document, or for the whole document where there is no range.
#[derive(Drop)]
pub struct Change {
    /// What is replaced; the whole text where there is none.
    pub range: Option<Range>,
    /// What stands there then.
    pub text: String,
}
