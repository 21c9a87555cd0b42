// A document that is open, and what an editor changes in it.
ghost use Rattle.std.specs.Prelude.{◌≡◌, OnOk, IfOk, map};
ghost use Rattle.doc_text.specs.Edits.{change_view};
ghost use Rattle.work_files.specs.Files.{edited_all};
ghost use Rattle.work_files.specs.View.{document_view};

use doc_text::{Change, Encoding, Text};
use piece_collector::SharedText;
use std::alloc::{AllocError, Global};

/// A document that is open in the editor: the version that the editor gave it, and its text.
#[derive(Drop)]
pub struct Document {
    /// The version that the editor gave it last.
    pub version: i64,
    /// The text, with all changes. The board shares it.
    pub text: SharedText,
}

/// What an editor changed in a document.
#[derive(Drop)]
pub struct VersionedChanges {
    /// The version that the document has then.
    pub version: i64,
    /// In which units the characters of the changes' positions count.
    pub encoding: Encoding,
    /// The changes in order, each at places of the text that those before it leave.
    pub changes: Vec<Change>,
}

// Applies the changes in order.
fn edit(text: &mut Text, encoding: Encoding, changes: Vec<Change>) -> Result<(), AllocError>
    ensures { OnOk result (text.new ≡ edited_all encoding (map change_view changes.items) text.old) }
{
    'changes: for change in changes {
        text.apply(change, encoding)?;
    }
    Ok(())
}

// A document with these changes made in a copy of its text, each at places of the text that those before it leave. An `Err` comes only where
// memory was refused.
pub fn edited(
    alloc: Global,
    document: &Document,
    edits: VersionedChanges,
) -> Result<Document, AllocError>
    ensures { IfOk result (λ d. document_view d ≡ record { version = edits.version; text = edited_all edits.encoding (map change_view edits.changes.items) document.now.text }) }
{
    let VersionedChanges {
        version,
        encoding,
        changes,
    } = edits;
    let mut text = Text::new(String::from_str(alloc, document.text.as_str())?);
    edit(&mut text, encoding, changes)?;
    let text = SharedText::shared(alloc, text.into_string())?;
    Ok(Document { version, text })
}
