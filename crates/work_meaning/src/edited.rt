// Texts that are no pieces yet: whether a workspace keeps its meaning with other texts of some files, and an analysis from nothing.
ghost use Rattle.std.specs.Prelude.{◌≡◌, ◌<◌, ◌↔◌, ◌++◌, ℕ, List, All, Some, None, IsSome, length, map, option_map, slice_index_or, slice_set, IfOk, IfSome, IsTrue, OnOk, string_bytes};
ghost use Rattle.std.specs.Cmp.Lexicographic.{slice_cmp};
ghost use Rattle.std.specs.List.Sorted.{IsStrictlySortedBy};
ghost use Rattle.std.specs.Ordering.{nat_cmp};
ghost use Rattle.work_index.specs.Workspace.{Workspace, analysis, no_file, workspace_in};
ghost use Rattle.work_meaning.specs.Bindings.{SameMeaning};
ghost use Rattle.work_meaning.specs.Edited.{edit_view, named_text, text_after, with_text, with_texts};
ghost use Rattle.work_meaning.specs.Quiet.{AreTexts, HasTexts, SaysSomethingElse, own_edit, own_text};

use crate::keeping::{OtherTexts, is_own, keep_meaning};
use import_graph::FileNo;
use piece_collector::{Job, Piece, SharedText};
use std::alloc::{AllocError, Global};
use work_changes::{Outdated, bring_up};
use work_index::{Analysis, AnalysisParts, FileWork, SourceFile, analyse_here};

/// Another text of a file.
#[derive(Debug, Drop)]
pub struct EditedText {
    /// The file's number, counted from 0 in the order of the paths.
    pub file: FileNo,
    /// Its text.
    pub text: String,
}

/// A file of a workspace.
#[derive(Debug, Drop)]
pub struct NamedText {
    /// Its path.
    pub path: String,
    /// Its text.
    pub text: String,
}

// What is made of a text, with its path.
fn piece_of(alloc: Global, path: &str, text: SharedText) -> Result<Piece<FileWork>, AllocError>
    ensures path { IfOk result (λ piece. piece.path ≡ path.now) }
    ensures text { IfOk result (λ piece. piece.text ≡ text) }
{
    let path = String::from_str(alloc, path)?;
    match Piece::make(&FileWork::new(alloc), Job::sharing(path, 0, text)) {
        Ok(piece) => Ok(piece),
        Err(_) => Err(AllocError),
    }
}

// Gives a file its other text, which is read as the one before.
fn edit(alloc: Global, edited: EditedText, files: &mut Vec<SourceFile>) -> Result<(), AllocError>
    requires { edited.file < length files.old.items }
    ensures { OnOk result (files.new.items ≡ slice_set files.old.items edited.file (let file = slice_index_or files.old.items edited.file no_file in (file.0, with_text file.1 (string_bytes edited.text)))) }
{
    let EditedText { file, text } = edited;
    files[file] = files[file].with_text(alloc, text)?;
    Ok(())
}

// Gives files their other texts. Of two texts for one file the first counts.
fn edit_all(
    alloc: Global,
    edits: Vec<EditedText>,
    files: &mut Vec<SourceFile>,
) -> Result<(), AllocError>
    requires { All (λ e. e.file < length files.old.items) edits.items }
    ensures { OnOk result (files.new.items ≡ with_texts (map edit_view edits.items) files.old.items) }
{
    let mut edits = edits;
    'edits: while let Some(edited) = edits.pop() {
        edit(alloc, edited, files)?;
    }
    Ok(())
}

// The numbers of the files that get other texts.
fn numbers_of(alloc: Global, edits: &[EditedText]) -> Result<Vec<FileNo>, AllocError>
    ensures { IfOk result (λ files. files.items ≡ map (λ e. e.file) edits.now) }
{
    let mut files = Vec::with_capacity(alloc, edits.len())?;
    for edited in edits {
        files.push(edited.file)?;
    }
    Ok(files)
}

// Puts a text in the place of its file.
fn put_text(edited: EditedText, texts: &mut Vec<Option<String>>)
    requires { edited.file < length texts.old.items }
    ensures { texts.new.items ≡ slice_set texts.old.items edited.file (Some edited.text) }
{
    let EditedText { file, text } = edited;
    texts[file] = Some(text);
}

// Of each of so many files its other text, if there is one. Of two for one file the first counts.
fn texts_by_file(
    alloc: Global,
    count: usize,
    edits: Vec<EditedText>,
) -> Result<Vec<Option<String>>, AllocError>
    requires { All (λ e. e.file < count) edits.items }
    ensures { IfOk result (λ texts. AreTexts count (map edit_view edits.items) (map (option_map string_bytes) texts.items)) }
{
    let mut texts = Vec::with_capacity(alloc, count)?;
    'places: for _ in 0..count {
        texts.push(None)?;
    }
    let mut edits = edits;
    'edits: while let Some(edited) = edits.pop() {
        put_text(edited, &mut texts);
    }
    Ok(texts)
}

// Adds the other text of a file, if it has one that is taken first.
fn push_own(
    alloc: Global,
    own: Option<FileNo>,
    file: FileNo,
    text: &Option<String>,
    edits: &mut Vec<EditedText>,
) -> Result<(), AllocError>
    ensures { OnOk result (map edit_view edits.new.items ≡ map edit_view edits.old.items ++ own_edit own file (option_map string_bytes text.now)) }
{
    if !is_own(own, file) {
        return Ok(());
    }
    if let Some(text) = text {
        let text = String::from_str(alloc, text.as_str())?;
        edits.push(EditedText { file, text })?;
    }
    Ok(())
}

// The other texts that are taken first.
fn own_edits(
    alloc: Global,
    texts: &[Option<String>],
    own: Option<FileNo>,
) -> Result<Vec<EditedText>, AllocError>
    ensures within { IfOk result (λ edits. All (λ e. e.file < length texts.now) edits.items) }
    ensures texts { IfOk result (λ edits. (n : ℕ) (t : List ℕ) → n < length texts.now → text_after (map edit_view edits.items) n t ≡ own_text own (map (option_map string_bytes) texts.now) n t) }
{
    let mut edits = Vec::new(alloc);
    for (file, text) in texts.iter().enumerate() {
        push_own(alloc, own, file, text, &mut edits)?;
    }
    Ok(edits)
}

// Whether the workspace keeps its meaning with other texts of some files. That of the file `own` is taken first, or all if there is none; `None` if one
// that isn't says something else than the one before to other files or of imports.
fn kept_with(
    alloc: Global,
    earlier: &Analysis,
    texts: &[Option<String>],
    own: Option<FileNo>,
) -> Result<Option<bool>, AllocError>
    requires { length texts.now ≡ length earlier.now.paths }
    ensures keep { (w : Workspace) → HasTexts (map (option_map string_bytes) texts.now) (workspace_in earlier.now) w → IfOk result (λ found. IfSome found (λ keep. IsTrue keep ↔ SameMeaning earlier.now (analysis w))) }
    ensures some { own ≡ None → IfOk result IsSome }
    ensures other { IfOk result (λ found. found ≡ None → SaysSomethingElse own (map (option_map string_bytes) texts.now) (workspace_in earlier.now)) }
{
    let edits = own_edits(alloc, texts, own)?;
    let changed = numbers_of(alloc, edits.as_slice())?;
    let copy = earlier.copy(alloc)?;
    let AnalysisParts {
        table,
        mut files,
        resolutions,
    } = copy.into_parts();
    edit_all(alloc, edits, &mut files)?;
    let outdated = Outdated { table, resolutions };
    let (table, relinking) = bring_up(alloc, outdated, changed.as_slice(), files.as_slice())?;
    let others = OtherTexts { texts, own };
    keep_meaning(alloc, earlier, table, files.as_slice(), &relinking, &others)
}

/// Whether a workspace keeps its meaning with other texts of some files: each name, by its number in its file, stands for what it stood for, and
/// what is wrong in each file has the same numbers. The analysis stays as it is. Of two texts for one file the first counts. An `Err` comes only
/// where memory was refused.
///
/// `own` is the file of which the text may declare or import something else than before. Whichever it is, the answer is right. If it is the only
/// such file, the other texts are read, linked and compared one after the other, and nothing of them is kept; else all of them are read once more,
/// and what they say is kept until all are compared. Of the files without another text those are linked again that may ask for a name that an
/// edit touches.
pub fn edits_keep_meaning(
    alloc: Global,
    earlier: &Analysis,
    edits: Vec<EditedText>,
    own: FileNo,
) -> Result<bool, AllocError>
    requires { All (λ e. e.file < length earlier.now.paths) edits.items }
    ensures { IfOk result (λ keep. IsTrue keep ↔ SameMeaning earlier.now (analysis (with_texts (map edit_view edits.items) (workspace_in earlier.now)))) }
{
    earlier.known();
    let texts = texts_by_file(alloc, earlier.file_count(), edits)?;
    if let Some(keep) = kept_with(alloc, earlier, texts.as_slice(), Some(own))? {
        return Ok(keep);
    }
    match kept_with(alloc, earlier, texts.as_slice(), None)? {
        Some(keep) => Ok(keep),
        None => Ok(false),
    }
}

/// The analysis of a workspace of these files, which are in the order of their paths, no path twice. `reads_others` says whether texts that aren't
/// proto3 are read for what they declare. An `Err` comes only where memory was refused.
pub fn analyse_texts(
    alloc: Global,
    files: &[NamedText],
    reads_others: bool,
) -> Result<Analysis, AllocError>
    requires { IsStrictlySortedBy (slice_cmp nat_cmp) (map (λ f. string_bytes f.path) files.now) }
    ensures { IfOk result (λ found. found ≡ analysis (map (named_text reads_others) files.now)) }
{
    let mut pieces = Vec::with_capacity(alloc, files.len())?;
    for file in files {
        let text = SharedText::shared(alloc, String::from_str(alloc, file.text.as_str())?)?;
        pieces.push(piece_of(alloc, file.path.as_str(), text)?)?;
    }
    analyse_here(alloc, pieces.as_slice(), reads_others)
}
