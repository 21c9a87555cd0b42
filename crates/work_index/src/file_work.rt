// The work on one file.
ghost use Rattle.std.specs.Prelude.{◌≡◌, true, false, IfOk};
ghost use Rattle.proto_decls.specs.Facts.{facts_by, facts_of, is_other};
ghost use Rattle.proto_resolve.specs.Sites.{names_of_file};
ghost use Rattle.proto_tree.specs.Read.{value_tree};
ghost use Rattle.work_links.specs.Asked.{has_all, names_asked};
ghost use Rattle.work_index.specs.Products.{IsOfOther, known_by};
ghost use Rattle.work_index.specs.Workspace.{asked_of};

use import_graph::SharedFacts;
use piece_collector::{Piece, SharedText, Work};
use proto_decls::{FileFacts, SyntaxFact};
use proto_facts::{facts, other_facts};
use proto_syntax::{parse_other, parse_text};
use proto_tree::{FileTree, is_too_long};
use std::alloc::{AllocError, AllocFailed, Global};
use std::sync::Arc;
use thread_heap::make_room_for_files;
use work_links::Asked;

/// What is known of a text by itself, for several owners.
#[derive(Drop)]
pub struct KnownText {
    /// What the text says.
    pub facts: SharedFacts,
    /// For which full names the file asks, or more of them.
    pub asked: Arc<Asked>,
}

impl KnownText {
    /// The same once more, shared. An `Err` comes only where memory was refused.
    pub fn another(&self) -> Result<KnownText, AllocError>
        ensures facts { IfOk result (λ known. known.facts ≡ self.now.facts) }
        ensures asked { IfOk result (λ known. known.asked.value ≡ self.now.asked.value) }
    {
        let facts = self.facts.another()?;
        let asked = Arc::try_clone(&self.asked)?;
        Ok(KnownText { facts, asked })
    }
}

/// What is made of a file's text by itself. It doesn't depend on whether texts that aren't proto3 are read for what they declare: who uses it says so.
pub struct FileOut {
    /// The tree of the text; that of the empty text where the text has more than 16,777,216 bytes.
    pub tree: FileTree,
    /// What the text says as proto3.
    pub own: KnownText,
    /// What the text says where it is read though it isn't proto3. `None` of a proto3 text, and of one that is too long.
    pub other: Option<KnownText>,
}

// (Written out: a derived one would be proved again, with those of all parts, in each crate that drops such a value.)
impl Drop for FileOut {
    fn drop(self) {
        let FileOut {
            tree: _,
            own: _,
            other: _,
        } = self;
    }
}

impl FileOut {
    /// What is known of the text; `reads_others` says whether texts that aren't proto3 are read for what they declare.
    pub fn known(&self, reads_others: bool) -> &KnownText
        ensures { result.now ≡ known_by reads_others self.now }
    {
        match &self.other {
            Some(known) if reads_others => known,
            _ => &self.own,
        }
    }

    /// The tree of the text.
    pub fn into_tree(self) -> FileTree
        ensures { result ≡ self.tree }
    {
        let FileOut {
            tree,
            own: _,
            other: _,
        } = self;
        tree
    }
}

/// The work on one file: its tokens, its tree and its facts, and for which names it asks.
#[derive(Clone, Copy)]
pub struct FileWork {
    alloc: Global,
    // Whether the file may be linked again, after another one has changed.
    links_again: bool,
}

impl FileWork {
    /// Work for files that are linked again after changes. It takes its memory from this allocator.
    pub fn new(alloc: Global) -> FileWork
        ensures alloc { result.alloc ≡ alloc }
        ensures again { result.links_again ≡ true }
    {
        FileWork {
            alloc,
            links_again: true,
        }
    }

    /// Work for files that are linked once: it keeps no names for which they ask, as if each asked for all names. It takes its memory from this
    /// allocator.
    pub fn linking_once(alloc: Global) -> FileWork
        ensures alloc { result.alloc ≡ alloc }
        ensures once { result.links_again ≡ false }
    {
        FileWork {
            alloc,
            links_again: false,
        }
    }

    /// The allocator from which it takes its memory.
    pub fn alloc(&self) -> Global
        ensures { result ≡ self.now.alloc }
    {
        self.alloc
    }

    // For which names a file with these facts asks, as far as that is kept.
    fn asked(&self, text: &str, facts: &FileFacts, tree: &FileTree) -> Result<Asked, AllocError>
        ensures { IfOk result (λ asked. has_all asked (names_asked (names_of_file text.now facts.now tree.now.nodes) facts.now.decls) ≡ true) }
    {
        if self.links_again {
            Asked::of(self.alloc, text, facts, tree)
        } else {
            Ok(Asked::any(self.alloc))
        }
    }

    // What is known of a text that says this.
    fn known(&self, text: &str, facts: FileFacts, tree: &FileTree) -> Result<KnownText, AllocError>
        ensures facts { IfOk result (λ known. known.facts ≡ facts) }
        ensures asked { IfOk result (λ known. has_all known.asked.value (names_asked (names_of_file text.now facts tree.now.nodes) facts.decls) ≡ true) }
    {
        let asked = share(self.alloc, self.asked(text, &facts, tree)?)?;
        let facts = SharedFacts::of(self.alloc, facts)?;
        Ok(KnownText { facts, asked })
    }

    // What is known of a text that isn't proto3 where it is read, given what it says as proto3.
    fn known_of_other(
        &self,
        text: &str,
        own: &FileFacts,
        tree: &FileTree,
    ) -> Result<Option<KnownText>, AllocError>
        requires facts { own.now ≡ facts_of text.now }
        requires tree { tree.now ≡ value_tree text.now }
        ensures { IfOk result (IsOfOther text.now) }
    {
        if !is_other(text, own) {
            return Ok(None);
        }
        let declaring = parse_other(self.alloc, text)?;
        let facts = other_facts(self.alloc, text, &declaring, own)?;
        Ok(Some(self.known(text, facts, tree)?))
    }
}

impl Work for FileWork {
    ghost use Rattle.work_index.specs.Products.{IsProductOf};

    type Out = FileOut;

    ghost is_product_of = { IsProductOf };

    fn work(&self, text: &str) -> Result<FileOut, AllocError> {
        make_room_for_files(self.alloc, text.len())?;
        let tree = tree_of(self.alloc, text)?;
        let facts = facts(self.alloc, text, &tree)?;
        let other = self.known_of_other(text, &facts, &tree)?;
        let own = self.known(text, facts, &tree)?;
        Ok(FileOut { tree, own, other })
    }
}

// Whether a text that says this isn't proto3, and isn't too long.
fn is_other(text: &str, facts: &FileFacts) -> bool
    requires { facts.now ≡ facts_of text.now }
    ensures { result ≡ is_other text.now }
{
    matches!(facts.syntax, SyntaxFact::Opaque) && !is_too_long(text)
}

// What is asked for, for several owners.
fn share(alloc: Global, asked: Asked) -> Result<Arc<Asked>, AllocError>
    ensures { IfOk result (λ shared. shared.value ≡ asked) }
{
    match Arc::new(alloc, asked) {
        Ok(shared) => Ok(shared),
        Err(AllocFailed { .. }) => Err(AllocError),
    }
}

/// The tree of a text. A text that is too long has the tree of the empty text. An `Err` comes only where memory was refused.
pub fn tree_of(alloc: Global, text: &str) -> Result<FileTree, AllocError>
    ensures { IfOk result (λ tree. tree ≡ value_tree text.now) }
{
    if is_too_long(text) {
        parse_text(alloc, "")
    } else {
        parse_text(alloc, text)
    }
}

// A piece's text for another owner.
pub fn shared_text_in(piece: &Piece<FileWork>) -> Result<SharedText, AllocError>
    ensures { IfOk result (λ text. text ≡ piece.now.text) }
{
    piece.shared_text()
}

/// The tree of a piece's text.
pub fn tree_in(piece: &Piece<FileWork>) -> &FileTree
    ensures { result.now ≡ value_tree piece.now.text }
{
    &piece.out().tree
}

/// What is known of a piece's text; `reads_others` says whether texts that aren't proto3 are read for what they declare.
pub fn known_in(piece: &Piece<FileWork>, reads_others: bool) -> &KnownText
    ensures facts { result.now.facts ≡ facts_by reads_others piece.now.text }
    ensures asked { has_all result.now.asked.value (asked_of (record { text = piece.now.text; reads_others = reads_others })) ≡ true }
{
    piece.out().known(reads_others)
}

/// What a piece's text says as proto3.
pub fn facts_in(piece: &Piece<FileWork>) -> &FileFacts
    ensures { result.now ≡ facts_of piece.now.text }
{
    known_in(piece, false).facts.get()
}
