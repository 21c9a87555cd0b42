// The tree of a whole text.
ghost use Rattle.std.specs.Prelude.{◌≡◌, [], All, IfOk, length};
ghost use Rattle.proto_lex.specs.Tokens as lexer;
ghost use Rattle.proto_tree.specs.Lexeme.{IsWithin};
ghost use Rattle.proto_tree.specs.Others.{other_tree};
ghost use Rattle.proto_tree.specs.Read as spec;
ghost use Rattle.proto_tree.specs.declared.lexeme.Body.TheVariants as b;

use crate::others::other_lexemes;
use crate::read::{BodyReader, body_tree};
use crate::scan::{lexemes, text_lexemes};
use crate::skips::Matched;
use proto_lex::{Token, ordered_tokens};
use proto_tree::{Body, Fault, FileTree, Lexeme};
use sqlite_items::Items;
use std::alloc::{AllocError, Global};

// How many blocks may stand one inside the other.
const MAX_BLOCKS: usize = 64;

/// The tree of a text: its statements, by the grammar of proto3 files, and what is wrong with those that aren't
/// read.
///
/// Takes the text and its tokens as `proto_lex::lex` gives them. A bad statement costs itself alone: the statements
/// around it, and those of the block that it stands in, are read all the same.
///
/// # Errors
///
/// `AllocError` where the tree can't grow. Text and tokens stay as they are, so the call may be made again.
pub fn parse(alloc: Global, text: &str, tokens: &[Token]) -> Result<FileTree, AllocError>
    requires { tokens.now ≡ lexer.tokens text.now }
    ensures { IfOk result (λ tree. tree ≡ spec.read text.now) }
{
    ordered_tokens();
    tree_of(alloc, text, tokens)
}

/// The tree of a text: what `lex` and `parse` give of it together.
///
/// It takes less memory than the two, since no list of tokens is made.
///
/// # Errors
///
/// `AllocError` where the tree can't grow. The text stays as it is, so the call may be made again.
#[tactic(auto, unfolding(proto_tree::specs::Read::read, proto_tree::specs::Read::tree_of))]
pub fn parse_text(alloc: Global, text: &str) -> Result<FileTree, AllocError>
    ensures { IfOk result (λ tree. tree ≡ spec.read text.now) }
{
    let mut faults = Items::new(alloc);
    let lexemes = text_lexemes(alloc, text.as_bytes(), &mut faults)?;
    lexeme_tree(alloc, lexemes.as_slice(), faults)
}

/// The tree of a text that isn't proto3: its statements by the forms of proto3, to which come the label `required` and groups. The label of a group,
/// and `export` and `local` before a message or an enum, are left out. Other statements of proto2 and of the editions are among the faults.
///
/// # Errors
///
/// `AllocError` where the tree can't grow. The text stays as it is, so the call may be made again.
#[tactic(auto, unfolding(proto_tree::specs::Others::other_tree))]
pub fn parse_other(alloc: Global, text: &str) -> Result<FileTree, AllocError>
    ensures { IfOk result (λ tree. tree ≡ other_tree text.now) }
{
    let mut faults = Items::new(alloc);
    let lexemes = other_lexemes(alloc, text.as_bytes(), &mut faults)?;
    lexeme_tree(alloc, lexemes.as_slice(), faults)
}

// The tree of a text and of tokens that lie in it.
#[tactic(auto, unfolding(proto_tree::specs::Read::tree_of))]
fn tree_of(alloc: Global, text: &str, tokens: &[Token]) -> Result<FileTree, AllocError>
    requires { All (IsWithin (length text.now)) tokens.now }
    ensures { IfOk result (λ tree. tree ≡ spec.tree_of text.now tokens.now) }
{
    let mut faults = Items::new(alloc);
    let lexemes = lexemes(alloc, text.as_bytes(), tokens, &mut faults)?;
    lexeme_tree(alloc, lexemes.as_slice(), faults)
}

// The tree of a file's lexemes, behind these faults.
fn lexeme_tree(
    alloc: Global,
    lexemes: &[Lexeme],
    faults: Items<Fault>,
) -> Result<FileTree, AllocError>
    ensures { IfOk result (λ tree. tree ≡ spec.join (record { nodes = []; faults = faults }) (spec.body_tree spec.max_blocks b.File lexemes.now)) }
{
    let mut faults = faults;
    let file = Matched {
        tokens: lexemes,
        skips: &[],
    };
    let reader = BodyReader {
        alloc,
        blocks: MAX_BLOCKS,
        body: Body::File,
    };
    let nodes = body_tree(reader, file, &mut faults)?;
    Ok(FileTree { nodes, faults })
}
