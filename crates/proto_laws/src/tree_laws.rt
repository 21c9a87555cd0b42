// Laws of the definitions. Each is proved for all texts, and its function does nothing.
ghost use Rattle.std.specs.List.Sorted.{IsStrictlyIncreasing};
ghost use Rattle.std.specs.Prelude.{◌≡◌, ◌↔◌, ◌<◌, ◌≤◌, ℕ, IsTrue, List, [], false, length, map};
ghost use Rattle.proto_laws.specs.Apart.{NamesAreApart};
ghost use Rattle.proto_laws.specs.OtherTrees.{IsOtherTreeOf};
ghost use Rattle.proto_laws.specs.Reading.{HeadersAreRead, HeadersAreUnique, StatementsAreRead, StatementsAreUnique};
ghost use Rattle.proto_laws.specs.Trees.{BlocksEnd, IsTreeOf, ReadsBody};
ghost use Rattle.proto_tree.specs.declared.node.FileTree.{FileTree};
ghost use Rattle.proto_tree.specs.Cut.{items, AreItems};
ghost use Rattle.proto_tree.specs.Grammar.{HeadersAreSpelled, StatementsAreSpelled};
ghost use Rattle.proto_tree.specs.Identifiers.{AllIdentifiers, IsIdentifierAt, NamesAreIdentifiers};
ghost use Rattle.proto_tree.specs.Lexeme.{terminal_of};
ghost use Rattle.proto_tree.specs.Names.{names_in, type_components_in, type_names_in};
ghost use Rattle.proto_tree.specs.Others.{is_other_word, other_tree};
ghost use Rattle.proto_tree.specs.Parts.{IsBalanced, is_balanced};
ghost use Rattle.proto_tree.specs.Read.{body_tree, empty_tree, read, value_tree};
ghost use Rattle.proto_lex.specs.declared.token.Kind.{Kind};
ghost use Rattle.proto_tree.specs.declared.lexeme.Body.{Body};
ghost use Rattle.proto_tree.specs.declared.lexeme.Lexeme.{Lexeme};

use proto_lex::{cut_tokens, one_token_list, ordered_tokens};

/// A law: the statements of a body are its tokens joined, each up to the least place at which it ends, and no other
/// list of them is.
pub fn items_law()
    ensures least { (body : Body) (ts : List Lexeme) → AreItems body ts (items body ts) }
    ensures only { (body : Body) (ts : List Lexeme) (others : List (List Lexeme)) → AreItems body ts others → others ≡ items body ts }
{}

/// A law: the test for brackets in pairs passes exactly what the grammar of brackets in pairs has.
pub fn brackets_law()
    ensures { (ts : List Lexeme) → IsTrue (is_balanced ts) ↔ IsBalanced ts }
{}

/// A law: as the header of a block, with its `{` behind it, exactly the tokens are read that the grammar says, and what is
/// behind them is left. Tokens begin with one header at most.
pub fn headers_law()
    ensures spelled { HeadersAreSpelled }
    ensures read { HeadersAreRead }
    ensures only { HeadersAreUnique }
{}

/// A law: as a statement without a block exactly the tokens are read that the grammar says. They spell one statement at most.
pub fn statements_law()
    ensures spelled { StatementsAreSpelled }
    ensures read { StatementsAreRead }
    ensures only { StatementsAreUnique }
{}

/// A law: of a block that is cut out of its body the last token is a `}`.
pub fn blocks_law()
    ensures { BlocksEnd }
{}

/// A law: each body, and each text, is read as the one tree that the rules for items and blocks say, and as no other.
pub fn trees_law()
    ensures body { (blocks : ℕ) (body : Body) (ts : List Lexeme) (tree : FileTree) → ReadsBody blocks body ts tree ↔ (tree ≡ body_tree blocks body ts) }
    ensures exists { (text : List ℕ) → IsTreeOf text (read text) }
    ensures only { (text : List ℕ) (tree : FileTree) → IsTreeOf text tree → tree ≡ read text }
{
    one_token_list();
}

/// A law: a text of over 16,777,216 bytes has the tree of the empty text, with no statements and no faults, and each
/// other text has the tree that is read.
pub fn size_law()
    ensures empty { read [] ≡ empty_tree }
    ensures over { (text : List ℕ) → 16777216 < length text → value_tree text ≡ empty_tree }
    ensures within { (text : List ℕ) → length text ≤ 16777216 → value_tree text ≡ read text }
{}

/// A law: the names that the statements of a text declare, each before those inside its braces, start at ascending
/// offsets.
pub fn names_law()
    ensures { (text : List ℕ) → IsStrictlyIncreasing (map (λ s. s.start) (names_in (read text).nodes)) }
{
    ordered_tokens();
}

/// A law: the names of types in a text start at ascending offsets, and so do their components, put in one list.
pub fn type_names_law()
    ensures names { (text : List ℕ) → IsStrictlyIncreasing (map (λ t. t.span.start) (type_names_in (read text).nodes)) }
    ensures components { (text : List ℕ) → IsStrictlyIncreasing (map (λ s. s.start) (type_components_in (read text).nodes)) }
{
    ordered_tokens();
}

/// A law: no two names of a text touch. Those that statements declare and the components of types and of packages, put in one
/// list by their offsets, have a byte or more, and each ends before the next one starts, with a byte at least between the two.
pub fn names_apart()
    ensures { (text : List ℕ) → NamesAreApart (read text).nodes }
{
    one_token_list();
    ordered_tokens();
}

/// A law: the names of a text, those that statements declare and the components of types and of packages, are identifiers:
/// an ASCII letter or an underscore, and then ASCII letters, digits and underscores alone. UTF-8 text may be cut at their ends.
pub fn identifiers_law()
    ensures { NamesAreIdentifiers }
{
    one_token_list();
    cut_tokens();
}

/// A law: a text that isn't proto3 is read for what it declares as the one tree that rules for its tokens, items and blocks say. Those for tokens are
/// said in the words of proto2 and of the editions: their labels, groups, and `export` and `local`.
pub fn other_trees_law()
    ensures exists { (text : List ℕ) → IsOtherTreeOf text (other_tree text) }
    ensures only { (text : List ℕ) (tree : FileTree) → IsOtherTreeOf text tree → tree ≡ other_tree text }
{
    one_token_list();
}

/// A law: the names of a text that isn't proto3 are in order and apart. As it is read for what it declares, the declared names start at ascending
/// offsets, no two names touch, and each is an identifier. No token is to proto3 one of the words that this reading has beside its own.
pub fn other_names_law()
    ensures order { (text : List ℕ) → IsStrictlyIncreasing (map (λ s. s.start) (names_in (other_tree text).nodes)) }
    ensures apart { (text : List ℕ) → NamesAreApart (other_tree text).nodes }
    ensures identifiers { (text : List ℕ) → AllIdentifiers (IsIdentifierAt text) (other_tree text).nodes }
    ensures words { (kind : Kind) (bytes : List ℕ) → is_other_word (terminal_of kind bytes) ≡ false }
{
    one_token_list();
    ordered_tokens();
    cut_tokens();
}
