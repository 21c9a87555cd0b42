// What the grammar sees of a text: the terminals that its tokens are, and the bodies that statements stand in.
ghost use Rattle.std.specs.Prelude.{◌≡◌};

use crate::node::Span;

/// What a token is to the grammar. A word of the language is an identifier too. No token of a proto3 text is `Group` or `Visibility`: to its
/// grammar these words are names.
#[derive(Clone, Copy, Debug, PartialEq, Eq)]
pub enum Terminal {
    Message,
    Enum,
    Service,
    Oneof,
    Extend,
    Rpc,
    Syntax,
    Import,
    Package,
    Option,
    Reserved,
    Weak,
    Public,
    Repeated,
    Optional,
    Map,
    Stream,
    Returns,
    To,
    Max,
    /// `group`, of proto2.
    Group,
    /// `export` or `local`, of edition 2024.
    Visibility,
    Name,
    Int,
    Float,
    PlainText,
    EscapedText,
    OpenBrace,
    CloseBrace,
    OpenParen,
    CloseParen,
    OpenBracket,
    CloseBracket,
    Less,
    Greater,
    Semicolon,
    Comma,
    Equals,
    Dot,
    Colon,
    Plus,
    Minus,
    Slash,
}

/// A token as the grammar sees it.
#[derive(Clone, Copy, Debug, PartialEq, Eq)]
pub struct Lexeme {
    pub terminal: Terminal,
    pub span: Span,
}

/// What a list of statements stands in.
#[derive(Clone, Copy, Debug, PartialEq, Eq)]
pub enum Body {
    File,
    Message,
    Oneof,
    Extend,
    Enum,
    Service,
    Rpc,
}

impl Terminal {
    ghost use Rattle.proto_tree.specs.Forms as forms;
    ghost use Rattle.proto_tree.specs.Lexeme as spec;

    /// Whether the terminal begins a block.
    pub fn is_block_word(self) -> bool
        ensures { result ≡ spec.is_block_word self }
    {
        matches!(
            self,
            Terminal::Message
                | Terminal::Enum
                | Terminal::Service
                | Terminal::Oneof
                | Terminal::Extend
                | Terminal::Group
                | Terminal::Rpc
        )
    }

    /// Whether it is the label of a field.
    pub fn is_label(self) -> bool
        ensures { result ≡ forms.is_label self }
    {
        matches!(self, Terminal::Repeated | Terminal::Optional)
    }

    /// Whether it is neither a `;` nor a brace.
    pub fn is_plain(self) -> bool
        ensures { result ≡ spec.is_plain self }
    {
        match self {
            Terminal::Semicolon | Terminal::OpenBrace | Terminal::CloseBrace => false,
            _ => true,
        }
    }

    /// Whether it is an identifier, as each word of the language is.
    pub fn is_identifier(self) -> bool
        ensures { result ≡ spec.is_identifier self }
    {
        match self {
            Terminal::Int
            | Terminal::Float
            | Terminal::PlainText
            | Terminal::EscapedText
            | Terminal::OpenBrace
            | Terminal::CloseBrace
            | Terminal::OpenParen
            | Terminal::CloseParen
            | Terminal::OpenBracket
            | Terminal::CloseBracket
            | Terminal::Less
            | Terminal::Greater
            | Terminal::Semicolon
            | Terminal::Comma
            | Terminal::Equals
            | Terminal::Dot
            | Terminal::Colon
            | Terminal::Plus
            | Terminal::Minus
            | Terminal::Slash => false,
            _ => true,
        }
    }
}

impl Lexeme {
    ghost use Rattle.proto_tree.specs.Lexeme as spec;

    /// Whether it is this terminal.
    pub fn is(self, terminal: Terminal) -> bool
        ensures { result ≡ spec.is terminal self }
    {
        self.terminal == terminal
    }
}
