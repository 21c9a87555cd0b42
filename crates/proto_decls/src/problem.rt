// What a diagnostic says: its number, its severity and its words.
ghost use Rattle.std.specs.Prelude.{◌≡◌};
ghost use Rattle.proto_decls.specs.Problems as spec;

/// What a diagnostic says. The variants are in the order of their numbers, and those of one number in the order of
/// their words.
#[derive(Clone, Copy, Debug, PartialEq, Eq, PartialOrd, Ord)]
pub enum Problem {
    /// A character that begins no token.
    IllegalCharacter,
    /// A run that begins as a number does and is none.
    MalformedNumber,
    /// A `/*` that no `*/` follows.
    UnfinishedComment,
    /// A string that meets a line feed or the text's end before its closing quote.
    UnfinishedString,
    /// A statement that no form of the grammar reads.
    NotUnderstood,
    /// A block inside 64 others.
    TooDeep,
    /// A statement that the text or its block ends before its `;` or `}`, or a `}` that ends no block.
    Unfinished,
    /// A field number or a bound of a message's reserved range that is not in 1 to 536,870,911.
    NumberOutOfRange,
    /// A field number that the language keeps for itself.
    NumberKeptFree,
    /// The number of an earlier field of the message.
    NumberUsedTwice,
    /// The number of a field or a value in a reserved range.
    NumberReserved,
    /// The name of a field or a value that is reserved.
    NameReserved,
    /// A range that shares a number with an earlier one, or a name that is reserved before.
    ReservedTwice,
    /// A range whose last number is below its first.
    RangeBackwards,
    /// An enum whose first value is not 0, or that has no value.
    FirstNotZero,
    /// The number of a value or a bound of an enum's reserved range that is not in -2,147,483,648 to 2,147,483,647.
    EnumNumberOutOfRange,
    /// The number of an earlier value, in an enum without `option allow_alias = true;`.
    EnumNumberUsedTwice,
    /// A map's key that is no integer, `bool` or `string`.
    MapKey,
    /// The full name of an earlier declaration of the file.
    DeclaredTwice,
    /// The path of an earlier import.
    ImportedTwice,
    /// A `package` behind the first.
    PackageTwice,
    /// A `syntax` that is not the first statement.
    SyntaxNotFirst,
    /// A text of more than 16,777,216 bytes.
    TextTooLong,
    /// A file whose first `syntax` does not say proto3, or that has none.
    NotProto3,
    /// A field's second label, or a label of a map or in a oneof.
    LabelNotAllowed,
    /// A name that nothing visible has.
    Unresolved,
    /// A name of something that may not stand there.
    WrongKind,
    /// An import of no file of the workspace.
    ImportNotFound,
    /// An import of a file that imports this one, itself or through others.
    ImportCycle,
    /// A full name that another visible file declares.
    DeclaredElsewhere,
    /// A full name that is a package of a visible file.
    NameIsPackage,
}

impl Problem {
    /// The number of the diagnostic, 201 to 406.
    pub fn code(self) -> u32
        ensures { result ≡ spec.code self }
    {
        match self {
            Problem::IllegalCharacter => 201,
            Problem::MalformedNumber => 201,
            Problem::UnfinishedComment => 201,
            Problem::UnfinishedString => 201,
            Problem::NotUnderstood => 202,
            Problem::TooDeep => 203,
            Problem::Unfinished => 204,
            Problem::NumberOutOfRange => 301,
            Problem::NumberKeptFree => 302,
            Problem::NumberUsedTwice => 303,
            Problem::NumberReserved => 304,
            Problem::NameReserved => 305,
            Problem::ReservedTwice => 306,
            Problem::RangeBackwards => 307,
            Problem::FirstNotZero => 308,
            Problem::EnumNumberOutOfRange => 309,
            Problem::EnumNumberUsedTwice => 310,
            Problem::MapKey => 311,
            Problem::DeclaredTwice => 312,
            Problem::ImportedTwice => 313,
            Problem::PackageTwice => 314,
            Problem::SyntaxNotFirst => 315,
            Problem::TextTooLong => 316,
            Problem::NotProto3 => 317,
            Problem::LabelNotAllowed => 318,
            Problem::Unresolved => 401,
            Problem::WrongKind => 402,
            Problem::ImportNotFound => 403,
            Problem::ImportCycle => 404,
            Problem::DeclaredElsewhere => 405,
            Problem::NameIsPackage => 406,
        }
    }

    /// The severity of the diagnostic as editors count it: 3, an information, for a file that is not proto3, and 1, an
    /// error, for all others.
    pub fn severity(self) -> u32
        ensures { result ≡ spec.severity self }
    {
        match self {
            Problem::NotProto3 => 3,
            _ => 1,
        }
    }

    /// The words of the diagnostic, in English.
    pub fn text(self) -> &'static str
        ensures { result.now ≡ spec.text self }
    {
        match self {
            Problem::IllegalCharacter => "illegal character",
            Problem::MalformedNumber => "malformed number",
            Problem::UnfinishedComment => "unfinished comment",
            Problem::UnfinishedString => "unfinished string",
            Problem::NotUnderstood => "statement not understood",
            Problem::TooDeep => "blocks nested too deep",
            Problem::Unfinished => "unfinished statement",
            Problem::NumberOutOfRange => "number out of range",
            Problem::NumberKeptFree => "number in 19000 to 19999",
            Problem::NumberUsedTwice => "number used twice",
            Problem::NumberReserved => "number is reserved",
            Problem::NameReserved => "name is reserved",
            Problem::ReservedTwice => "reserved twice",
            Problem::RangeBackwards => "range runs backwards",
            Problem::FirstNotZero => "first enum value must be zero",
            Problem::EnumNumberOutOfRange => "enum number out of range",
            Problem::EnumNumberUsedTwice => "number used twice without allow_alias",
            Problem::MapKey => "map key type not allowed",
            Problem::DeclaredTwice => "name declared twice",
            Problem::ImportedTwice => "import listed twice",
            Problem::PackageTwice => "package stated twice",
            Problem::SyntaxNotFirst => "syntax must come first",
            Problem::TextTooLong => "text too long",
            Problem::NotProto3 => "not a proto3 file",
            Problem::LabelNotAllowed => "label not allowed here",
            Problem::Unresolved => "unresolved name",
            Problem::WrongKind => "wrong kind of name",
            Problem::ImportNotFound => "import not found",
            Problem::ImportCycle => "import cycle",
            Problem::DeclaredElsewhere => "name declared in a visible file",
            Problem::NameIsPackage => "name is a package",
        }
    }
}
