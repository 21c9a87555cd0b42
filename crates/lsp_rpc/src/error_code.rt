// The errors that a request is answered with.
ghost use Rattle.std.specs.Prelude.{◌≡◌};
ghost use Rattle.lsp_rpc.specs.Reply.{refusal_text, error_row};

/// Why a rename is refused.
#[derive(Clone, Copy, Debug, PartialEq, Eq)]
pub enum RenameRefusal {
    /// 701: no symbol stands at the place.
    NoSymbol,
    /// 702: what stands there is a package.
    NotRenamable,
    /// 703: the new name isn't an identifier.
    BadName,
    /// 704: the new name is taken.
    NameTaken,
    /// 705: a name would mean something else, or other diagnostics would be there.
    MeaningChanges,
}

impl RenameRefusal {
    // The text of the refusal.
    fn message(self) -> &'static str
        ensures { result.now ≡ refusal_text self }
    {
        match self {
            RenameRefusal::NoSymbol => "rename refused: 701",
            RenameRefusal::NotRenamable => "rename refused: 702",
            RenameRefusal::BadName => "rename refused: 703",
            RenameRefusal::NameTaken => "rename refused: 704",
            RenameRefusal::MeaningChanges => "rename refused: 705",
        }
    }
}

/// Why a message is answered with an error (JSON-RPC 2.0, section 5.1, and Language Server Protocol
/// 3.17, "ErrorCodes").
#[derive(Clone, Copy, Debug, PartialEq, Eq)]
pub enum ErrorCode {
    /// -32700: the body is no JSON text.
    ParseError,
    /// -32600: the body is no call, or no call that may come now.
    InvalidRequest,
    /// -32601: the server doesn't know the method.
    MethodNotFound,
    /// -32602: the params are not those of the method.
    InvalidParams,
    /// -32002: a request came before `initialize`.
    ServerNotInitialized,
    /// -32803, "RequestFailed": a rename is refused.
    RenameRefused(RenameRefusal),
}

impl ErrorCode {
    /// The number of the error.
    pub(crate) fn number(self) -> i64
        ensures { result ≡ (error_row self).0 }
    {
        match self {
            ErrorCode::ParseError => -32700,
            ErrorCode::InvalidRequest => -32600,
            ErrorCode::MethodNotFound => -32601,
            ErrorCode::InvalidParams => -32602,
            ErrorCode::ServerNotInitialized => -32002,
            ErrorCode::RenameRefused(_) => -32803,
        }
    }

    /// The text beside the number.
    pub(crate) fn message(self) -> &'static str
        ensures { result.now ≡ (error_row self).1 }
    {
        match self {
            ErrorCode::ParseError => "parse error",
            ErrorCode::InvalidRequest => "invalid request",
            ErrorCode::MethodNotFound => "method not found",
            ErrorCode::InvalidParams => "invalid params",
            ErrorCode::ServerNotInitialized => "server not initialized",
            ErrorCode::RenameRefused(refusal) => refusal.message(),
        }
    }
}
