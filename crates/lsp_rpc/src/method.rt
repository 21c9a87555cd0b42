// The methods of the Language Server Protocol that the server knows.
ghost use Rattle.std.specs.Prelude.{◌≡◌};
ghost use Rattle.lsp_rpc.specs.Method.{method_named};

/// A method that the server knows (Language Server Protocol 3.17).
#[derive(Clone, Copy, Debug, PartialEq, Eq)]
pub enum Method {
    /// `initialize`
    Initialize,
    /// `shutdown`
    Shutdown,
    /// `exit`
    Exit,
    /// `textDocument/didOpen`
    DidOpen,
    /// `textDocument/didChange`
    DidChange,
    /// `textDocument/didSave`
    DidSave,
    /// `textDocument/didClose`
    DidClose,
    /// `textDocument/diagnostic`
    DocumentDiagnostic,
    /// `workspace/diagnostic`
    WorkspaceDiagnostic,
    /// `workspace/symbol`
    WorkspaceSymbol,
    /// `textDocument/definition`
    Definition,
    /// `textDocument/references`
    References,
    /// `textDocument/rename`
    Rename,
}

impl Method {
    /// The method with this very name, or `None` where the server knows none.
    pub fn named(name: &str) -> Option<Method>
        ensures { result ≡ method_named name.now }
    {
        match name {
            "initialize" => Some(Method::Initialize),
            "shutdown" => Some(Method::Shutdown),
            "exit" => Some(Method::Exit),
            "textDocument/didOpen" => Some(Method::DidOpen),
            "textDocument/didChange" => Some(Method::DidChange),
            "textDocument/didSave" => Some(Method::DidSave),
            "textDocument/didClose" => Some(Method::DidClose),
            "textDocument/diagnostic" => Some(Method::DocumentDiagnostic),
            "workspace/diagnostic" => Some(Method::WorkspaceDiagnostic),
            "workspace/symbol" => Some(Method::WorkspaceSymbol),
            "textDocument/definition" => Some(Method::Definition),
            "textDocument/references" => Some(Method::References),
            "textDocument/rename" => Some(Method::Rename),
            _ => None,
        }
    }
}
