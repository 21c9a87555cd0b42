// How far a session has come.

/// How far a session has come (Language Server Protocol 3.17, "Server lifecycle").
#[derive(Clone, Copy, Debug, PartialEq, Eq)]
pub enum Phase {
    /// Before the request `initialize`.
    Uninitialized,
    /// The server answers.
    Running,
    /// After the request `shutdown`: only `exit` counts.
    Shut,
    /// After the notification `exit`: every message is dropped.
    Exited {
        /// Whether `shutdown` came before it.
        after_shutdown: bool,
    },
}
