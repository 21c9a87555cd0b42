// How a server's session ended.

/// How a server's session ended, where nothing failed.
#[derive(Clone, Copy, Debug, PartialEq, Eq)]
pub enum Ended {
    /// The editor sent `exit`.
    Exit {
        /// Whether it sent `shutdown` before.
        after_shutdown: bool,
    },
    /// The input ended between two frames.
    InputEnd,
    /// The input shows a frame that can't be read: its number, from 101 to 106.
    BadFrame(u32),
}
