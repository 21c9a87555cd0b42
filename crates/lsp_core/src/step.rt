// The two steps of a message.

/// A step of a core: the first message that hasn't begun begins, which changes the state and the board, or the one that has begun
/// finishes, which gives the replies to it.
#[derive(Clone, Copy, Debug, PartialEq, Eq)]
pub enum Step {
    Begin,
    Finish,
}
