// What a thread enters before it works on a file.

use std::marker::{Send, Sync};

/// What a thread enters before it works on a file: before the work on its text, and again before it links the file in an
/// analysis by several threads. A test can hold threads back with it. All threads share one gate, which takes no part in what
/// they make.
pub trait Gate: Send + Sync + Drop {
    /// Called with the path of the text and its stamp, before the work on it begins. The work waits until it returns.
    fn enter(&self, path: &str, stamp: u64);
}

/// A gate that is always open: entering it does nothing.
#[derive(Drop)]
pub struct OpenGate;

impl Gate for OpenGate {
    fn enter(&self, _path: &str, _stamp: u64) {}
}
