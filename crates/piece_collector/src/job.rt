// What a worker is to make a piece of.
ghost use Rattle.std.specs.Prelude.{◌≡◌, string_bytes};

use crate::text::SharedText;
use std::marker::Model;

/// A text that is to be worked on, with its path and the stamp that it had.
#[derive(Drop)]
pub struct Job {
    path: String,
    stamp: u64,
    text: SharedText,
}

impl Model for Job {
    ghost use Rattle.std.specs.Prelude.{string_bytes};
    ghost use Rattle.piece_collector.specs.Views.{TextAt};

    ghost Value = { TextAt };

    ghost view = { λ j. record { path = string_bytes j.path; stamp = j.stamp; text = j.text } };
}

impl Job {
    /// The job of this path, stamp and text. A board gives jobs itself; one that is made here is judged like those.
    pub fn new(path: String, stamp: u64, text: String) -> Job
        ensures { result ≡ record { path = string_bytes path; stamp = stamp; text = string_bytes text } }
    {
        Job::sharing(path, stamp, SharedText::own(text))
    }

    /// The job of this path and stamp, and of this text, which it may share.
    pub fn sharing(path: String, stamp: u64, text: SharedText) -> Job
        ensures { result ≡ record { path = string_bytes path; stamp = stamp; text = text } }
    {
        Job { path, stamp, text }
    }

    /// The path.
    pub fn path(&self) -> &str
        ensures { result.now ≡ self.now.path }
    {
        self.path.as_str()
    }

    /// The stamp.
    pub fn stamp(&self) -> u64
        ensures { result ≡ self.now.stamp }
    {
        self.stamp
    }

    /// The text.
    pub fn text(&self) -> &str
        ensures { result.now ≡ self.now.text }
    {
        self.text.as_str()
    }

    /// The path itself; the text is dropped.
    pub fn into_path(self) -> String
        ensures { string_bytes result ≡ self.path }
    {
        self.into_parts().0
    }

    /// The path, the stamp and the text.
    pub(crate) fn into_parts(self) -> (String, u64, SharedText)
        ensures path { string_bytes result.0 ≡ self.path }
        ensures stamp { result.1 ≡ self.stamp }
        ensures text { result.2 ≡ self.text }
    {
        (self.path, self.stamp, self.text)
    }
}
