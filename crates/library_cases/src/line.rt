// The answer to a line, as far as there is memory for it.
use crate::marks::marked;
use std::alloc::{AllocError, Global};

/// The answer to a line, which is written piece by piece. Where one finds no memory, the answer says so, and no call has to.
#[derive(Drop)]
pub struct Line {
    text: String,
    is_refused: bool,
}

impl Line {
    /// An answer of which nothing is written yet.
    pub fn new(alloc: Global) -> Line {
        Line {
            text: String::new(alloc),
            is_refused: false,
        }
    }

    fn note(&mut self, put: Result<(), AllocError>) {
        self.is_refused = self.is_refused || put.is_err();
    }

    /// Says that there was no memory.
    pub fn refuse(&mut self) {
        self.is_refused = true;
    }

    /// Writes a text.
    pub fn put(&mut self, text: &str) {
        let put = self.text.push_str(text);
        self.note(put);
    }

    /// Writes a number.
    pub fn put_number(&mut self, number: u64) {
        let put = write!(self.text, "{number}");
        self.note(put);
    }

    /// Writes `true` or `false`.
    pub fn put_bool(&mut self, value: bool) {
        self.put(if value { "true" } else { "false" });
    }

    /// Writes a fault by its number.
    pub fn put_fault(&mut self, code: u32) {
        self.put("fault ");
        self.put_number(code as u64);
    }

    /// Writes a text with the characters that stand for others, and no `S|`.
    pub fn put_shown(&mut self, text: &str) {
        for character in text.chars() {
            let put = self.text.push(marked(character));
            self.note(put);
        }
    }

    /// Writes the answer to one of several cases that are to have the same: once, and again, with the case, where it differs.
    pub fn put_once(&mut self, case: &str, answer: &str) {
        if self.as_str().is_empty() {
            self.put(answer);
        } else if self.as_str() != answer {
            self.put("; but at ");
            self.put(case);
            self.put(": ");
            self.put(answer);
        }
    }

    /// What is written, without blanks at its end.
    pub fn as_str(&self) -> &str {
        if self.is_refused {
            "error: out of memory"
        } else {
            self.text.as_str().trim_end()
        }
    }
}
