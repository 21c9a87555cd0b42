// Characters that stand for others.
use std::alloc::{AllocError, Global};

/// The text that a field writes: a `|` is a line feed, Unicode's pictures of control characters are those characters, and `S|`
/// at the front is the line `syntax = "proto3";`.
pub fn plain(alloc: Global, field: &str) -> Result<String, AllocError> {
    let mut text = String::new(alloc);
    let body = match field.strip_prefix("S|") {
        None => field,
        Some(body) => {
            text.push_str("syntax = \"proto3\";\n")?;
            body
        }
    };
    for mark in body.chars() {
        text.push(unmarked(mark))?;
    }
    Ok(text)
}

fn unmarked(mark: char) -> char {
    match mark {
        '|' => '\n',
        '␍' => '\r',
        '␉' => '\t',
        '␋' => '\u{B}',
        '␌' => '\u{C}',
        '␀' => '\0',
        '␡' => '\u{7F}',
        '␣' => '\u{A0}',
        '␂' => '\u{FEFF}',
        other => other,
    }
}

/// The character that stands for another one in an answer.
pub fn marked(character: char) -> char {
    match character {
        '\n' => '|',
        '\r' => '␍',
        '\t' => '␉',
        '\0' => '␀',
        '\u{7F}' => '␡',
        other => other,
    }
}
