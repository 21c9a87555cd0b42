// What the words of a command line ask for, and the URLs of folders.
use crate::line::Line;
use crate::marks::plain;
use crate::words::field;
use program_options::words::Options;
use program_options::{options, root_url};
use std::alloc::{AllocError, Global};

/// Writes the URL of a folder.
pub fn write_folder(alloc: Global, line: &mut Line, given: &str) -> Result<(), AllocError> {
    let dir = plain(alloc, field(given, 1))?;
    let url = root_url(alloc, dir.as_str())?;
    line.put(url.as_str());
    Ok(())
}

// Writes words, each behind a sign.
fn put_words(line: &mut Line, sign: &str, words: &[&str]) {
    for word in words {
        line.put(sign);
        line.put(word);
    }
}

// What is asked for: the command, the number of workers, the format if it isn't `plain`, `quiet` if that is asked for, the folders, and the
// files.
fn put_options(line: &mut Line, asked: &Options<'_>) {
    line.put(if asked.check { "check " } else { "serve " });
    line.put_number(asked.workers as u64);
    if asked.format != "plain" {
        put_words(line, " ", &[asked.format]);
    }
    if asked.quiet {
        line.put(" quiet");
    }
    put_words(line, "|", asked.dirs.as_slice());
    put_words(line, ">", asked.files.as_slice());
}

fn words_of(alloc: Global, given: &str) -> Result<Vec<String>, AllocError> {
    let mut words = Vec::new(alloc);
    for word in given.split(" :: ") {
        words.push(String::from_str(alloc, word)?)?;
    }
    Ok(words)
}

/// The words of a command line, the program's name first: writes what they ask for, or the status with which the program ends that
/// can't take them.
pub fn write_words(alloc: Global, line: &mut Line, given: &str) -> Result<(), AllocError> {
    let words = words_of(alloc, given)?;
    match options(alloc, words.as_slice()) {
        Ok(asked) => put_options(line, &asked),
        Err(error) => {
            line.put("status ");
            line.put_number(error.exit_code().unsigned_abs() as u64);
        }
    }
    Ok(())
}
