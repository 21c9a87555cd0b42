// What a check says on standard error of how much it checked. A standard error that is closed changes nothing.

use program_folder::FoundFile;
use std::alloc::{AllocError, Global};
use work_check::Checked;

// Whether there is a file below each of so many folders.
fn have_files(alloc: Global, count: usize, found: &[FoundFile]) -> Result<Vec<bool>, AllocError> {
    let mut have = vec![in alloc; false; count]?;
    for file in found {
        if let Some(has) = have.get_mut(file.root) {
            *has = true;
        }
    }
    Ok(have)
}

// Says below which of these folders no file was found.
pub fn tell_empty_folders<R: Eprint + AllocGlobal>(
    rt: &R,
    dirs: &[&str],
    found: &[FoundFile],
) -> Result<(), AllocError> {
    let have = have_files(rt.alloc(), dirs.len(), found)?;
    for (dir, has) in dirs.iter().zip(&have) {
        if !*has {
            let _told = eprintln!(rt; "protols: no .proto files below {dir}");
        }
    }
    Ok(())
}

// The word for one thing, or for several.
fn word_for(count: usize, one: &'static str, several: &'static str) -> &'static str {
    if count == 1 { one } else { several }
}

/// Says on standard error how many files were checked, how many errors were found in them, and how many weren't checked for unknown names and why,
/// if there are any. Control characters of an import are escaped, since a terminal would obey them.
pub fn tell_summary(rt: &impl Eprint, checked: &Checked) {
    let files = checked.files;
    let file_word = word_for(files, "file", "files");
    let errors = checked.errors;
    let error_word = word_for(errors, "error", "errors");
    let Some(lost) = &checked.first_lost else {
        let _told = eprintln!(rt; "protols: {files} {file_word} checked, {errors} {error_word}");
        return;
    };
    let path = lost.as_str().escape_debug();
    let unchecked = checked.unchecked;
    let unchecked_word = word_for(unchecked, "file", "files");
    let _told = eprintln!(rt;
        "protols: {files} {file_word} checked, {errors} {error_word}; {unchecked} {unchecked_word} not checked for unknown names, since an import is missing, too long or not proto3: {path}"
    );
}
