// What a check is asked for, and what it answers.
ghost use Rattle.std.specs.Prelude.{◌≡◌};
ghost use Rattle.work_check.specs.Listing.{folder_of, is_wanted};

use check_lines::Format;
use proto_decls::Name;
use std::collections::BTreeSet;
use work_config::Config;

/// What a check writes.
#[derive(Drop)]
pub struct Listing {
    /// How its lines are written.
    pub format: Format,
    /// How the folder of each root is shown, in the order of the roots. That of a root behind the last of them is empty.
    pub folders: Vec<String>,
    /// The paths of the files whose lines are written; those of all files if `None`.
    pub only: Option<BTreeSet<String>>,
}

/// What a check is asked for.
#[derive(Drop)]
pub struct Asked {
    /// The roots and the files.
    pub config: Config,
    /// What it writes of them.
    pub how: Listing,
    /// How many threads do the work, from 1 to 64.
    pub workers: usize,
}

/// What a check found.
#[derive(Debug, Drop)]
pub struct Checked {
    /// How many files were asked for.
    pub files: usize,
    /// How many of their diagnostics are errors; the highest number if there are more.
    pub errors: usize,
    /// How many of them aren't checked for unknown names (401, 402), since an import of theirs, or of a file that they see, names no file, or
    /// one that isn't proto3.
    pub unchecked: usize,
    /// The path in the first such import, as it is written: of the first of these files by path, the first file by path that it sees, itself
    /// among them, which has such an import, and there the first. `None` if there is none.
    pub first_lost: Option<Name>,
}

impl Listing {
    // How the folder of a root is shown.
    pub fn folder(&self, root: Option<usize>) -> &str
        ensures { result.now ≡ folder_of self.now root }
    {
        match root {
            Some(root) => match self.folders.get(root) {
                Some(folder) => folder.as_str(),
                None => "",
            },
            None => "",
        }
    }

    // Whether the lines of the file with a path are asked for.
    pub fn wants(&self, path: &str) -> bool
        ensures { result ≡ is_wanted self.now path.now }
    {
        match &self.only {
            Some(paths) => paths.contains(path),
            None => true,
        }
    }
}
