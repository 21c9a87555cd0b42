// What a file sees.
ghost use Rattle.std.specs.Prelude.{◌≡◌};
ghost use Rattle.std.specs.List.{list_any};
ghost use Rattle.std.specs.List.Sorted.{IsStrictlyIncreasing};
ghost use Rattle.proto_names.specs.Files.{is_seen};

use proto_names::PackagedFile;
use sqlite_items::Items;

// A file and the files that it sees.
#[derive(Drop)]
pub struct View {
    // The file that sees.
    pub file: usize,
    // The files that it sees, ascending.
    pub files: Items<usize>,
    ghost ascending: { IsStrictlyIncreasing files },
}

impl View {
    // Whether the file sees another.
    pub fn has(&self, file: usize) -> bool
        ensures { result ≡ is_seen self.now.files file }
    {
        self.files.as_slice().binary_search(&file).is_ok()
    }

    // Whether the file sees one of these.
    pub fn has_one_of(&self, files: &[PackagedFile]) -> bool
        ensures { result ≡ list_any (λ p. is_seen self.now.files p.file) files.now }
    {
        files.iter().any(|packaged| self.has(packaged.file))
    }
}
