// Where something stands in the files of a workspace.
ghost use Rattle.std.specs.Prelude.{◌≡◌, ◌≤◌, ◌==◌, All, false, length, take, IfSome};
ghost use Rattle.std.specs.List.{slice_get};

use import_graph::FileNo;

/// A part of a file's text: from the byte at `start` up to the byte at `end`, which is the first behind it. Offsets count the
/// text's bytes from 0.
#[derive(Clone, Copy, Debug, PartialEq, Eq)]
pub struct Place {
    /// The file, by its place in the list of paths, counted from 0.
    pub file: FileNo,
    /// The first byte.
    pub start: usize,
    /// The first byte behind it.
    pub end: usize,
}

/// How many of the first places are in a file.
pub fn count_in(places: &[Place], file: FileNo) -> usize
    ensures within { result ≤ length places.now }
    ensures all { All (λ p. p.file ≡ file) (take result places.now) }
    ensures end { IfSome (slice_get places.now result) (λ p. (p.file == file) ≡ false) }
{
    for (number, place) in places.iter().enumerate() {
        if place.file != file {
            return number;
        }
    }
    places.len()
}
