// Files by their paths.

ghost use Rattle.std.specs.Prelude.{◌≡◌, ◌≤◌, ◌↔◌, ℕ, IsTrue, ◌∷◌, [], length, position, bytes_eq, nat_eq};
ghost use Rattle.std.specs.List.{insert, starts_with};
ghost use Rattle.std.specs.Cmp.Lexicographic.{slice_cmp};
ghost use Rattle.std.specs.Ordering.{nat_cmp};
ghost use Rattle.import_graph.specs.Paths.{IsInPathOrder, slash, file_named};

use proto_decls::NamedFacts;
use std::cmp::Ordering;

/// The number of a file: its place, counted from 0, in the list of files in the order of their paths.
pub type FileNo = usize;

fn path_cmp(file: &NamedFacts, path: &str) -> Ordering
    ensures { result ≡ slice_cmp nat_cmp file.now.path path.now }
{
    file.path.as_str().cmp(path)
}

/// Whether the paths are in the order of their bytes, no path twice. Takes no memory.
pub fn are_in_path_order(files: &[NamedFacts]) -> bool
    ensures { IsTrue result ↔ IsInPathOrder files.now }
{
    for next in 1..files.len() {
        if path_cmp(&files[next - 1], files[next].path.as_str()) != Ordering::Less {
            return false;
        }
    }
    true
}

fn is_rooted(path: &str) -> bool
    ensures { result ≡ starts_with nat_eq path.now (slash ∷ []) }
{
    path.as_bytes().starts_with(b"/")
}

/// The number of the file with a path, by halving: `None` where there is none. Takes no memory.
pub fn number_of(files: &[NamedFacts], path: &str) -> Option<FileNo>
    requires { IsInPathOrder files.now }
    ensures { result ≡ position (λ file. bytes_eq file.path path.now) files.now }
{
    files.binary_search_by(|file| path_cmp(file, path)).ok()
}

/// The number that a file with this path gets if it joins these files, which are in the order of their paths and none of which has the path.
/// Found by halving; takes no memory.
pub fn place_for(files: &[NamedFacts], path: &str) -> FileNo
    ensures { (at : ℕ) (file : NamedFacts) → file.path ≡ path.now → at ≤ length files.now → IsInPathOrder (insert files.now at file) → result ≡ at }
{
    files.partition_point(|file| path_cmp(file, path).is_lt())
}

// The number of the file that an import with the text names, if any; none begins with a slash.
pub fn file_named(files: &[NamedFacts], path: &str) -> Option<FileNo>
    requires { IsInPathOrder files.now }
    ensures { result ≡ file_named files.now path.now }
{
    if is_rooted(path) {
        return None;
    }
    number_of(files, path)
}
