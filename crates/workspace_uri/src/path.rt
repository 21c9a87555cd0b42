// The paths of files in a workspace.
ghost use Rattle.std.specs.Prelude.{◌≡◌};
ghost use Rattle.workspace_uri.specs.Path as spec;

/// Whether a text is the path of a file in a workspace: one or more segments joined by `/`, of which none is
/// empty, `.` or `..`, and none holds U+0000.
pub fn is_workspace_path(path: &str) -> bool
    ensures { result ≡ spec.is_workspace_path path.now }
{
    path.as_bytes().split(|byte| *byte == b'/').all(is_segment)
}

fn is_segment(segment: &[u8]) -> bool
    ensures { result ≡ spec.is_segment segment.now }
{
    !segment.is_empty()
        && segment != b".".as_slice()
        && segment != b"..".as_slice()
        && !segment.contains(&0)
}
