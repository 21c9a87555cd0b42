// The URL of a folder that is a root of the workspace.
ghost use Rattle.std.specs.Prelude.{◌≡◌, IfOk, string_bytes};
ghost use Rattle.program_options.specs.Path as spec;

use std::alloc::{AllocError, Global};
use workspace_uri::escape_path;

// The path without the slashes at its end.
fn without_closing_slashes(path: &[u8]) -> &[u8]
    ensures { result.now ≡ spec.without_closing_slashes path.now }
{
    let mut rest = path;
    while let [others @ .., b'/'] = rest {
        rest = others;
    }
    rest
}

/// The URL of the root whose folder has the path `dir`: `file://`, the path with every byte but ASCII letters, digits
/// and `-._~/` escaped (RFC 3986, section 2.1) and without the slashes at its end, and `/`.
pub fn root_url(alloc: Global, dir: &str) -> Result<String, AllocError>
    ensures { IfOk result (λ url. string_bytes url ≡ spec.root_url dir.now) }
{
    let mut url = String::from_str(alloc, "file://")?;
    let path = escape_path(alloc, without_closing_slashes(dir.as_bytes()))?;
    url.push_str(path.as_str())?;
    url.push_str("/")?;
    Ok(url)
}
