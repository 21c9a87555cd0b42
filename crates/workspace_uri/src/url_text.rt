// The texts of URLs.
ghost use Rattle.std.specs.Prelude.{◌≡◌, ◌++◌, IfOk, OnOk, string_bytes};
ghost use Rattle.percent_encoding.specs.Percent as percent;
ghost use Rattle.workspace_uri.specs.Uri.{url_of, is_local_file, escaped};

use percent_encoding::{AsciiSet, NON_ALPHANUMERIC, ascii_set, percent_decode, percent_encode};
use std::alloc::{AllocError, Global};
use url::{ParseError, Url};

// The ASCII bytes that the URI of a file escapes.
const ESCAPED: AsciiSet = ascii_set!(
    NON_ALPHANUMERIC
        .remove(b'-')
        .remove(b'.')
        .remove(b'_')
        .remove(b'~')
        .remove(b'/')
);

/// The bytes of a path as they stand in a URI: each byte but ASCII letters, digits and `-._~/` is `%` and two upper-case
/// hexadecimal digits. An error is want of memory.
pub fn escape_path(alloc: Global, path: &[u8]) -> Result<String, AllocError>
    ensures { IfOk result (λ s. string_bytes s ≡ escaped path.now) }
{
    let mut text = String::new(alloc);
    append_escaped(&mut text, path)?;
    Ok(text)
}

pub(crate) fn append_escaped(text: &mut String, path: &[u8]) -> Result<(), AllocError>
    ensures { OnOk result (string_bytes text.new ≡ string_bytes text.old ++ escaped path.now) }
{
    percent_encode(path, ESCAPED).append_to(text)
}

pub(crate) fn parse_url(alloc: Global, text: &str) -> Result<Option<Url>, AllocError>
    ensures { IfOk result (λ o. o ≡ url_of text.now) }
{
    match Url::parse(alloc, text) {
        Ok(url) => Ok(Some(url)),
        Err(ParseError::OutOfMemory | ParseError::Overflow) => Err(AllocError),
        Err(_) => Ok(None),
    }
}

pub(crate) fn is_local_file(url: &Url) -> bool
    ensures { result ≡ is_local_file url.now }
{
    url.scheme() == "file" && !url.has_host()
}

pub(crate) fn decoded_path(alloc: Global, url: &Url) -> Result<Vec<u8>, AllocError>
    ensures { IfOk result (λ v. v.items ≡ percent.percent_decode url.now.path) }
{
    let mut path = Vec::new(alloc);
    percent_decode(url.path().as_bytes()).append_to(&mut path)?;
    Ok(path)
}
