// A root, and the paths of URLs below it.
ghost use Rattle.std.specs.Prelude.{◌≡◌, Some, IfOk, IfSome, option_map, string_bytes};
ghost use Rattle.workspace_uri.specs.Uri.{is_root, folder_of, below, path_below_root};

use crate::path::is_workspace_path;
use crate::url_text::{decoded_path, is_local_file, parse_url};
use std::alloc::{AllocError, Global};
use std::str;
use url::Url;

// A folder that a workspace stands in, by its `file` URL.
#[derive(Debug, Drop)]
pub(crate) struct Root {
    text: String,
    folder: Vec<u8>,
    ghost of_text: { folder_of (string_bytes text) ≡ Some folder.items },
}

impl Root {
    ghost use Rattle.workspace_uri.specs.View.{root_text, folder};

    // The root that a text names: a `file` URL without host, query and fragment whose path ends with `/`. `None` if the text
    // is none. An error is want of memory.
    pub(crate) fn parse(alloc: Global, text: &str) -> Result<Option<Root>, AllocError>
        ensures named { IfOk result (λ o. option_map folder o ≡ folder_of text.now) }
        ensures text { IfOk result (λ o. IfSome o (λ root. root_text root ≡ text.now)) }
    {
        let Some(url) = parse_url(alloc, text)? else {
            return Ok(None);
        };
        if !is_root(&url) {
            return Ok(None);
        }
        let folder = decoded_path(alloc, &url)?;
        let text = String::from_str(alloc, text)?;
        Ok(Some(Root { text, folder }))
    }

    // The text of its URL, as it was given.
    pub(crate) fn as_str(&self) -> &str
        ensures { result.now ≡ root_text self.now }
    {
        self.text.as_str()
    }

    // The path of a URL below the root, if it has one: where the URL's scheme is `file`, it has no host, and its decoded path is UTF-8
    // and leads from the root on by a workspace path.
    pub(crate) fn path_below(&self, alloc: Global, url: &Url) -> Result<Option<String>, AllocError>
        ensures { IfOk result (λ o. option_map string_bytes o ≡ path_below_root (root_text self.now) url.now) }
    {
        if !is_local_file(url) {
            return Ok(None);
        }
        let path = decoded_path(alloc, url)?;
        self.below(alloc, &path)
    }

    fn below(&self, alloc: Global, path: &[u8]) -> Result<Option<String>, AllocError>
        ensures { IfOk result (λ o. option_map string_bytes o ≡ below (folder self.now) path.now) }
    {
        let Ok(text) = str::from_utf8(path) else {
            return Ok(None);
        };
        let root = self.folder.as_slice();
        if !path.starts_with(root) {
            return Ok(None);
        }
        let rest = &text[root.len()..];
        if !is_workspace_path(rest) {
            return Ok(None);
        }
        Ok(Some(String::from_str(alloc, rest)?))
    }
}

fn is_root(url: &Url) -> bool
    ensures { result ≡ is_root url.now }
{
    is_local_file(url)
        && url.query().is_none()
        && url.fragment().is_none()
        && url.path().as_bytes().ends_with(b"/")
}
