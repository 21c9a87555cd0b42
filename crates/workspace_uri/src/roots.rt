// The roots of a workspace, where URIs lead from them, and the URIs of their files.
ghost use Rattle.std.specs.Prelude.{◌≡◌, IfOk, IfSome, is_some, map, option_map, string_bytes};
ghost use Rattle.workspace_uri.specs.Uri.{are_roots, file_uri, place_in_roots, place_of, root_text_at};

use crate::root::Root;
use crate::uri_place::{PathBelow, UriPlace};
use crate::url_text::{append_escaped, parse_url};
use std::alloc::{AllocError, Global};
use url::Url;

/// The folders that a workspace stands in, by their `file` URLs: at least one, numbered from 0 in their order.
#[derive(Debug, Drop)]
pub struct Roots {
    list: Vec<Root>,
}

impl Roots {
    ghost use Rattle.workspace_uri.specs.View.{path_below_view, roots_texts, uri_place_view};

    /// The roots that these texts name: each a `file` URL without host, query and fragment whose path ends with `/`. `None`
    /// if there is no text or one names no root. The only error is out of memory.
    pub fn parse(alloc: Global, texts: &[String]) -> Result<Option<Roots>, AllocError>
        ensures named { IfOk result (λ o. is_some o ≡ are_roots (map string_bytes texts.now)) }
        ensures texts { IfOk result (λ o. IfSome o (λ roots. roots_texts roots ≡ map string_bytes texts.now)) }
    {
        if texts.is_empty() {
            return Ok(None);
        }
        let mut list = Vec::with_capacity(alloc, texts.len())?;
        for text in texts {
            match Root::parse(alloc, text.as_str())? {
                Some(root) => list.push(root)?,
                None => return Ok(None),
            }
        }
        Ok(Some(Roots { list }))
    }

    /// Where the document that a URI names is. Where the URI is a `file` URL without host whose decoded path is UTF-8 and
    /// leads from a root on by a workspace path, it has that path below the first such root; its path outside is `/`
    /// and the URL as the URL Standard writes it. `None` if the URI is no URL. The only error is out of memory.
    pub fn place_of(&self, alloc: Global, uri: &str) -> Result<Option<UriPlace>, AllocError>
        ensures { IfOk result (λ o. option_map uri_place_view o ≡ place_of (roots_texts self.now) uri.now) }
    {
        let Some(url) = parse_url(alloc, uri)? else {
            return Ok(None);
        };
        let below = self.place_in(alloc, &url)?;
        let mut outside = String::from_str(alloc, "/")?;
        outside.push_str(url.as_str())?;
        Ok(Some(UriPlace { below, outside }))
    }

    // The path of a URL below the first root that it has one below.
    fn place_in(&self, alloc: Global, url: &Url) -> Result<Option<PathBelow>, AllocError>
        ensures { IfOk result (λ o. option_map path_below_view o ≡ place_in_roots 0 (roots_texts self.now) url.now) }
    {
        for (root, at) in self.list.iter().enumerate() {
            if let Some(path) = at.path_below(alloc, url)? {
                return Ok(Some(PathBelow { root, path }));
            }
        }
        Ok(None)
    }

    /// The URI of a file of the root with a number that was never opened, by its path: the text of the root, and the path
    /// with each byte but ASCII letters, digits and `-._~/` as `%` and two upper-case hexadecimal digits. Without a root it is the path
    /// alone. The only error is out of memory.
    pub fn uri_of(
        &self,
        alloc: Global,
        number: Option<usize>,
        path: &str,
    ) -> Result<String, AllocError>
        ensures { IfOk result (λ s. string_bytes s ≡ file_uri (root_text_at (roots_texts self.now) number) path.now) }
    {
        let mut uri = String::from_str(alloc, self.text_of(number))?;
        append_escaped(&mut uri, path.as_bytes())?;
        Ok(uri)
    }

    // The text of the root with a number; empty if there is none.
    fn text_of(&self, number: Option<usize>) -> &str
        ensures { result.now ≡ root_text_at (roots_texts self.now) number }
    {
        let Some(number) = number else {
            return "";
        };
        match self.list.get(number) {
            Some(root) => root.as_str(),
            None => "",
        }
    }
}
