// Where the documents of URIs are.
ghost use Rattle.std.specs.Prelude.{◌≡◌, option_map, string_bytes};
ghost use Rattle.workspace_uri.specs.Uri.{is_of_earlier_root, path_at};

// A path below the root with a number.
#[derive(Debug, Drop)]
pub(crate) struct PathBelow {
    pub(crate) root: usize,
    pub(crate) path: String,
}

/// Where the document of a URI is: below a root or outside. Which of them it is may depend on the file at its path.
#[derive(Debug, Drop)]
pub struct UriPlace {
    // Its path below the first root that it has one below.
    pub(crate) below: Option<PathBelow>,
    // Its path outside.
    pub(crate) outside: String,
}

impl UriPlace {
    ghost use Rattle.workspace_uri.specs.View.{uri_place_view};

    /// The path below a root, if there is one: the path whose file has to be looked for.
    pub fn path_below(&self) -> Option<&str>
        ensures { option_map (λ path. path.now) result ≡ option_map (λ below. below.1) (uri_place_view self.now).below }
    {
        match &self.below {
            Some(below) => Some(below.path.as_str()),
            None => None,
        }
    }

    /// The path of the document. `owner` is the number of the root under which the file at `path_below` was found at the start, if one
    /// was. A document that has a path below a root has that path, unless the file there is an earlier root's;
    /// every other document is outside.
    pub fn into_path(self, owner: Option<usize>) -> String
        ensures { string_bytes result ≡ path_at owner (uri_place_view self) }
    {
        let UriPlace { below, outside } = self;
        match below {
            Some(PathBelow { root, path }) => {
                if is_of_earlier_root(root, owner) {
                    outside
                } else {
                    path
                }
            }
            None => outside,
        }
    }
}

// Whether the root that a file is of, if there is one, comes before the root with a number.
fn is_of_earlier_root(number: usize, owner: Option<usize>) -> bool
    ensures { result ≡ is_of_earlier_root number owner }
{
    match owner {
        Some(owner) => owner < number,
        None => false,
    }
}
