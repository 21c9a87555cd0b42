// The names that stand in a file.
use crate::scope_chain::Scopes;
use proto_decls::Name;
use proto_tree::Span;
use sqlite_items::Items;

// What a name has to mean where it stands.
#[derive(Clone, Copy, Debug, PartialEq, Eq)]
pub enum Needs {
    Message,
    MessageOrEnum,
}

// One of the identifiers of a name.
#[derive(Debug, Drop)]
pub struct Component {
    pub text: Name,
    pub span: Span,
}

// A name that stands in a file.
#[derive(Debug, Drop)]
pub struct NameSite {
    // The whole name, its leading dot included.
    pub span: Span,
    // Whether a dot stands before the first component.
    pub is_absolute: bool,
    pub components: Items<Component>,
    // Innermost first.
    pub scopes: Scopes,
    pub needs: Needs,
}
