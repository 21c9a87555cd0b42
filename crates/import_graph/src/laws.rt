// Laws of the definitions, for who reads the contracts: calls that do nothing.

ghost use Rattle.import_graph.specs.Laws.{ClosureLaw, ViewLaw, OneView};

use proto_decls::NamedFacts;

/// Marks that spread step by step, once for each number below a limit, reach exactly what walks lead to.
pub fn closure_law()
    ensures { ClosureLaw }
{}

/// What the tests of a graph say a file sees and reaches is what walks lead to.
pub fn view_law(files: &[NamedFacts])
    ensures { ViewLaw files.now }
{
    let _ = files;
}

/// There is one list of what a file sees, ascending.
pub fn one_view(files: &[NamedFacts])
    ensures { OneView files.now }
{
    let _ = files;
}
