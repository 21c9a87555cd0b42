// Whether imports name a file that comes, and what stays as it is if none does.

ghost use Rattle.std.specs.Prelude.{◌≡◌, ◌↔◌, IsFalse, All, bytes_eq, false};
ghost use Rattle.import_graph.specs.Arrivals.{ArrivalLaw};

use proto_decls::ImportFact;

// Whether one of the imports has the path.
pub fn have_path(imports: &[ImportFact], path: &str) -> bool
    ensures { IsFalse result ↔ All (λ i. bytes_eq i.path path.now ≡ false) imports.now }
{
    imports.iter().any(|import| import.path.as_str() == path)
}

/// What a graph says of files stays as it is, but for their numbers, if another file comes that none of them imports.
pub fn arrival_law()
    ensures { ArrivalLaw }
{}
