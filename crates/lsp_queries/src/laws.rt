// What the definition of a match says, beside what the code meets.
ghost use Rattle.lsp_queries.specs.Matching.{ContainsLaw};

/// A law. A name contains a query exactly if a part of the name is the query, without regard to the case of ASCII letters.
pub fn contains_law()
    ensures { ContainsLaw }
{}
