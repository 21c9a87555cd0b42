// Laws of what stands at an offset, and of the places of a declaration. Each is proved for all workspaces, and its function does nothing.
ghost use Rattle.lsp_queries.specs.PlaceLaws.{PlacesAreApart, PlacesAscend, PlacesLieInTheTexts};
ghost use Rattle.lsp_queries.specs.Standing.{OneListOfPlaces, OneNameHolds, PlacesAreAll, SymbolsStandThere};

use proto_laws::{identifiers_law, names_apart, other_names_law, size_law, uses_in_order};

/// A law: the places of a declaration, those of its uses and its own if that is asked for, come by file, then offset, and none of
/// them is there twice.
pub fn places_in_order()
    ensures { PlacesAscend }
{
    names_apart();
    other_names_law();
    uses_in_order();
}

/// A law: of two places of a declaration in one file the first ends before the second starts, with a byte at least between them.
/// Where the texts are UTF-8 each has a byte or more, all of them in the text of its file.
pub fn places_apart()
    ensures apart { PlacesAreApart }
    ensures within { PlacesLieInTheTexts }
{
    identifiers_law();
    names_apart();
    other_names_law();
    size_law();
    uses_in_order();
}

/// A law: at most one name of a file stands at an offset, one that is declared, one that is used, or one of the file's package, and
/// the symbol there is what it stands for. Where no name stands there is none.
pub fn one_symbol()
    ensures one { OneNameHolds }
    ensures exact { SymbolsStandThere }
{
    names_apart();
    other_names_law();
    uses_in_order();
}

/// A law: the places of a declaration are the place of its own name, if that is asked for, and that of each use that stands for it,
/// in all files, and no others. The list of them is the only one that comes by file, then offset.
pub fn places_are_all()
    ensures all { PlacesAreAll }
    ensures only { OneListOfPlaces }
{
    places_in_order();
}
