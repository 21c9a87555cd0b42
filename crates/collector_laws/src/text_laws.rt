// Laws of the texts of a board. Each is proved for all lists of events, and its function does nothing.
ghost use Rattle.collector_laws.specs.TextLaws.{EachEventGivesTheTexts, EachEventGivesTheStamps, EventsGiveTheTexts, OneListOfTexts, EqualTextsAreListedAlike, TextsAreListedOnce};

/// A law: a text that is set is that of its path from then on, with the stamp after the last, a removed path has none, and
/// each other path has the text and the stamp that it had. A job, a piece and a failure change no text and no stamp.
pub fn texts_after_events()
    ensures texts { EachEventGivesTheTexts }
    ensures stamps { EachEventGivesTheStamps }
{}

/// A law: the texts after a list of events are those that its events give in turn, whatever the opening stamp is.
pub fn texts_of_events()
    ensures { EventsGiveTheTexts }
{
    texts_after_events();
}

/// A law: there is one list of the current texts of all known paths, with their stamps, in path order.
pub fn one_list_of_texts()
    ensures { OneListOfTexts }
{}

/// A law: where two lists of events give each path the same text, their texts have the same paths and texts in the same
/// order. The stamps may differ.
pub fn texts_of_equal_sets()
    ensures { EqualTextsAreListedAlike }
{}

/// A law: the current texts with their paths are the one list in path order that has each known path with its text, and no
/// other path.
pub fn texts_as_a_list()
    ensures { TextsAreListedOnce }
{}
