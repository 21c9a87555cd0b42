// Laws of the definitions that the contracts cite. Each is a function with nothing to do, whose clause is the law.
ghost use Rattle.doc_text.specs.Laws.{LinesAreTheCut, LinesJoinedAreTheText, FittingIsLongest, PositionsComeBack, PositionsAreInTheText, PositionsStandBetweenCharacters, OffsetsComeBack, PositionsPastAreTheEnd, OffsetsPastAreTheEnd, OffsetsGoBack, OffsetsInLineEnds, ChangesKeepTheRest, ChangesOfTheWhole, RangesTurnedRound, ChangesKeepUtf8};

/// A law: a text is cut in one way into lines, each but the last ended by `\r\n`, by `\n`, or by a `\r` without a
/// `\n` after it.
pub fn line_cuts()
    ensures { LinesAreTheCut }
{}

/// A law: the lines of a text, joined, are its characters again.
pub fn lines_joined()
    ensures { LinesJoinedAreTheText }
{}

/// A law: the run of whole characters that a position counts has at most its units, and no longer run has.
pub fn longest_runs()
    ensures { FittingIsLongest }
{}

/// A law: the position of an offset leads back to the offset, where that stands between two characters and not
/// between the bytes of a line end.
pub fn round_trips()
    ensures { PositionsComeBack }
{}

/// A law: the position of an offset lies in the text. Its line exists, and its character is at most the line's length, its line
/// end left out.
pub fn positions_in_the_text()
    ensures { PositionsAreInTheText }
{}

/// A law: the position of an offset stands between two characters. Its character counts the units of some of the first characters
/// of its line, its line end left out.
pub fn positions_between_characters()
    ensures { PositionsStandBetweenCharacters }
{}

/// A law: a position between two characters leads to an offset whose position it is. So these positions, and no others, are those
/// of offsets.
pub fn positions_lead_back()
    ensures { OffsetsComeBack }
{}

/// A law: a position on a line past the last one is the text's end.
pub fn positions_past_the_end()
    ensures { PositionsPastAreTheEnd }
{}

/// A law: an offset past the text has the position of the text's end.
pub fn offsets_past_the_end()
    ensures { OffsetsPastAreTheEnd }
{}

/// A law: an offset inside a character has the position of the character's start.
pub fn offsets_in_characters()
    ensures { OffsetsGoBack }
{}

/// A law: an offset between the bytes of a line end has the position of the line's end.
pub fn offsets_in_line_ends()
    ensures { OffsetsInLineEnds }
{}

/// A law: a change of a range keeps what stands before it and what stands behind it, both whole characters.
pub fn changes_keep_the_rest()
    ensures { ChangesKeepTheRest }
{}

/// A law: a change without a range replaces the whole text.
pub fn changes_of_the_whole()
    ensures { ChangesOfTheWhole }
{}

/// A law: a range turned round changes a text as the range itself.
pub fn ranges_turned_round()
    ensures { RangesTurnedRound }
{}

/// A law: a changed text is UTF-8, and so a text again.
pub fn changes_keep_utf8()
    ensures { ChangesKeepUtf8 }
{}
