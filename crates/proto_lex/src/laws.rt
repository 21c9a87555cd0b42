// Laws of a text's tokens. Each is proved for all texts, and its function does nothing.
ghost use Rattle.proto_lex.specs.Characters.{TokensAreCut, BadCharactersAreSingle};
ghost use Rattle.proto_lex.specs.Laws.{KindsAreForms, TriviaIsFound, TokensExist, TokensAreUnique, TokensAreOrdered};
ghost use Rattle.proto_lex.specs.NumberForms.{IntsAreForms, FloatsAreForms};

/// A law: the tests of which `tokens` is made agree with the forms of tokens and of trivia, so no bytes have two forms.
pub fn token_forms()
    ensures kinds { KindsAreForms }
    ensures trivia { TriviaIsFound }
{}

/// A law: each text has one list of tokens, whose gaps are trivia and whose tokens are the longest forms, and it is
/// the one that `lex` gives.
pub fn one_token_list()
    ensures exist { TokensExist }
    ensures unique { TokensAreUnique }
{}

/// A law: each token has a byte or more of the text, and ends at or before the next one's start.
pub fn ordered_tokens()
    ensures { TokensAreOrdered }
{}

/// A law: in UTF-8 text tokens begin and end between characters, so the text may be cut there.
pub fn cut_tokens()
    ensures { TokensAreCut }
{}

/// A law: in UTF-8 text a bad character is the bytes of one Unicode scalar value.
pub fn single_characters()
    ensures { BadCharactersAreSingle }
{}

/// A law: the tests that tell numbers apart agree with the forms of integers and floats.
pub fn number_forms()
    ensures ints { IntsAreForms }
    ensures floats { FloatsAreForms }
{}
