// What holds of the tokens of every text: laws over the definitions.

ghost use Rattle.sql_tokens.specs.Laws.{DoubledIsRead, PlacesRise, ReadIsDoubled, TokensAreUnique};

/// A text has one list of tokens, and one fault at most.
pub fn tokens_are_unique()
    ensures { TokensAreUnique }
{}

/// The places of a text's tokens rise, up to the fault or the end: an earlier token is at an earlier byte.
pub fn places_rise()
    ensures { PlacesRise }
{}

/// A text in quotes is its bytes with each quote doubled, up to the first quote that no other one follows.
pub fn quotes_are_doubled()
    ensures read { DoubledIsRead }
    ensures written { ReadIsDoubled }
{}
