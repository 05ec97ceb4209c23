//! Laws of readings. Each is the contract of a function that does nothing.

ghost use Rattle.dps_lex.specs.LawsOfReading.{EachTextHasAReading, NoTextHasTwoReadings, HasSpansInOrder, HasCommentsAsExpected};

/// Each text holds some tokens up to its end, or up to a fault.
pub fn each_text_has_a_reading()
    ensures { EachTextHasAReading }
{}

/// The tokens of a text and its first fault are determined by its bytes.
pub fn no_text_has_two_readings()
    ensures { NoTextHasTwoReadings }
{}

/// The spans of the tokens of a text are in order and within it, and each token's text is the slice of its span.
pub fn spans_are_in_order()
    ensures { HasSpansInOrder }
{}

/// Comments nest, and are read from left to right: `(*)` and `(*(*)*)` are none.
pub fn comments_are_as_expected()
    ensures { HasCommentsAsExpected }
{}
