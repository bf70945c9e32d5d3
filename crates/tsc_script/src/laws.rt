//! What the lines of a script are, by their words.
ghost use Rattle.tsc_script.specs.LineLaws.{LinesAreTheirWords};

/// A line of at most 4,194,368 bytes is a request exactly where it is `recv `, the digits of a connection, a space,
/// those of a moment, a space and the rest; a tick exactly where it is `tick ` and a moment's digits; and the end
/// exactly where it is `close`.
pub fn lines_are_their_words()
    ensures { LinesAreTheirWords }
{}
