//! What the text tells.
ghost use Rattle.metrics_text.specs.Text.{TellsAll};

/// The text tells each number: where two texts of collectors with the same policies and as many shards
/// are the same, all numbers are.
pub fn tells_all()
    ensures { TellsAll }
{}
