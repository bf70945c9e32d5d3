//! The law that a sink of lines has taken the lines that were handed to it.
ghost use Rattle.span_sink.specs.Hands.{TakesHandedLines};

/// Of all lines that are handed over one after the other to a [`crate::LineSink`], its sink takes those whose call
/// answered `Ok`, joined, and then at most a part of one more line. After a write has failed, every call is answered
/// `Down`.
#[tactic(auto, using(crate::proofs::Handing::takes_handed_lines))]
pub fn takes_handed_lines()
    ensures { TakesHandedLines }
{}
