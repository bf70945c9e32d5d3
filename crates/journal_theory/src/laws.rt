//! What holds of every journal. Each function does nothing: its contract is the law.

ghost use Rattle.journal_theory.specs.Deciding.{DecidesStanding};
ghost use Rattle.journal_theory.specs.Keeping.{KeepsStanding};
ghost use Rattle.journal_theory.specs.Laws.{FoundAsHeld};
ghost use Rattle.journal_theory.specs.RootWait.{RootWaitOff, DueByFirstRoot, NoneDueAfterMark};
ghost use Rattle.journal_theory.specs.TooBig.{TooBigIsNotSampled, NoneTooBigWithoutMaximum};

/// What a shard holds tells what a span finds: its trace's episode in the buffer, else the caches of decisions, answer
/// what the journal says, looking back over its openings, decisions and touches.
pub fn found_as_held()
    ensures { FoundAsHeld }
{}

/// What a shard holds after an item is computed from what it held before: with a limit on the traces, the caches of
/// decisions and the marks of refused memory, it stands for the longer journal.
pub fn keeps_standing()
    ensures { KeepsStanding }
{}

/// What is due in a shard is the journal's next decision, by the policies and the limiter counts that the shard holds;
/// what it holds after the decision is computed from what it held before.
pub fn decides_standing()
    ensures { DecidesStanding }
{}

/// With root wait off, a trace is due by its opening, or by its size.
pub fn root_wait_off()
    ensures { RootWaitOff }
{}

/// Some root of a trace was taken long enough ago exactly where its first one was, since the clock doesn't go back: so
/// an episode keeps the clock at its first root alone.
pub fn due_by_first_root()
    ensures { DueByFirstRoot }
{}

/// What is taken at the mark or after it makes no trace due by a root at that mark: so traces become due by their roots
/// at ticks alone.
pub fn none_due_after_mark()
    ensures { NoneDueAfterMark }
{}

/// A trace that is too big isn't sampled, whatever the limiter answers, and its decision asks for nothing
/// (tailsamplingprocessor README, `maximum_trace_size_bytes`).
pub fn too_big_is_not_sampled()
    ensures { TooBigIsNotSampled }
{}

/// Without a maximum size nothing is due at a span: traces become due at ticks and Ends alone.
pub fn none_too_big_without_maximum()
    ensures { NoneTooBigWithoutMaximum }
{}
