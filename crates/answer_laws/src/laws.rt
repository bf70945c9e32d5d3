//! What holds of the answers of every run. The function does nothing: its contract is the law.
ghost use Rattle.answer_laws.specs.Answers.{AnswersBind};

use lane_turns::Driver;
use lane_worker::ByTurns;

/// Each span of a request that was answered 200, on any connection of any lane, was handed over once, or is counted
/// once under one reason, when the collector has closed. What the answer's `partialSuccess` tells is just what was
/// counted: how many of its spans are counted for their ids, and how many for a full queue.
pub fn answers_bind<D: Driver>()
    ensures { AnswersBind (λ (s : ByTurns D). s.allowed) (λ (s : ByTurns D). s.driver) D.asks D.hears }
{}
