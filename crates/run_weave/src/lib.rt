//! What the threads of a run did is a run of the core: the promises of lanes, ticker, shards and exporter, with one
//! history of each queue and of each limiter node, come to the lists that `span_weave` weaves.
//!
//! The definitions are in `specs/`, to be read in this order: `Jobs` (what each thread promises), `Lanes` (what a lane
//! received from its connections), `Received` (the same of connections that are served one by one, and of many at
//! once), `Workers` (all threads of a run), `Ran` (what they did, as the lists of the weave). The functions of this
//! crate do nothing: their contracts are the laws.
#![tactic(auto)]

ghost use Rattle.std.specs.Prelude.{ℕ};
ghost use Rattle.lane_worker.specs.Serving.{connection};
ghost use Rattle.run_weave.specs.Ran.{WorkersRan};
ghost use Rattle.run_weave.specs.Received.{serves_one_by_one, receives_one_by_one, serves_by_turns, receives_by_turns};

use lane_turns::Driver;
use lane_worker::{Acceptor, ByTurns, OneByOne, Ticks};

/// What the workers of a run promise, with one history of each of their queues and limiter nodes, is all that the weave
/// wants of running threads; and the report is the sum of what they counted. Each lane serves the connections of its
/// acceptor one after the other.
pub fn workers_ran<F: Acceptor, T: Ticks>()
    ensures { WorkersRan (serves_one_by_one (λ (s : OneByOne F). s.acceptor) F.gives (λ x. connection (F.Reader.given x.0) (F.Writer.contents x.1)))
        (receives_one_by_one (λ (s : OneByOne F). s.acceptor) F.gives (λ x. connection (F.Reader.given x.0) (F.Writer.contents x.1))) T.gives }
{}

/// The same where each lane serves many connections at once, turn by turn as its driver says.
pub fn workers_ran_by_turns<D: Driver, T: Ticks>()
    ensures { WorkersRan (serves_by_turns (λ (s : ByTurns D). s.allowed) (λ (s : ByTurns D). s.driver) D.asks D.hears)
        (receives_by_turns (λ (s : ByTurns D). s.allowed) (λ (s : ByTurns D). s.driver) D.asks D.hears) T.gives }
{}
