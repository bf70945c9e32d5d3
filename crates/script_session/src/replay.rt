//! A script is run in one thread.
ghost use Rattle.std.specs.Prelude.{◌≡◌, ◌-◌, ◌^◌, ◌<◌, ◌≤◌, [], false, Some, IfOk, IfErr, replicate, vec_capacity};
ghost use Rattle.span_sink.specs.LineSinks.{up_state};
ghost use Rattle.policy_tree.specs.Meaning.{meaning};
ghost use Rattle.rate_budget.specs.Budget.{limiter_counts};
ghost use Rattle.config_shards.specs.Shards.{CanReplay, settings_by};
ghost use Rattle.tsc_config.specs.declared.config.Config.{Config};
ghost use Rattle.script_session.specs.declared.replying.TheConstants.{MAX_REPLY_LINE};
ghost use Rattle.script_run.specs.World.{empty_queues};
ghost use Rattle.script_run.specs.Laws.{CanPlay};
ghost use Rattle.script_session.specs.Starting.{AreNew};
ghost use Rattle.script_session.specs.Replay.{RunEnds};

use crate::connections::Connections;
use crate::fault::ReplayFault;
use crate::listening::{Listener, Unheard};
use crate::output::Output;
use crate::replying::MAX_REPLY_LINE;
use crate::session::Session;
use config_shards::new_shards;
use drop_ledger::Report;
use lane_queue::ListPort;
use otlp_types::Item;
use rate_budget::Budgets;
use shard_core::Shard;
use span_exporter::Exporter;
use span_sink::{LineSink, Sink};
use std::alloc::{AllocError, Global};
use trace_hash::TraceHashing;
use tsc_config::Config;
use tsc_script::{ScriptSource, play_script};

/// Runs a script, and gives the sink back. A connection is served by the lane of its number modulo the number of lanes.
///
/// A reply line and the lines of batches go to the sink, line by line as the script goes on. At most 2^32 reads are
/// made, and a script ends before its end only for a cause in what they gave. Where the type of the reader or of the
/// sink doesn't tell its bytes (`given`, `taken`), nothing is claimed of them.
pub fn replay_run<R: ScriptSource, S: Sink>(
    alloc: Global,
    config: Config,
    reader: &mut R,
    sink: S,
) -> (S, Result<Report, ReplayFault>)
    requires ranges { CanReplay config }
    requires failures { S.failures sink < 2 ^ 64 - 1 }
    ensures { RunEnds (record {
      settings = settings_by config;
      sizes = record { batch = config.send_batch_size; queue = config.queue_capacity; keeps_doubles = config.keeps_doubles };
      lanes = config.lanes;
      shards = config.shards;
      taken = S.taken sink;
      failures = S.failures sink;
      taken_after = S.taken result.0;
      failures_after = S.failures result.0;
      unread = R.given reader.old;
      unread_after = R.given reader.new;
    }) result.1 }
{
    match session_of(alloc, &config, sink, Unheard) {
        Ok(session) => {
            release(config);
            run_session(alloc, reader, session)
        }
        Err(sink) => (sink, Err(ReplayFault::NoMemory)),
    }
}

/// A session that has seen no line. `Err`: memory was refused, and the sink is as it was.
pub(crate) fn session_of<S: Sink, L: Listener + Drop>(
    alloc: Global,
    config: &Config,
    sink: S,
    listener: L,
) -> Result<Session<S, L>, S>
    requires ranges { CanReplay config.now }
    requires failures { S.failures sink < 2 ^ 64 - 1 }
    ensures open { IfOk result (λ session. session.closed ≡ false) }
    ensures sink { IfOk result (λ session. session.output.0.sink ≡ up_state (S.taken sink) (S.failures sink)) }
    ensures nothing_counted { IfOk result (λ session. session.output.1 ≡ Some (replicate 9 0)) }
    ensures batch { IfOk result (λ session. session.output.0.size ≡ config.now.send_batch_size) }
    ensures queue { IfOk result (λ session. session.queue_capacity ≡ config.now.queue_capacity) }
    ensures doubles { IfOk result (λ session. session.keeps_doubles ≡ config.now.keeps_doubles) }
    ensures connections { IfOk result (λ session. session.connections ≡ record { connections = []; connected = replicate config.now.lanes 0 }) }
    ensures shards { IfOk result (λ session. AreNew config.now config.now.shards session.shards.items) }
    ensures limiter { IfOk result (λ session. session.limiter ≡ limiter_counts (meaning config.now.policies) []) }
    ensures refused { IfErr result (λ back. (S.taken back ≡ S.taken sink) × (S.failures back ≡ S.failures sink)) }
{
    let lines = LineSink::new(sink);
    let Ok(parts) = parts_of(alloc, config) else {
        return Err(lines.end());
    };
    // Of one shard: a session pulls no shard's `End`, so their number is no matter.
    let exporter = match Exporter::new(alloc, config.send_batch_size, 1, Vec::new(alloc), lines) {
        Ok(exporter) => exporter,
        Err((lines, _)) => return Err(lines.end()),
    };
    let RunParts {
        connections,
        queues,
        shards,
        limiter,
        text,
    } = parts;
    Ok(Session {
        alloc,
        connections,
        queues,
        queue_capacity: config.queue_capacity,
        keeps_doubles: config.keeps_doubles,
        shards,
        limiter,
        output: Output::new(exporter),
        listener,
        text,
        closed: false,
    })
}

/// Lets the configuration go before the script is run: the session has taken what it needs.
fn release(_config: Config) {}

/// What a run needs at its start, beside the exporter.
#[derive(Drop)]
struct RunParts {
    connections: Connections,
    queues: Vec<ListPort<Item>>,
    shards: Vec<Shard>,
    limiter: Budgets,
    text: Vec<u8>,
}

/// The parts of a run that has seen no line. Trace ids are hashed by a fixed function: they stand in the script.
fn parts_of(alloc: Global, config: &Config) -> Result<RunParts, AllocError>
    requires ranges { CanReplay config.now }
    ensures connections { IfOk result (λ parts. parts.connections ≡ record { connections = []; connected = replicate config.now.lanes 0 }) }
    ensures queues { IfOk result (λ parts. parts.queues.items ≡ empty_queues config.now.queue_capacity config.now.shards) }
    ensures shards { IfOk result (λ parts. AreNew config.now config.now.shards parts.shards.items) }
    ensures limiter { IfOk result (λ parts. parts.limiter ≡ limiter_counts (meaning config.now.policies) []) }
    ensures text { IfOk result (λ parts. MAX_REPLY_LINE ≤ vec_capacity parts.text) }
{
    // At the start, so that a reply never lacks room (D-227).
    let text = Vec::with_capacity(alloc, MAX_REPLY_LINE)?;
    let connections = Connections::new(alloc, config.lanes)?;
    let queues = new_queues(alloc, config.queue_capacity, config.shards)?;
    let limiter = Budgets::new(alloc, &config.policies)?;
    // So a run reads nothing but its files, and takes the same instructions each time (D-087).
    let shards = new_shards(alloc, TraceHashing::Fixed, config)?;
    Ok(RunParts {
        connections,
        queues,
        shards,
        limiter,
        text,
    })
}

fn new_queues(
    alloc: Global,
    capacity: usize,
    shards: usize,
) -> Result<Vec<ListPort<Item>>, AllocError>
    requires { 0 < capacity }
    ensures { IfOk result (λ queues. queues.items ≡ empty_queues capacity shards) }
{
    let mut queues = Vec::with_capacity(alloc, shards)?;
    for _shard in 0..shards {
        queues.push(ListPort::new(alloc, capacity)?)?;
    }
    Ok(queues)
}

/// Plays a script on a session that has seen no line.
fn run_session<R: ScriptSource, S: Sink>(
    alloc: Global,
    reader: &mut R,
    session: Session<S, Unheard>,
) -> (S, Result<Report, ReplayFault>)
    requires open { session.closed ≡ false }
    requires up { session.output.0.sink.is_down ≡ false }
    requires nothing_counted { session.output.1 ≡ Some (replicate 9 0) }
    ensures { (config : Config) → CanPlay (settings_by config) (record { batch = session.output.0.size; queue = session.queue_capacity; keeps_doubles = session.keeps_doubles }) config.lanes → session.connections ≡ record { connections = []; connected = replicate config.lanes 0 }
        → AreNew config config.shards session.shards.items → session.limiter ≡ limiter_counts (meaning config.policies) []
        → RunEnds (record {
          settings = settings_by config;
          sizes = record { batch = session.output.0.size; queue = session.queue_capacity; keeps_doubles = session.keeps_doubles };
          lanes = config.lanes;
          shards = config.shards;
          taken = session.output.0.sink.taken;
          failures = session.output.0.sink.failures;
          taken_after = S.taken result.0;
          failures_after = S.failures result.0;
          unread = R.given reader.old;
          unread_after = R.given reader.new;
        }) result.1 }
{
    let mut session = session;
    let played = play_script(alloc, reader, &mut session);
    let (sink, answer, _) = session.end(played);
    (sink, answer)
}
