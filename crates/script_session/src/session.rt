//! The parts of the collector, driven by a script.
ghost use Rattle.std.specs.Prelude.{◌≡◌, ◌<◌, ◌≤◌, [], ◌++◌, true, false, not, map, length, vec_capacity};
ghost use Rattle.journal_theory.specs.Journal.{Settings};
ghost use Rattle.tsc_script.specs.Instructions.{instruction_of_command, receive, tick, close};
ghost use Rattle.span_exporter.specs.Exports.{WritesLine};
ghost use Rattle.script_session.specs.declared.replying.TheConstants.{MAX_REPLY_LINE};
ghost use Rattle.script_run.specs.Requests.{reply_line};
ghost use Rattle.script_run.specs.World.{ScriptWorld, PlaysAll, empty_queues};
ghost use Rattle.script_session.specs.Pulling.{AreOf, GoesOn, has_all_nodes, has_none_due, ends_in, ends_of};
ghost use Rattle.script_session.specs.Answers.{AnswersStop};

use crate::connections::Connections;
use crate::ending::end_all;
use crate::fault::ReplayFault;
use crate::listening::Listener;
use crate::output::Output;
use crate::receiving::{is_received, submit};
use crate::replying::{MAX_REPLY_LINE, write_reply_line};
use crate::signal::Signal;
use crate::taking::{take_received, tell_each};
use drop_ledger::Report;
use lane_queue::ListPort;
use lane_seq::Reply;
use otlp_types::Item;
use rate_budget::Budgets;
use shard_core::Shard;
use span_ids::Moment;
use span_sink::Sink;
use std::alloc::Global;
use std::mem;
use tsc_script::{ScriptCommand, ScriptPlayer, ScriptStop};

/// The connections, the shards and the exporter, between two lines of a script: the queues are empty, all that was due
/// is decided, and all that was released has gone to the sink.
#[derive(Drop)]
pub struct Session<S: Sink, L: Listener> {
    pub alloc: Global,
    pub connections: Connections,
    /// The queue of each shard.
    pub queues: Vec<ListPort<Item>>,
    /// How many spans the queue of a shard holds.
    pub queue_capacity: usize,
    /// Whether doubles are kept.
    pub keeps_doubles: bool,
    pub shards: Vec<Shard>,
    /// The one limiter of all shards.
    pub limiter: Budgets,
    pub output: Output<S>,
    /// What is told of each decision.
    pub listener: L,
    /// Room for a reply line.
    pub text: Vec<u8>,
    /// Whether the lanes and the ticker have ended.
    pub closed: bool,
    ghost nodes: { has_all_nodes limiter shards.items ≡ true },
    ghost none_due: { has_none_due shards.items ≡ true },
    ghost ends: { ends_in shards.items ≡ map (λ _. ends_of (length connections.connected) closed) shards.items },
    ghost some: { 0 < length shards.items },
    ghost empty: { queues.items ≡ empty_queues queue_capacity (length shards.items) },
    ghost sent: { length output.0.batch ≡ 0 },
    ghost batches: { 0 < output.0.size },
    ghost room: { MAX_REPLY_LINE ≤ vec_capacity text },
}

impl<S: Sink, L: Listener> Session<S, L> {
    ghost use Rattle.script_session.specs.Playing.{PlaysOne, Leaves};

    /// Gives the sink back, with the report or what kept the script from its end, and what was told.
    pub fn end(self, played: Result<(), ScriptStop>) -> (S, Result<Report, ReplayFault>, L)
        ensures taken { S.taken result.0 ≡ self.output.0.sink.taken }
        ensures failures { S.failures result.0 ≡ self.output.0.sink.failures }
        ensures answer { AnswersStop played self.output.1 result.1 }
    {
        let Session {
            alloc: _,
            connections: _,
            queues: _,
            queue_capacity: _,
            keeps_doubles: _,
            shards: _,
            limiter: _,
            output,
            listener,
            text: _,
            closed: _,
        } = self;
        let (sink, report) = output.end();
        (sink, answer_of(played, report), listener)
    }

    /// Answers a request, and gives its spans to the shards.
    fn receive(&mut self, number: u64, moment: Moment, body: &[u8])
        requires open { self.old.closed ≡ false }
        requires up { self.old.output.0.sink.is_down ≡ false }
        ensures plays { PlaysOne self.old (receive number moment body.now) self.new }
        ensures leaves { Leaves self.old (receive number moment body.now) self.new }
    {
        // A lane owns its ports: the queues go to it, and come back with the reply (D-234).
        let queues = mem::replace(&mut self.queues, Vec::new(self.alloc));
        let (reply, queues) = submit(
            self.alloc,
            self.keeps_doubles,
            &mut self.connections,
            queues,
            number,
            moment,
            body,
        );
        self.queues = queues;
        self.output.count_reply(&reply);
        hand_reply(&mut self.text, &mut self.output, &reply);
        take_received(
            is_received(&reply),
            &mut self.shards,
            &mut self.queues,
            &mut self.limiter,
            &mut self.output,
            &mut self.listener,
        );
        self.output.send();
    }

    /// Takes a moment.
    fn tick(&mut self, moment: Moment)
        requires open { self.old.closed ≡ false }
        requires up { self.old.output.0.sink.is_down ≡ false }
        ensures plays { PlaysOne self.old (tick moment) self.new }
        ensures leaves { Leaves self.old (tick moment) self.new }
    {
        tell_each(
            &mut self.shards,
            &mut self.limiter,
            &mut self.output,
            &mut self.listener,
            Signal::Tick(moment),
        );
        self.output.send();
    }

    /// Ends the lanes, and then the ticker.
    fn close(&mut self)
        requires { self.old.closed ≡ false }
        ensures plays { PlaysOne self.old close self.new }
        ensures leaves { Leaves self.old close self.new }
    {
        end_all(
            &mut self.shards,
            &mut self.limiter,
            &mut self.output,
            &mut self.listener,
            self.connections.lanes(),
        );
        self.output.send();
        self.closed = true;
    }

    /// Does what a command says.
    fn obey(&mut self, command: ScriptCommand<'_>)
        requires open { self.old.closed ≡ false }
        requires up { self.old.output.0.sink.is_down ≡ true → instruction_of_command command ≡ close }
        ensures plays { PlaysOne self.old (instruction_of_command command.entry) self.new }
        ensures leaves { Leaves self.old (instruction_of_command command.entry) self.new }
    {
        match command {
            ScriptCommand::Receive {
                connection,
                moment,
                json,
            } => self.receive(connection, moment, json),
            ScriptCommand::Tick { moment } => self.tick(moment),
            ScriptCommand::Close => self.close(),
        }
    }
}

impl<S: Sink, L: Listener> ScriptPlayer for Session<S, L> {
    ghost leads = { λ start instructions now. (now.output.0.size ≡ start.output.0.size) × (now.queue_capacity ≡ start.queue_capacity)
        × (now.keeps_doubles ≡ start.keeps_doubles)
        × ((s : Settings) (w : ScriptWorld) → AreOf s w start.connections start.shards.items start.limiter start.output start.closed
        → (after : ScriptWorld) × PlaysAll s (record { batch = start.output.0.size; queue = start.queue_capacity; keeps_doubles = start.keeps_doubles }) w instructions after
        × AreOf s after now.connections now.shards.items now.limiter now.output now.closed) };

    ghost is_up = { λ now. not now.output.0.sink.is_down };

    ghost is_closed = { λ now. now.closed };

    fn play(&mut self, command: ScriptCommand<'_>) -> bool {
        self.obey(command);
        // Behind a write that failed only a close is played (D-239).
        !self.output.is_down()
    }
}

/// Hands a reply to the sink, as a line.
fn hand_reply<S: Sink>(text: &mut Vec<u8>, output: &mut Output<S>, reply: &Reply)
    requires { MAX_REPLY_LINE ≤ vec_capacity text.old }
    ensures room { MAX_REPLY_LINE ≤ vec_capacity text.new }
    ensures written { WritesLine output.old.0.sink (reply_line reply.now) output.new.0.sink }
    ensures batch { output.new.0.batch ≡ output.old.0.batch }
    ensures counted { output.new.1 ≡ output.old.1 }
    ensures goes_on { GoesOn output.old output.new }
{
    write_reply_line(text, reply);
    output.note(text);
}

/// The answer of a run: a refused line goes before a count that would have passed 2^64-1, and this before a sink fault.
fn answer_of(played: Result<(), ScriptStop>, report: Option<Report>) -> Result<Report, ReplayFault>
    ensures { AnswersStop played report result }
{
    match (played, report) {
        (Err(ScriptStop::NoMemory), _) => Err(ReplayFault::NoMemory),
        (Err(ScriptStop::Refused(line)), _) => Err(ReplayFault::Refused(line)),
        (Err(ScriptStop::Fault(line)), _) => Err(ReplayFault::Fault(line)),
        (_, None) => Err(ReplayFault::CounterOverflow),
        (Ok(()), Some(report)) => Ok(report),
        (Err(ScriptStop::Down), Some(report)) => Err(ReplayFault::SinkDown(report)),
    }
}
