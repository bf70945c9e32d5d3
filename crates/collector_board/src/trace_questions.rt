//! What those who look ask of the shards: what they hold of a trace.
ghost use Rattle.std.specs.Prelude.{◌≡◌, find, is_some, option_copied};
ghost use Rattle.std.specs.List.{list_all};
ghost use Rattle.collector_board.specs.Questions.{held_by_all, is_known, stands};

use decision_line::TraceHeld;
use span_ids::TraceId;
use std::alloc::{AllocError, Global};
use std::sync::atomic::{AtomicBool, AtomicU64, Ordering};
use std::sync::{Mutex, Wait};
use thread_watch::MOST_ASKED;

/// For so long a question stands after it was asked last, in milliseconds.
pub const STANDS_FOR: u64 = 10_000;

/// A trace that somebody asks for.
#[derive(Drop)]
struct TraceQuestion {
    trace: TraceId,
    /// When it was asked for last, in milliseconds since 1970.
    asked: u64,
    /// What each shard answered last.
    answers: Vec<Option<TraceHeld>>,
}

impl TraceQuestion {
    /// No shard has answered.
    fn new(alloc: Global, shards: usize, trace: TraceId, asked: u64) -> Result<Self, AllocError> {
        Ok(TraceQuestion {
            trace,
            asked,
            answers: vec![in alloc; None; shards]?,
        })
    }
}

/// What those who look ask of the shards. Each shard answers when it tells what it holds, as long as the question stands.
#[derive(Drop)]
pub struct TraceQuestions {
    shards: usize,
    /// Whether a question stands: so a shard looks for none while nobody asks.
    is_asked: AtomicBool,
    /// When the last one was asked, in milliseconds since 1970.
    asked: AtomicU64,
    /// At most `MOST_ASKED`, each of another trace.
    questions: Mutex<Vec<TraceQuestion>>,
}

impl TraceQuestions {
    /// Nothing is asked of the shards, of this number.
    pub fn new(alloc: Global, shards: usize) -> Self {
        TraceQuestions {
            shards,
            is_asked: AtomicBool::new(false),
            asked: AtomicU64::new(0),
            questions: Mutex::new(Vec::new(alloc)),
        }
    }

    /// Whether a question stands.
    pub fn is_asked(&self) -> bool {
        self.is_asked.load(Ordering::Relaxed)
    }

    /// The trace of the question at this place, if there is one.
    pub fn trace_at<R: Wait>(&self, rt: &R, place: usize) -> Option<TraceId> {
        let questions = self.questions.lock(rt);
        let question = questions.get(place)?;
        Some(question.trace)
    }

    /// A shard holds this of a trace. Where nobody asks for it any more, that is told to nobody.
    pub fn answer<R: Wait>(&self, rt: &R, shard: u16, trace: TraceId, held: TraceHeld) {
        let mut questions = self.questions.lock(rt);
        for question in questions.iter_mut() {
            if question.trace == trace {
                if let Some(answer) = question.answers.get_mut(shard as usize) {
                    *answer = Some(held);
                }
            }
        }
    }

    /// Asks for a trace, at this moment in milliseconds since 1970: what the shards have answered, where the question
    /// stood already and they did. Where as many stand as may, the one that was asked longest ago goes.
    pub fn ask<R: Wait>(
        &self,
        rt: &R,
        alloc: Global,
        trace: TraceId,
        now: u64,
    ) -> Result<Option<TraceHeld>, AllocError> {
        let mut questions = self.questions.lock(rt);
        let place = place_for(&questions, trace);
        if !stands_at(&questions, place, trace, now) {
            put_at(
                &mut questions,
                place,
                TraceQuestion::new(alloc, self.shards, trace, now)?,
            )?;
        }
        self.asked.store(now, Ordering::Relaxed);
        self.is_asked.store(true, Ordering::Relaxed);
        let Some(question) = questions.get_mut(place) else {
            return Ok(None);
        };
        question.asked = now;
        Ok(held_by_all(&question.answers))
    }

    /// It is this moment, in milliseconds since 1970: where the last question was asked too long ago, none stands.
    pub fn passes(&self, now: u64) {
        if self.is_asked() && !stands(self.asked.load(Ordering::Relaxed), now) {
            self.is_asked.store(false, Ordering::Relaxed);
        }
    }
}

/// The place for a question of this trace: its own, else behind the others where there is room, else that of the one
/// that was asked longest ago.
fn place_for(questions: &[TraceQuestion], trace: TraceId) -> usize {
    let mut oldest = 0;
    let mut asked = u64::MAX;
    for (place, question) in questions.iter().enumerate() {
        if question.trace == trace {
            return place;
        }
        if question.asked < asked {
            oldest = place;
            asked = question.asked;
        }
    }
    if questions.len() < MOST_ASKED {
        questions.len()
    } else {
        oldest
    }
}

/// Whether the question at this place is of this trace, and stands.
fn stands_at(questions: &[TraceQuestion], place: usize, trace: TraceId, now: u64) -> bool {
    match questions.get(place) {
        Some(question) => question.trace == trace && stands(question.asked, now),
        None => false,
    }
}

/// Puts a question at a place, or behind the others where there is none.
fn put_at(
    questions: &mut Vec<TraceQuestion>,
    place: usize,
    question: TraceQuestion,
) -> Result<(), AllocError> {
    if let Some(there) = questions.get_mut(place) {
        *there = question;
        return Ok(());
    }
    questions.push(question)?;
    Ok(())
}

/// Whether a question stands that was asked last at this moment. One that was asked ahead of now, as the wall clock went
/// back, doesn't.
fn stands(asked: u64, now: u64) -> bool
    ensures { result ≡ stands asked now }
{
    asked <= now && now - asked < STANDS_FOR
}

/// Whether this is the answer of a shard that knows the trace.
fn is_known(answer: &Option<TraceHeld>) -> bool
    ensures { result ≡ is_known answer.now }
{
    match answer {
        None | Some(TraceHeld::Unknown) => false,
        Some(_) => true,
    }
}

/// The answer of the first shard that knows the trace.
fn first_known(answers: &[Option<TraceHeld>]) -> Option<&Option<TraceHeld>>
    ensures { option_copied result ≡ find is_known answers.now }
{
    answers.iter().find(|answer| is_known(answer))
}

/// Whether each shard has answered.
fn have_all_answered(answers: &[Option<TraceHeld>]) -> bool
    ensures { result ≡ list_all is_some answers.now }
{
    answers.iter().all(|answer| answer.is_some())
}

/// What the shards hold of a trace, by what each of them answered: what the first says that knows it; that it is unknown,
/// where all say so; else nothing yet.
fn held_by_all(answers: &[Option<TraceHeld>]) -> Option<TraceHeld>
    ensures { result ≡ held_by_all answers.now }
{
    match first_known(answers) {
        Some(known) => *known,
        None if have_all_answered(answers) => Some(TraceHeld::Unknown),
        None => None,
    }
}
