//! Worked journals, played through what a journal says.
use crate::tests::settings::plain_settings;
use otlp_types::List;
use plain_shards::{Event, event_item, policy_on};
use plain_spans::numbered_ids;
use shard_journal::{
    Effect, Entry, Finding, LookBack, Settings, clock, decision_at, effect_of_taking, finding_of,
    has_ended, have_ended, remembered,
};
use span_ids::Verdict;
use std::alloc::{AllocError, Global};
use std::process::Abort;
use std::test::Fail;

/// One policy: on this status code, or one that samples each trace; the greatest size of a trace, in bytes, where 0 is
/// none; and how many sampled and how many other traces are remembered.
#[derive(Clone, Copy)]
struct Given {
    code: Option<i32>,
    maximum_trace_size: u64,
    sampled_cache_size: usize,
    non_sampled_cache_size: usize,
}

/// Two senders, a wait of ten seconds, room for one trace, and what is given.
fn settings_with(alloc: Global, given: Given) -> Result<Settings, AllocError> {
    let mut settings = plain_settings(policy_on(alloc, given.code)?);
    settings.decision_wait = 10_000;
    settings.maximum_trace_size = given.maximum_trace_size;
    settings.sampled_cache_size = given.sampled_cache_size;
    settings.non_sampled_cache_size = given.non_sampled_cache_size;
    Ok(settings)
}

/// What is still to be released and to be counted, by numbers, and reasons and numbers; and whether at each item just
/// what was due could be decided, and what was released and what was counted were as wanted.
#[derive(Clone, Copy)]
struct Wanted<'a> {
    released: &'a [u64],
    counted: &'a [(u8, u64)],
    are_right: [bool; 3],
}

impl Wanted<'_> {
    /// Notes what an effect released and counted.
    fn note(&mut self, effect: &Effect) {
        for span in &effect.released {
            match self.released.split_first() {
                Some((number, rest)) if *number == span.key.number => self.released = rest,
                _ => self.are_right[1] = false,
            }
        }
        for span in &effect.counted {
            match self.counted.split_first() {
                Some(((reason, number), rest))
                    if *reason == span.reason.number() && *number == span.key.number =>
                    self.counted = rest,
                _ => self.are_right[2] = false,
            }
        }
    }
}

/// Puts an event at the end of the journal, and notes what taking it does.
fn take(
    alloc: Global,
    settings: &Settings,
    journal: &mut Vec<Entry>,
    event: Event,
    wanted: &mut Wanted<'_>,
) -> Result<(), AllocError> {
    let entry = Entry {
        item: event_item(alloc, event)?,
        refused: false,
        lost: false,
        answers: Vec::new(alloc),
    };
    wanted.note(&effect_of_taking(alloc, settings, journal, &entry)?);
    journal.push(entry)?;
    Ok(())
}

/// Makes each decision that is due; and there is none behind those.
fn decide_all(
    alloc: Global,
    settings: &Settings,
    journal: &mut Vec<Entry>,
    wanted: &mut Wanted<'_>,
) -> Result<(), AllocError> {
    let due = LookBack::new(alloc, settings, journal)?.due();
    for place in 0..due {
        match decision_at(alloc, settings, journal, place, &[])? {
            Some(effect) => wanted.note(&effect),
            None => wanted.are_right[0] = false,
        }
        if let Some(last) = journal.last_mut() {
            last.answers.push(List::new(alloc))?;
        }
    }
    let is_more = decision_at(alloc, settings, journal, due, &[])?.is_some();
    wanted.are_right[0] = wanted.are_right[0] && !is_more;
    Ok(())
}

/// Plays events behind the end of the journal.
fn play(
    alloc: Global,
    settings: &Settings,
    journal: &mut Vec<Entry>,
    events: &[Event],
    wanted: &mut Wanted<'_>,
) -> Result<(), AllocError> {
    for event in events {
        take(alloc, settings, journal, *event, wanted)?;
        decide_all(alloc, settings, journal, wanted)?;
    }
    Ok(())
}

/// Plays these events over a new journal. Whether just what was due could be decided; whether spans of these numbers
/// were released; and whether these were counted, by their reasons and numbers.
fn played(
    alloc: Global,
    given: Given,
    events: &[Event],
    released: &[u64],
    counted: &[(u8, u64)],
) -> Result<[bool; 3], AllocError> {
    let mut wanted = Wanted {
        released,
        counted,
        are_right: [true; 3],
    };
    let settings = settings_with(alloc, given)?;
    let mut journal = Vec::new(alloc);
    play(alloc, &settings, &mut journal, events, &mut wanted)?;
    let [as_due, as_released, as_counted] = wanted.are_right;
    Ok([
        as_due,
        as_released && wanted.released.is_empty(),
        as_counted && wanted.counted.is_empty(),
    ])
}

/// Plays these events, and asserts all three.
fn plays(
    rt: &impl Abort,
    alloc: Global,
    given: Given,
    events: &[Event],
    released: &[u64],
    counted: &[(u8, u64)],
) -> Result<(), Fail> {
    let found = played(alloc, given, events, released, counted)?;
    assert_eq!(rt; found, [true; 3], "{}", given.maximum_trace_size);
    Ok(())
}

#[test]
fn full_buffer_evicts_undecided(rt: HostRuntime) -> Result<(), Fail> {
    let events = [
        Event::Span(1, 0, 0, 0),
        Event::Span(2, 1, 1, 0),
        Event::Span(1, 2, 2, 0),
        Event::End(0),
        Event::End(1),
    ];
    let given = Given {
        code: None,
        maximum_trace_size: 0,
        sampled_cache_size: 0,
        non_sampled_cache_size: 0,
    };
    plays(&rt, rt.alloc(), given, &events, &[2], &[(4, 0), (4, 1)])
}

#[test]
fn cache_of_one_forgets(rt: HostRuntime) -> Result<(), Fail> {
    let events = [
        Event::Span(1, 0, 0, 2),
        Event::Tick(10_000),
        Event::Span(2, 1, 10_000, 2),
        Event::Tick(20_000),
        Event::Span(3, 2, 20_000, 2),
        Event::Tick(30_000),
        Event::Span(1, 3, 30_000, 0),
        Event::Tick(40_000),
        Event::End(0),
        Event::End(1),
    ];
    let given = Given {
        code: Some(2),
        maximum_trace_size: 0,
        sampled_cache_size: 1,
        non_sampled_cache_size: 0,
    };
    plays(&rt, rt.alloc(), given, &events, &[0, 1, 2], &[(5, 3)])
}

const RENEWING: [Event; 11] = [
    Event::Span(1, 0, 0, 2),
    Event::Tick(10_000),
    Event::Span(2, 1, 10_000, 2),
    Event::Tick(20_000),
    Event::Span(3, 2, 20_000, 2),
    Event::Span(1, 3, 20_000, 0),
    Event::Tick(30_000),
    Event::Span(4, 4, 30_000, 2),
    Event::Span(1, 5, 30_000, 0),
    Event::End(0),
    Event::End(1),
];

/// A policy on errors, and two traces of each kind remembered.
const ON_ERRORS: Given = Given {
    code: Some(2),
    maximum_trace_size: 0,
    sampled_cache_size: 2,
    non_sampled_cache_size: 2,
};

#[test]
fn late_span_renews(rt: HostRuntime) -> Result<(), Fail> {
    plays(
        &rt,
        rt.alloc(),
        ON_ERRORS,
        &RENEWING,
        &[0, 1, 3, 2, 5, 4],
        &[],
    )
}

/// A root has 94 bytes where it has an error, and 74 else.
#[test]
fn too_big_is_decided_at_once(rt: HostRuntime) -> Result<(), Fail> {
    let events = [
        Event::Span(1, 0, 0, 2),
        Event::Span(1, 1, 1, 0),
        Event::Span(1, 2, 2, 2),
        Event::Tick(10_000),
        Event::End(0),
        Event::End(1),
    ];
    let rows: [(u64, &[u64], &[(u8, u64)]); 7] = [
        (0, &[0, 1, 2], &[]),
        (262, &[0, 1, 2], &[]),
        (261, &[], &[(5, 0), (5, 1), (5, 2)]),
        (168, &[], &[(5, 0), (5, 1), (5, 2)]),
        (167, &[], &[(5, 0), (5, 1), (6, 2)]),
        (94, &[], &[(5, 0), (5, 1), (6, 2)]),
        (93, &[], &[(5, 0), (6, 1), (6, 2)]),
    ];
    for (maximum_trace_size, released, counted) in rows {
        let given = Given {
            maximum_trace_size,
            ..ON_ERRORS
        };
        plays(&rt, rt.alloc(), given, &events, released, counted)?;
    }
    Ok(())
}

/// What a journal answers: of each of four traces; what it remembers of the first; whether a mark applies to a span of
/// a trace, that it was refused of the third and of the first trace, that a decision was lost of the fourth; its clock;
/// and whether sender 1 and sender 2 have ended, and the first two and the first three.
#[derive(Clone, Copy)]
struct Answers {
    findings: [Finding; 4],
    late: Option<Verdict>,
    marks: [bool; 3],
    clock: u64,
    ends: [bool; 4],
}

/// What a journal answers of a trace, and what it remembers of it.
fn find(
    alloc: Global,
    settings: &Settings,
    journal: &[Entry],
    trace: u8,
) -> Result<(Finding, Option<Verdict>), AllocError> {
    let ids = numbered_ids(trace, true).ok_or(AllocError)?;
    let _span = ids.span; // (so that the borrow checker knows of its type)
    let finding = finding_of(alloc, settings, journal, ids.trace)?;
    Ok((finding, remembered(alloc, settings, journal, ids.trace)?))
}

fn ask(alloc: Global, settings: &Settings, journal: &[Entry]) -> Result<Answers, AllocError> {
    let (first, late) = find(alloc, settings, journal, 1)?;
    let (second, _) = find(alloc, settings, journal, 2)?;
    let (third, _) = find(alloc, settings, journal, 3)?;
    let (fourth, _) = find(alloc, settings, journal, 4)?;
    let look = LookBack::new(alloc, settings, journal)?;
    Ok(Answers {
        findings: [first, second, third, fourth],
        late,
        marks: [
            look.marks_apply(settings, true, false, numbered_ids(3, true)),
            look.marks_apply(settings, true, false, numbered_ids(1, true)),
            look.marks_apply(settings, false, true, numbered_ids(4, true)),
        ],
        clock: clock(journal),
        ends: [
            has_ended(journal, 1),
            has_ended(journal, 2),
            have_ended(journal, 2),
            have_ended(journal, 3),
        ],
    })
}

/// What the journal of these events answers.
fn answers_of(alloc: Global, events: &[Event]) -> Result<Answers, AllocError> {
    let mut unwanted = Wanted {
        released: &[],
        counted: &[],
        are_right: [true; 3],
    };
    let settings = settings_with(alloc, ON_ERRORS)?;
    let mut journal = Vec::new(alloc);
    play(alloc, &settings, &mut journal, events, &mut unwanted)?;
    ask(alloc, &settings, &journal)
}

#[test]
fn two_senders_end(rt: HostRuntime) -> Result<(), Fail> {
    let answers = answers_of(rt.alloc(), &RENEWING)?;
    let ends = answers.ends;
    assert_eq!(rt; (answers.clock, ends), (30_000, [true, false, true, false]));
    Ok(())
}

#[test]
fn answers_for_each_trace(rt: HostRuntime) -> Result<(), Fail> {
    let answers = answers_of(rt.alloc(), &RENEWING[..5])?;
    let meets = Finding::Meets(Verdict::Sampled);
    let wanted = [meets, meets, Finding::Joins, Finding::Opens];
    let findings = answers.findings;
    let marks = answers.marks;
    assert_eq!(rt; findings, wanted);
    assert_eq!(rt;
        (answers.late, marks),
        (Some(Verdict::Sampled), [true, false, false])
    );
    Ok(())
}
