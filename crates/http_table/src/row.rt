//! A row of the table.
use crate::column::bytes_of;
use crate::peers::Tail;
use http_text::Allowed;
use std::alloc::{AllocError, Global};

/// How an exchange is run.
#[derive(Clone, Copy, Drop)]
pub struct Setup {
    /// `capacity=N`: the queue of the one shard holds so many spans.
    pub capacity: usize,
    /// `received=N`: so many spans were counted as received before.
    pub received: u64,
    /// `blocks`, `times_out`, `interrupted`, `mixes`, `fails`: what each read does once the bytes are gone.
    pub tail: Tail,
    /// `stopped`: the stop mark is set.
    pub is_stopped: bool,
    /// `gzip`: packed bodies are taken. `never_closed`: `POST /close` isn't allowed. `limit=N`: a body may have so many
    /// bytes, else 4 MiB.
    pub allowed: Allowed,
    /// `long`: it isn't cut in every two pieces, nor read a byte at a time.
    pub is_long: bool,
    /// `writes`: writes fail after each number of bytes.
    pub writes: bool,
    /// `cuts`: its first bytes, however many but all of them, come to no answer.
    pub cuts: bool,
}

/// What an exchange comes to beside its answers.
#[derive(Clone, Copy, Drop)]
pub struct Outcome {
    /// Spans counted as received.
    pub received: u64,
    /// Spans counted as dropped for an invalid id.
    pub invalid: u64,
    /// Spans counted as dropped at a full queue.
    pub full: u64,
    /// Spans in the queue.
    pub pushed: u64,
    /// The number of the last of them on the connection.
    pub last: u64,
    /// Its moment.
    pub moment: u64,
    /// So many times the clock was asked.
    pub asked: u64,
    /// Whether the stop mark is set.
    pub is_stopped: bool,
    /// So many reads were made of it in one piece; 0 where the row doesn't say.
    pub reads: u64,
    /// `after=N`: where writes fail before so many bytes, nothing is counted, pushed or asked.
    pub after: usize,
}

/// An exchange.
#[derive(Drop)]
pub struct Row<'t> {
    pub setup: Setup,
    pub input: Vec<u8>,
    /// Interim lines and answers, in order.
    pub answers: Vec<Vec<u8>>,
    pub end: &'t str,
    pub outcome: Outcome,
}

/// Whether a word stands among those of a column.
fn says(column: &str, word: &str) -> bool {
    column.split(' ').any(|other| other == word)
}

/// The number that a column gives by this name.
fn number(column: &str, name: &str) -> Option<u64> {
    for word in column.split(' ') {
        if let Some((other, value)) = word.split_once('=')
            && other == name
        {
            return value.parse::<u64>().ok();
        }
    }
    None
}

/// How many bytes a body may have.
fn limit(column: &str) -> u32 {
    match number(column, "limit") {
        Some(limit) if limit < 4_294_967_296 => limit as u32,
        _ => 4_194_304,
    }
}

/// What each read does once the bytes are gone.
fn tail(column: &str) -> Tail {
    if says(column, "blocks") {
        return Tail::Blocks;
    }
    if says(column, "times_out") {
        return Tail::TimesOut;
    }
    if says(column, "interrupted") {
        return Tail::Interrupted;
    }
    if says(column, "mixes") {
        return Tail::Mixes;
    }
    if says(column, "fails") {
        return Tail::Fails;
    }
    Tail::Ends
}

/// How an exchange is run.
fn how(column: &str) -> Setup {
    Setup {
        capacity: number(column, "capacity").unwrap_or(8) as usize,
        received: number(column, "received").unwrap_or(0),
        tail: tail(column),
        is_stopped: says(column, "stopped"),
        allowed: Allowed {
            gzip: says(column, "gzip"),
            protobuf: false,
            close: !says(column, "never_closed"),
            body_limit: limit(column),
        },
        is_long: says(column, "long"),
        writes: says(column, "writes"),
        cuts: says(column, "cuts"),
    }
}

/// What it comes to.
fn counted(column: &str) -> Outcome {
    Outcome {
        received: number(column, "received").unwrap_or(0),
        invalid: number(column, "invalid").unwrap_or(0),
        full: number(column, "full").unwrap_or(0),
        pushed: number(column, "pushed").unwrap_or(0),
        last: number(column, "last").unwrap_or(0),
        moment: number(column, "moment").unwrap_or(0),
        asked: number(column, "asked").unwrap_or(0),
        is_stopped: says(column, "stopped"),
        reads: number(column, "reads").unwrap_or(0),
        after: number(column, "after").unwrap_or(0) as usize,
    }
}

/// The texts of a column, which are parted by `\;`.
fn texts(alloc: Global, column: &str) -> Result<Vec<Vec<u8>>, AllocError> {
    let mut texts = Vec::new(alloc);
    for text in column.split("\\;") {
        texts.push(bytes_of(alloc, text)?)?;
    }
    Ok(texts)
}

impl<'t> Row<'t> {
    /// How many writes its answers are: one each.
    pub fn writes(&self) -> u64 {
        let mut writes: u64 = 0;
        for answer in &self.answers {
            if !answer.is_empty() {
                writes = writes.saturating_add(1);
            }
        }
        writes
    }

    /// The exchange of a line, unless it has too few columns.
    pub fn read(alloc: Global, line: &'t str) -> Result<Option<Row<'t>>, AllocError> {
        let mut columns = line.split('\t');
        let (Some(_), Some(setup), Some(input)) = (columns.next(), columns.next(), columns.next())
        else {
            return Ok(None);
        };
        let (Some(answers), Some(end), Some(outcome)) = (
            columns.next(),
            columns.next(),
            columns.next(),
        ) else {
            return Ok(None);
        };
        Ok(Some(Row {
            setup: how(setup),
            input: bytes_of(alloc, input)?,
            answers: texts(alloc, answers)?,
            end,
            outcome: counted(outcome),
        }))
    }
}
