//! What is said of the ledger: that it fails or is full, that this is over, and what an earlier run left.
use crate::charge::Charge;
use event_log::{FieldValue, Level, LogField};

/// What was known of the ledger at the last look.
#[derive(Clone, Copy)]
pub struct LedgerKnown {
    fails: bool,
    is_full: bool,
    is_cut: bool,
    is_restored: bool,
}

/// An event of the ledger, with what it tells.
#[derive(Clone, Copy)]
pub struct LedgerEvent {
    pub level: Level,
    pub name: &'static str,
    fields: [LogField<'static>; 5],
    /// How many of the fields there are.
    count: usize,
}

impl LedgerEvent {
    /// What it tells.
    pub fn fields(&self) -> &[LogField<'static>] {
        self.fields.get(..self.count).unwrap_or(&[])
    }
}

impl LedgerKnown {
    /// Nothing has happened.
    pub fn new() -> Self {
        LedgerKnown {
            fails: false,
            is_full: false,
            is_cut: false,
            is_restored: false,
        }
    }

    /// What happened since the last look, if anything did: one event at a look.
    pub fn look(&mut self, charge: &Charge) -> Option<LedgerEvent> {
        let ledger = charge.board.ledger().ledger()?;
        let written = [
            number("unwritten", ledger.unwritten()),
            number("bytes", ledger.bytes()),
        ];
        if self.fails != ledger.is_failing() {
            self.fails = !self.fails;
            let (level, name) = if self.fails {
                (Level::Error, "ledger_fails")
            } else {
                (Level::Info, "ledger_is_back")
            };
            return Some(event(level, name, written));
        }
        if self.is_full != ledger.is_full() {
            self.is_full = !self.is_full;
            let (level, name) = if self.is_full {
                (Level::Warning, "ledger_full")
            } else {
                (Level::Info, "ledger_has_room")
            };
            return Some(event(level, name, written));
        }
        let (requests, spans, refused) = ledger.restored();
        if !self.is_cut && 0 < ledger.cut() {
            self.is_cut = true;
            let fields = [number("files", ledger.cut()), number("refused", refused)];
            return Some(event(Level::Warning, "ledger_cut", fields));
        }
        if self.is_restored || !ledger.is_restored() {
            return None;
        }
        self.is_restored = true;
        if requests == 0 && refused == 0 {
            return None;
        }
        let (traces, milliseconds) = ledger.found();
        Some(LedgerEvent {
            level: level_of(refused),
            name: name_of(refused),
            fields: [
                number("requests", requests),
                number("spans", spans),
                number("traces", traces),
                number("handed_again", ledger.handed_again()),
                number("took_ms", milliseconds),
            ],
            count: 5,
        })
    }
}

/// The level of what is said of what was restored.
fn level_of(refused: u64) -> Level {
    if refused == 0 {
        Level::Info
    } else {
        Level::Warning
    }
}

/// What is said of what was restored: all of it, or a part.
fn name_of(refused: u64) -> &'static str {
    if refused == 0 {
        "ledger_restored"
    } else {
        "ledger_restored_in_part"
    }
}

/// An event that tells two numbers.
fn event(level: Level, name: &'static str, fields: [LogField<'static>; 2]) -> LedgerEvent {
    let [one, other] = fields;
    LedgerEvent {
        level,
        name,
        fields: [one, other, other, other, other],
        count: 2,
    }
}

fn number(name: &'static str, number: u64) -> LogField<'static> {
    LogField {
        name,
        value: FieldValue::Number(number),
    }
}
