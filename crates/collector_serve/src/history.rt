//! The counts of the last minutes, for those who come to look.
ghost use Rattle.std.specs.Prelude.{◌≡◌, ◌<◌, ◌+◌, ◌*◌, ◌%◌};
ghost use Rattle.collector_serve.specs.LastRows.{last_row};

use drop_ledger::{Count, Report};
use status_json::{HISTORY_ROWS, HistoryRow, is_row_due};
use std::alloc::{AllocError, Global};
use std::sync::atomic::{AtomicU64, Ordering};

/// The number of counts in a report.
const PLACES: usize = 9;

/// The cells of a row: its moment, and its counts.
const WIDTH: usize = PLACES + 1;

/// One row more than is told, so that the one that is written now is none of those.
const KEPT: usize = HISTORY_ROWS + 1;

/// The counts of the last minutes. One thread adds rows, and any may read them meanwhile.
#[derive(Drop)]
pub struct History {
    cells: Vec<AtomicU64>,
    added: AtomicU64,
}

impl History {
    /// No row.
    pub fn new(alloc: Global) -> Result<Self, AllocError> {
        let mut cells = Vec::new(alloc);
        for _ in 0..KEPT * WIDTH {
            cells.push(AtomicU64::new(0))?;
        }
        Ok(History {
            cells,
            added: AtomicU64::new(0),
        })
    }

    /// Adds the row of a moment, in milliseconds since 1970, where one is due.
    pub fn looks(&self, now: u64, report: Report) {
        let added = self.added.load(Ordering::Relaxed);
        if !is_row_due(self.last(added), now) {
            return;
        }
        self.put(added, 0, now);
        for count in Count::ALL {
            self.put(added, 1 + count.place(), report.number(count));
        }
        // Those who see the number see the row.
        self.added.store(added.wrapping_add(1), Ordering::Release);
    }

    /// The rows, the oldest first.
    pub fn rows(&self, alloc: Global) -> Result<Vec<HistoryRow>, AllocError> {
        let added = self.added.load(Ordering::Acquire);
        let mut rows = Vec::new(alloc);
        for row in added.saturating_sub(HISTORY_ROWS as u64)..added {
            rows.push(self.row(row))?;
        }
        Ok(rows)
    }

    /// The moment of the last of so many rows.
    fn last(&self, added: u64) -> Option<u64> {
        Some(self.got(last_row(added)?, 0))
    }

    /// The row of this number.
    fn row(&self, row: u64) -> HistoryRow {
        let mut report = Report::new();
        for count in Count::ALL {
            // The report's counts are 0 before.
            let _ = report.add(count, self.got(row, 1 + count.place()));
        }
        HistoryRow {
            at: self.got(row, 0),
            report,
        }
    }

    fn put(&self, row: u64, place: usize, number: u64)
        requires { place < WIDTH }
    {
        if let Some(cell) = self.cells.get(cell_of(row, place)) {
            cell.store(number, Ordering::Relaxed);
        }
    }

    fn got(&self, row: u64, place: usize) -> u64
        requires { place < WIDTH }
    {
        match self.cells.get(cell_of(row, place)) {
            Some(cell) => cell.load(Ordering::Relaxed),
            None => 0,
        }
    }
}

/// The number of the last of so many rows, counted from 0 on, if there is one.
fn last_row(added: u64) -> Option<u64>
    ensures { result ≡ last_row added }
{
    added.checked_sub(1)
}

/// The cell at a place of the row of this number: of the rows that are kept each has cells of its own.
fn cell_of(row: u64, place: usize) -> usize
    requires { place < WIDTH }
    ensures { result ≡ row % KEPT * WIDTH + place }
{
    (row % KEPT as u64) as usize * WIDTH + place
}
