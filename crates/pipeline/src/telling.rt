//! A report whose additions are told to a watcher.
ghost use Rattle.std.specs.Prelude.{◌≡◌, replicate};

use drop_ledger::{Count, Counter, CounterOverflow, Report};
use thread_watch::Watcher;

/// A report that tells a watcher each addition, when it is made.
#[derive(Drop)]
pub struct Told<'w, W> {
    report: Report,
    watcher: &'w W,
    /// It is the exporter's, which counts spans that it has taken: these are settled.
    settles: bool,
}

impl<'w, W: Watcher> Told<'w, W> {
    /// All counts are 0.
    pub fn new(watcher: &'w W) -> Self
        ensures { result.report ≡ replicate 9 0 }
    {
        Told {
            report: Report::new(),
            watcher,
            settles: false,
        }
    }

    /// The exporter's, which tells too that spans which it had taken are settled. All counts are 0.
    pub fn of_exporter(watcher: &'w W) -> Self
        ensures { result.report ≡ replicate 9 0 }
    {
        Told {
            report: Report::new(),
            watcher,
            settles: true,
        }
    }

    /// Gives the report.
    pub fn end(self) -> Report
        ensures { result ≡ self.entry.report }
    {
        self.report
    }
}

impl<'w, W: Watcher> Counter for Told<'w, W> {
    ghost counted = { λ t. t.report };

    fn add(&mut self, count: Count, n: u64) -> Result<(), CounterOverflow> {
        // First to the thread's own report, and only then to what is shown: no count rests on the watcher (D-195).
        self.report.add(count, n)?;
        self.watcher.counted(count.place(), n);
        if self.settles {
            self.watcher.settled(n);
        }
        Ok(())
    }
}
