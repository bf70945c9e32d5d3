//! What writes what ended, and removes what is over.
use crate::folder::{FileNumber, LedgerFolder};
use crate::ledger::{LedgerNews, RequestLedger};
use crate::notes::Notes;
use crate::releases::Releases;
use request_ledger::{LedgerNote, ShardStanding, ends_at, has_room, is_settled, may_go};
use std::alloc::{AllocError, Global};
use std::collections::VecDeque;
use std::fs::File;
use std::io;
use std::rt::Files;
use std::sync::{Arc, Wait};

/// So many bytes are left for requests that are under way when the folder is found to be full.
const SPARE: u64 = 65_536;

/// How much later than a segment's last request a trace must have been opened that is sure to have none of it, in
/// milliseconds: a lane may push a request's spans so long after it asked for their moment.
const MARGIN: u64 = 5_000;

/// Between two tries to open files again, in milliseconds.
const TRY_AGAIN: u64 = 1_000;

/// At most so many news are taken in one turn.
const MOST_NEWS: usize = 262_144;

/// How a keeper keeps.
#[derive(Clone, Copy)]
pub struct KeeperSettings {
    /// How often files are synced, in milliseconds; 0: never.
    pub sync_interval: u64,
    /// The most mebibytes of requests.
    pub max_mib: u64,
    pub lanes: u16,
}

/// A segment to which nothing is written any more.
#[derive(Clone, Copy)]
struct ClosedSegment {
    segment: u64,
    /// The greatest moment of its requests.
    last: u64,
    bytes: u64,
    /// None of its spans waits in a shard: told in this segment.
    settled: Option<u64>,
}

/// Keeps a ledger's files: writes which spans ended, begins new segments, and removes those that are over.
#[derive(Drop)]
pub struct Keeper<R: Files<File = File>> {
    folder: Arc<LedgerFolder<R>, Global>,
    alloc: Global,
    settings: KeeperSettings,
    run: u64,
    segment: u64,
    notes: Notes,
    releases: Releases,
    closed: VecDeque<ClosedSegment>,
    /// What was told last by shards and by the exporter, where it isn't noted yet, and how many of the spans that the exporter
    /// took first are to be noted.
    told: Option<LedgerNews>,
    pulled: Option<LedgerNews>,
    settled: u64,
    /// Another handle of each lane's file, to sync it without holding up its lane.
    open: Vec<File>,
    /// When the segment under way began, when all was synced last, and when files couldn't be opened last.
    began: u64,
    synced: u64,
    failed: Option<u64>,
}

impl<R: Files<File = File> + Copy> Keeper<R> {
    /// Begins a run behind those whose files are in the folder, at this moment. An error: its files can't be made.
    pub fn begin(
        alloc: Global,
        folder: Arc<LedgerFolder<R>, Global>,
        earlier: &[FileNumber],
        ledger: &RequestLedger,
        settings: KeeperSettings,
        now: u64,
        rt: &impl Wait,
    ) -> io::Result<Self> {
        ledger.leaves_earlier(!earlier.is_empty());
        let mut run = 0;
        let mut segment = 0;
        for number in earlier {
            run = number.run.max(run);
            segment = number.segment.max(segment);
        }
        let mut keeper = Keeper {
            folder,
            alloc,
            settings,
            run: run.saturating_add(1),
            segment,
            notes: Notes::new(alloc),
            releases: Releases::new(alloc),
            closed: VecDeque::new(alloc),
            told: None,
            pulled: None,
            settled: 0,
            open: Vec::new(alloc),
            began: now,
            synced: now,
            failed: None,
        };
        keeper.begin_segment(rt, ledger, now)?;
        Ok(keeper)
    }

    /// Takes what was told, writes it, and does what is due at this moment.
    pub fn turn<W: Wait>(&mut self, rt: &W, ledger: &RequestLedger, now: u64) {
        // In this order: what a shard released before it told how it stands is known when that is judged, and so is what was
        // released before the exporter settled it.
        let standings = ledger.standings(self.alloc);
        let settled = ledger.take_settled();
        let has_noted = self.note_all(rt, ledger, settled).is_ok();
        let is_written = self.notes.write().is_ok();
        let is_broken = !has_noted || !is_written || lacks_file(rt, ledger);
        if is_broken && self.failed.is_none() {
            self.failed = Some(now);
        }
        match self.failed {
            Some(since) => self.try_again(rt, ledger, since, now),
            None => {
                self.sync_if_due(now);
                let is_due = ends_at(self.began, now, ledger.open_bytes());
                if is_due && self.begin_segment(rt, ledger, now).is_err() {
                    self.failed = Some(now);
                }
                if let Ok(standings) = standings {
                    self.remove_settled(ledger, &standings);
                }
            }
        }
        let is_full = !has_room(ledger.bytes(), SPARE, self.settings.max_mib);
        ledger.shows(self.failed.is_some(), is_full);
    }

    /// Notes what shards told, and what became of so many more spans that the exporter took. An error: there is no memory.
    /// What couldn't be noted is noted at the next turn, before what was told behind it: were it forgotten, a segment would go
    /// before its spans are handed over.
    fn note_all<W: Wait>(
        &mut self,
        rt: &W,
        ledger: &RequestLedger,
        settled: u64,
    ) -> Result<(), AllocError> {
        self.settled = self.settled.saturating_add(settled);
        for _ in 0..MOST_NEWS {
            if self.told.is_none() {
                self.told = ledger.take_news(rt);
            }
            let Some(news) = self.told else {
                break;
            };
            self.note(news)?;
            self.told = None;
        }
        for _ in 0..self.settled {
            if self.pulled.is_none() {
                self.pulled = ledger.take_pulled(rt);
            }
            let Some(news) = self.pulled else {
                break;
            };
            self.note(news)?;
            self.pulled = None;
            self.settled = self.settled.saturating_sub(1);
        }
        Ok(())
    }

    /// Notes what was told. An error: there is no memory, and nothing was noted.
    fn note(&mut self, news: LedgerNews) -> Result<(), AllocError> {
        match news {
            LedgerNews::Counted {
                trace,
                moment,
                spans,
            } => self.notes.put(&LedgerNote::Counted {
                trace,
                moment,
                spans,
            }),
            LedgerNews::Pulled { trace, span } => {
                self.notes.put(&LedgerNote::Handed { trace, span })?;
                self.releases.settled(trace);
                Ok(())
            }
            LedgerNews::Released { trace, spans } => {
                self.releases.released(trace, spans, self.segment)
            }
            LedgerNews::Again {
                segment,
                lane,
                place,
            } => self.notes.put(&LedgerNote::Again {
                segment,
                lane,
                place,
            }),
        }
    }

    /// Opens other files in place of those that failed, since when it fails, where the last try was long enough ago and there
    /// is room again.
    fn try_again<W: Wait>(&mut self, rt: &W, ledger: &RequestLedger, since: u64, now: u64) {
        if now < since.saturating_add(TRY_AGAIN) {
            return;
        }
        // Empty files can be made on a disk that is full.
        let is_back = self.folder.has_room().is_ok()
            && self.begin_segment(rt, ledger, now).is_ok()
            && self.notes.write().is_ok();
        self.failed = if is_back { None } else { Some(now) };
    }

    /// Syncs what was written, where that is due.
    fn sync_if_due(&mut self, now: u64) {
        let interval = self.settings.sync_interval;
        if interval == 0 || now < self.synced.saturating_add(interval) {
            return;
        }
        self.synced = now;
        for file in &self.open {
            if file.sync_data().is_err() {
                self.failed = Some(now);
            }
        }
        if self.notes.sync().is_err() {
            self.failed = Some(now);
        }
    }

    /// The number of a file of the segment under way: that of a lane, or of the notes.
    fn number(&self, segment: u64, lane: Option<u16>) -> FileNumber {
        FileNumber {
            run: self.run,
            segment,
            lane,
        }
    }

    /// Begins a new segment, in which the lanes go on, and the notes. An error: its files can't be made; then all goes on
    /// as before.
    fn begin_segment<W: Wait>(
        &mut self,
        rt: &W,
        ledger: &RequestLedger,
        now: u64,
    ) -> io::Result<()> {
        let segment = self.segment.saturating_add(1);
        let mut files = Vec::new(self.alloc);
        let mut open = Vec::new(self.alloc);
        for lane in 0..self.settings.lanes {
            let file = self.folder.create(self.number(segment, Some(lane)))?;
            open.push(file.try_clone()?)?;
            files.push(file)?;
        }
        let notes = self.folder.create(self.number(segment, None))?;
        self.closed.reserve(1)?;
        if 0 < self.settings.sync_interval {
            self.folder.sync()?;
        }
        self.sync_open();
        let last = turn_lanes(rt, ledger, files);
        self.notes.turn(notes);
        self.closes(ledger, last);
        self.open = open;
        self.segment = segment;
        self.began = now;
        Ok(())
    }

    /// Syncs the files of a segment that ends, where files are synced at all.
    fn sync_open(&mut self) {
        if self.settings.sync_interval == 0 {
            return;
        }
        for file in &self.open {
            let _ = file.sync_data();
        }
        let _ = self.notes.sync();
    }

    /// The segment under way is closed, whose last request came at this moment.
    fn closes(&mut self, ledger: &RequestLedger, last: u64) {
        let closed = ClosedSegment {
            segment: self.segment,
            last,
            bytes: ledger.closes(),
            settled: None,
        };
        // Its room was reserved.
        let _ = self.closed.push_back(closed);
    }

    /// Removes the segments of which every span has its end, by how the shards stand.
    fn remove_settled(&mut self, ledger: &RequestLedger, standings: &[ShardStanding]) {
        let now = self.segment;
        for closed in self.closed.iter_mut() {
            if closed.settled.is_none() && is_settled(closed.last, MARGIN, standings) {
                closed.settled = Some(now);
            }
        }
        for _ in 0..self.closed.len() {
            let Some(first) = self.closed.front().copied() else {
                return;
            };
            let is_over = may_go(first.settled, self.releases.oldest());
            if !is_over || self.remove(ledger, &first).is_err() {
                return;
            }
            ledger.removes(first.bytes);
            self.closed.pop_front();
        }
    }

    /// Removes the files of a segment. Its notes stay as long as files of an earlier run are left: they say what of these
    /// was taken again.
    fn remove(&self, ledger: &RequestLedger, closed: &ClosedSegment) -> io::Result<()> {
        for lane in 0..self.settings.lanes {
            self.folder.remove(self.number(closed.segment, Some(lane)))?;
        }
        if ledger.has_earlier() {
            return Ok(());
        }
        self.folder.remove(self.number(closed.segment, None))
    }

    /// The run is over: all that was told is written. If every span has its end, no request of this run stays, nor a note,
    /// unless files of an earlier run are left.
    pub fn end<W: Wait>(&mut self, rt: &W, ledger: &RequestLedger, now: u64, has_ended: bool) {
        self.turn(rt, ledger, now);
        if !has_ended {
            self.sync_open();
            return;
        }
        let Ok(files) = self.folder.files() else {
            return;
        };
        let has_earlier = ledger.has_earlier();
        for number in files {
            let stays = number.lane.is_none() && has_earlier;
            if number.run == self.run && !stays {
                let _ = self.folder.remove(number);
            }
        }
    }
}

/// Whether a lane's file failed, and no other was opened since.
fn lacks_file<W: Wait>(rt: &W, ledger: &RequestLedger) -> bool {
    for slot in ledger.lanes() {
        if slot.lock(rt).is_broken() {
            return true;
        }
    }
    false
}

/// Each lane goes on in its file of these; the greatest moment of the requests in those before.
fn turn_lanes<W: Wait>(rt: &W, ledger: &RequestLedger, files: Vec<File>) -> u64 {
    let mut last = 0;
    let mut lanes = ledger.lanes().iter();
    for file in files {
        if let Some(slot) = lanes.next() {
            last = slot.lock(rt).turn(file).max(last);
        }
    }
    last
}
