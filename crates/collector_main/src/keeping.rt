//! Where requests are kept until their spans have their end, and what an earlier run left there.
use crate::logging::say_fault;
use collector_commands::Outcome;
use collector_serve::{Charge, EventWriter, LedgerThread, Restoring, SteadyClock};
use http_lane::Clock as Moments;
use pipeline::Machine;
use request_keeping::{Earlier, Keeper, KeeperSettings, LedgerFolder};
use std::alloc::Global;
use std::fs::File;
use std::io;
use std::io::Write;
use std::net::{Net, TcpListener, TcpStream};
use std::rt::Files;
use std::sync::Arc;
use tsc_config::{Config, LedgerSync};

/// What keeps requests, where the configuration names a folder for them.
#[derive(Drop)]
pub struct Keeping<T: Files<File = File>> {
    thread: LedgerThread,
    /// What an earlier run left, until it is sent again.
    earlier: Option<(Arc<LedgerFolder<T>, Global>, Earlier)>,
    restoring: Restoring,
}

impl<
    T: Files<File = File>
        + Net<Listener = TcpListener, Stream = TcpStream>
        + Machine
        + Copy
        + Send
        + 'static,
> Keeping<T>
where
    T::Dir: Send + 'static,
{
    /// Opens the folder that the configuration names, reads what an earlier run left, and starts what keeps its files. An
    /// error, which is said: the folder can't be made, read or written, or another process has it.
    pub fn open<E: Write + Drop>(
        rt: &T,
        alloc: Global,
        config: &Config,
        charge: &Arc<Charge, Global>,
        events: &mut EventWriter<E>,
    ) -> io::Result<Self> {
        let path = config.ledger.path.as_str();
        if path.is_empty() {
            return Ok(Keeping {
                thread: LedgerThread::none(),
                earlier: None,
                restoring: Restoring::none(),
            });
        }
        match Keeping::begin(rt, alloc, config, charge) {
            Ok(keeping) => Ok(keeping),
            Err(error) => {
                say_fault(rt, alloc, events, "cannot_write", path, error);
                Err(error)
            }
        }
    }

    /// The same, where the configuration names a folder.
    fn begin(
        rt: &T,
        alloc: Global,
        config: &Config,
        charge: &Arc<Charge, Global>,
    ) -> io::Result<Self> {
        let folder = LedgerFolder::open(rt, alloc, config.ledger.path.as_str())?;
        let folder = Arc::new(alloc, folder)?;
        let clock = SteadyClock::new(rt);
        let began = clock.now();
        let earlier = Earlier::read_by_threads(rt, alloc, &folder, folder.files()?)?;
        let Some(ledger) = charge.board.ledger().ledger() else {
            return Err(io::Error::from(io::ErrorKind::NotFound));
        };
        let kept = Arc::try_clone(&folder)?;
        let now = clock.now();
        ledger.finds(earlier.traces());
        ledger.takes(now.saturating_sub(began));
        let settings = settings_of(config);
        let keeper = Keeper::begin(alloc, kept, earlier.files(), ledger, settings, now, rt)?;
        let thread = LedgerThread::start(rt, keeper, Arc::try_clone(charge)?)?;
        Ok(Keeping {
            thread,
            earlier: Some((folder, earlier)),
            restoring: Restoring::none(),
        })
    }

    /// Sends what an earlier run left, now that it is listened.
    pub fn restore(
        &mut self,
        rt: &T,
        alloc: Global,
        config: &Config,
        charge: &Arc<Charge, Global>,
    ) -> io::Result<()> {
        let Some((folder, earlier)) = self.earlier.take() else {
            return Ok(());
        };
        let address = config.listen.as_str();
        let shared = Arc::try_clone(charge)?;
        self.restoring = Restoring::start(rt, alloc, address, folder, earlier, shared)?;
        Ok(())
    }

    /// The run has ended so.
    pub fn ended(&self, charge: &Charge, outcome: &Outcome) {
        let Some(ledger) = charge.board.ledger().ledger() else {
            return;
        };
        if let Outcome::Done(_) = outcome {
            ledger.ends();
        }
    }

    /// The run is over: waits until nothing more is sent, and all that was told is in the files.
    pub fn end(self, rt: &T, charge: &Charge) {
        let Keeping {
            thread,
            earlier: _,
            restoring,
        } = self;
        restoring.end(rt);
        if let Some(ledger) = charge.board.ledger().ledger() {
            ledger.closes_for_good();
        }
        thread.end(rt);
    }
}

/// How the ledger is kept by a configuration.
fn settings_of(config: &Config) -> KeeperSettings {
    let sync_interval = match config.ledger.sync {
        LedgerSync::None => 0,
        LedgerSync::Interval | LedgerSync::Request => config.ledger.sync_interval_ms,
    };
    KeeperSettings {
        sync_interval,
        max_mib: config.ledger.max_mib,
        lanes: config.lanes,
    }
}
