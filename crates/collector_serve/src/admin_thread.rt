//! The threads that answer those in charge of a collector, and those who read its numbers.
ghost use Rattle.std.specs.Prelude.{◌≡◌, ◌++◌, nat_lt, true, false, IsSome, None, option_to_list};
ghost use Rattle.std.specs.VecDeque.{deque_len};

use crate::admin_door::{Door, Peer};
use crate::charge::Charge;
use crate::visit::Visit;
use admin_http::Access;
use std::alloc::Global;
use std::collections::VecDeque;
use std::net::{Net, TcpListener, TcpStream};
use std::rt::Files;
use std::sync::{Arc, Wait};
use std::thread::{JoinHandle, Threads};
use std::time::{Clock, Duration, Instant};
use std::{io, thread};

/// The most connections of an address that are answered at once; each has a thread of its own.
const AT_ONCE: usize = 64;

/// The pause where no connection can be taken, in milliseconds.
const PAUSE: u64 = 1_000;

/// A connection, and the thread that answers it.
#[derive(Drop)]
struct Visiting {
    visit: Arc<Visit, Global>,
    thread: JoinHandle<()>,
}

/// What an address is there for, and the connections that are answered there now, the oldest first.
#[derive(Drop)]
struct Reception {
    charge: Arc<Charge, Global>,
    access: Access,
    began: Option<Instant>,
    visits: VecDeque<Visiting>,
}

/// Starts a thread that takes connections at this address, `address:port`, `:port` or `unix:` and a path. Each is
/// answered by a thread of its own, by what may be asked for there. Where [`AT_ONCE`] are under way, the oldest is
/// ended for a new one, so that nobody is kept waiting by those who say nothing. It ends with the program.
pub fn start_admin<
    R: Net<Listener = TcpListener, Stream = TcpStream>
        + Files
        + Threads
        + Wait
        + Clock
        + Copy
        + Send
        + 'static,
>(
    rt: &R,
    alloc: Global,
    address: &str,
    access: Access,
    charge: Arc<Charge, Global>,
) -> io::Result<()> {
    let door = Door::at(rt, alloc, address)?;
    let own = *rt;
    let _runs_on = thread::spawn(rt, move || take_all(&own, alloc, &door, access, charge))?;
    Ok(())
}

/// Takes one connection after the other.
fn take_all<R: Threads + Wait + Clock + Copy + Send + 'static>(
    rt: &R,
    alloc: Global,
    door: &Door,
    access: Access,
    charge: Arc<Charge, Global>,
) {
    let mut reception = Reception {
        charge,
        access,
        began: Instant::now(rt).ok(),
        visits: VecDeque::new(alloc),
    };
    for _ in rt.forever() {
        match door.next() {
            // One for which there is no thread or no memory is closed.
            Ok(peer) => drop(reception.takes(rt, alloc, peer)),
            Err(_) => thread::sleep(rt, Duration::from_millis(PAUSE)),
        }
    }
}

impl Reception {
    /// Answers a connection, by a thread of its own.
    fn takes<R: Threads + Wait + Clock + Copy + Send + 'static>(
        &mut self,
        rt: &R,
        alloc: Global,
        peer: Peer,
    ) -> io::Result<()> {
        self.makes_room(rt);
        let visit = Arc::new(alloc, Visit::new(peer))?;
        let theirs = Arc::try_clone(&visit)?;
        let charge = Arc::try_clone(&self.charge)?;
        let access = self.access;
        let began = self.began;
        let own = *rt;
        let thread = thread::spawn(rt, move || {
            theirs.answer(&own, alloc, access, &charge, began)
        })?;
        self.visits.push_back(Visiting { visit, thread })?;
        Ok(())
    }

    /// Forgets the connections that are over. Where there are still too many for one more, the oldest is ended.
    fn makes_room<R: Threads>(&mut self, rt: &R) {
        self.visits.retain(|visiting| !visiting.visit.is_over());
        // So clients that say nothing keep nobody waiting (D-190).
        if let Some(oldest) = oldest_for_one_more(&mut self.visits) {
            oldest.visit.end();
            oldest.thread.join(rt);
        }
    }
}

/// Whether one more may be answered while `count` are.
fn has_room(count: usize) -> bool
    ensures { result ≡ nat_lt count AT_ONCE }
{
    count < AT_ONCE
}

/// The oldest of these, the oldest first, taken from them where there is no room for one more.
fn oldest_for_one_more<T>(visits: &mut VecDeque<T>) -> Option<T>
    ensures oldest { visits.old.items ≡ option_to_list result ++ visits.new.items }
    ensures some { nat_lt (deque_len visits.old) AT_ONCE ≡ false → IsSome result }
    ensures none { nat_lt (deque_len visits.old) AT_ONCE ≡ true → result ≡ None }
{
    if has_room(visits.len()) {
        return None;
    }
    visits.pop_front()
}
