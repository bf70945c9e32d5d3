//! The thread that answers clients who connect as the collector closes.
use crate::charge::Charge;
use crate::late_looks::{Came, MOST_LOOKS, late_look};
use collector_board::Closer;
use http_answer::stopping_text;
use http_lane::HasStopMark;
use lane_driver::Traffic;
use std::alloc::Global;
use std::io::{ErrorKind, Read, Write};
use std::net::{Shutdown, TcpListener, TcpStream};
use std::sync::{Arc, Wait};
use std::thread::{JoinHandle, Threads};
use std::time::{Clock, Duration};
use std::{io, thread};

/// The time between two looks whether the collector closes, in milliseconds.
const PAUSE: u64 = 100;

/// The time between two looks at those who connected once it does, in milliseconds.
const CLOSING_PAUSE: u64 = 20;

/// The most pieces of 4,096 bytes that are read from a client at a look, and the most clients that are taken at one.
const MOST_AT_ONCE: u32 = 256;

/// A client who connected as the collector closes.
#[derive(Drop)]
struct LateClient {
    stream: TcpStream,
    looks: u32,
    is_answered: bool,
}

impl LateClient {
    /// Reads what is there, answers once something came or enough looks were made, and says whether the client is
    /// looked at again: what it still sends is read, so that the answer isn't taken back.
    fn look(&mut self, text: &[u8], traffic: &Traffic) -> bool {
        self.looks = self.looks.saturating_add(1);
        let came = self.read_all(traffic);
        let look = late_look(self.looks, came, self.is_answered);
        if look.answers {
            self.is_answered = true;
            if self.stream.write_all(text).is_err() {
                return false;
            }
            traffic.went(text.len());
            traffic.answers.add(503);
            if self.stream.shutdown(Shutdown::Write).is_err() {
                return false;
            }
        }
        look.goes_on
    }

    /// Reads what is there.
    fn read_all(&mut self, traffic: &Traffic) -> Came {
        let mut piece = [0; 4096];
        let mut came = Came::Nothing;
        for _ in 0..MOST_AT_ONCE {
            match self.stream.read(&mut piece) {
                Ok(0) => return Came::End,
                Ok(len) => {
                    traffic.came(len);
                    came = Came::Bytes;
                }
                Err(error) if error.kind() == ErrorKind::WouldBlock => return came,
                Err(error) if error.kind() == ErrorKind::Interrupted => {}
                Err(_) => return Came::End,
            }
        }
        came
    }
}

/// Answers 503 to clients who connect from the mark to stop on, beside the lanes, until the run is over and nobody
/// waits. `None`: there was no thread for it.
#[derive(Drop)]
pub struct ClosingDoor {
    thread: Option<JoinHandle<()>>,
}

impl ClosingDoor {
    /// Stands at the listener of requests, which doesn't block.
    pub fn start<R: Threads + Wait + Clock + Copy + Send + 'static>(
        rt: &R,
        alloc: Global,
        listener: &TcpListener,
        charge: Arc<Charge, Global>,
    ) -> io::Result<Self> {
        // The lanes' listener, from which they take nobody any more while traces are decided and sent (D-177).
        let listener = listener.try_clone()?;
        let own = *rt;
        let thread = thread::spawn(rt, move || stand(&own, alloc, &listener, &charge))?;
        Ok(ClosingDoor {
            thread: Some(thread),
        })
    }

    /// The run is over: waits until those who connected are answered, for a second or two at most.
    pub fn end<R: Threads + Wait>(self, rt: &R, charge: &Charge) {
        charge.over.set_by(Closer::Run);
        let ClosingDoor { thread } = self;
        if let Some(thread) = thread {
            thread.join(rt);
        }
    }
}

/// Looks again and again, until the run is over.
fn stand<R: Wait + Clock>(rt: &R, alloc: Global, listener: &TcpListener, charge: &Charge) {
    // Made at the start, since later there may be no memory for it.
    let Ok(text) = stopping_text(alloc) else {
        return;
    };
    let mut clients = Vec::new(alloc);
    let mut last_looks: u32 = 0;
    for _ in rt.forever() {
        // Asked before clients are taken, so that those who came before the end are answered.
        let is_over = charge.over.is_set();
        if !is_over && !charge.stop.is_set() {
            thread::sleep(rt, Duration::from_millis(PAUSE));
            continue;
        }
        let have_come = take_all(listener, &mut clients);
        look_at_all(&mut clients, text.as_slice(), &charge.loads.traffic);
        if is_over {
            last_looks = last_looks.saturating_add(1);
            if last_looks > MOST_LOOKS || clients.is_empty() && !have_come {
                return;
            }
        }
        thread::sleep(rt, Duration::from_millis(CLOSING_PAUSE));
    }
}

/// Takes all who wait, and says whether somebody did.
fn take_all(listener: &TcpListener, clients: &mut Vec<LateClient>) -> bool {
    let mut have_come = false;
    for _ in 0..MOST_AT_ONCE {
        let Ok((stream, _)) = listener.accept() else {
            return have_come;
        };
        have_come = true;
        if stream.set_nonblocking(true).is_ok() {
            // One for whom there is no memory is let go.
            let _ = clients.push(LateClient {
                stream,
                looks: 0,
                is_answered: false,
            });
        }
    }
    have_come
}

/// Looks at each, and lets those go who are done.
fn look_at_all(clients: &mut Vec<LateClient>, text: &[u8], traffic: &Traffic) {
    let mut at: usize = 0;
    for _ in 0..clients.len() {
        let Some(client) = clients.get_mut(at) else {
            return;
        };
        if client.look(text, traffic) {
            at = at.saturating_add(1);
        } else if at < clients.len() {
            let _ = clients.swap_remove(at);
        }
    }
}
