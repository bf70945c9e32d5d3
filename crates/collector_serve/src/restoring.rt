//! What an earlier run left is sent to the collector again, by itself.
use crate::charge::Charge;
use crate::serving::port_alone;
use crate::steady_clock::SteadyClock;
use http_lane::{Clock as Moments, HasStopMark};
use otlp_encoding::Encoding;
use request_keeping::{Earlier, LedgerFolder, LedgerNews, LoadedFile};
use std::alloc::{AllocError, Global};
use std::fs::File;
use std::io::{ErrorKind, Read, Write};
use std::net::{Net, TcpListener, TcpStream};
use std::rt::Files;
use std::sync::{Arc, Wait};
use std::thread::{JoinHandle, Threads};
use std::time::{Clock, Duration};
use std::{io, thread};

/// The pause before a request is sent again that was answered 503, in milliseconds.
const PAUSE: u64 = 20;

/// So many threads send, each the requests of its lanes.
const SHARES: u16 = 4;

/// The longest wait for an answer, in seconds.
const PATIENCE: u64 = 30;

/// At most so many reads are made for an answer.
const LONGEST_HEAD: usize = 16_384;

/// Sends what an earlier run left to the collector again. `None`: there was nothing.
#[derive(Drop)]
pub struct Restoring {
    thread: Option<JoinHandle<()>>,
}

impl Restoring {
    /// There is nothing to send.
    pub fn none() -> Self {
        Restoring { thread: None }
    }

    /// Starts the thread, which sends to this address. An error: none is started.
    pub fn start<
        T: Files<File = File>
            + Net<Listener = TcpListener, Stream = TcpStream>
            + Threads
            + Wait
            + Clock
            + Copy
            + Send
            + Sync
            + 'static,
    >(
        rt: &T,
        alloc: Global,
        address: &str,
        folder: Arc<LedgerFolder<T>, Global>,
        earlier: Earlier,
        charge: Arc<Charge, Global>,
    ) -> io::Result<Self>
    where
        T::Dir: Send + 'static,
    {
        let own = *rt;
        let address = own_address(alloc, address)?;
        let sending = Sending {
            alloc,
            address,
            folder,
            earlier: Arc::new(alloc, earlier)?,
            charge,
        };
        let thread = thread::spawn(rt, move || restore(&own, sending))?;
        Ok(Restoring {
            thread: Some(thread),
        })
    }

    /// The run is over: waits until nothing more is sent.
    pub fn end<R: Threads + Wait>(self, rt: &R) {
        let Restoring { thread } = self;
        if let Some(thread) = thread {
            thread.join(rt);
        }
    }
}

/// The address at which the process reaches itself.
fn own_address(alloc: Global, address: &str) -> io::Result<String> {
    let own = match port_alone(address) {
        Some(port) => format!(in alloc; "127.0.0.1:{port}")?,
        None => String::from_str(alloc, address)?,
    };
    Ok(own)
}

/// What is sent, and where.
#[derive(Drop)]
struct Sending<T: Files<File = File>> {
    alloc: Global,
    address: String,
    folder: Arc<LedgerFolder<T>, Global>,
    earlier: Arc<Earlier, Global>,
    charge: Arc<Charge, Global>,
}

impl<T: Files<File = File> + Copy> Sending<T> {
    /// The same, for another thread.
    fn try_clone(&self) -> io::Result<Self> {
        Ok(Sending {
            alloc: self.alloc,
            address: String::from_str(self.alloc, self.address.as_str())?,
            folder: Arc::try_clone(&self.folder)?,
            earlier: Arc::try_clone(&self.earlier)?,
            charge: Arc::try_clone(&self.charge)?,
        })
    }
}

/// What became of the requests that were to be sent.
#[derive(Clone, Copy, PartialEq, Eq)]
enum SendEnd {
    /// All were taken.
    All,
    /// Some were refused, and stay.
    Part,
    /// The collector closes, or can't be reached: the rest waits for the next start.
    Stopped,
}

/// Sends all that an earlier run left, and then removes its files. What isn't taken stays for the next start.
fn restore<
    T: Files<File = File>
        + Net<Listener = TcpListener, Stream = TcpStream>
        + Threads
        + Wait
        + Clock
        + Copy
        + Send
        + Sync
        + 'static,
>(rt: &T, sending: Sending<T>)
where
    T::Dir: Send + 'static,
{
    let Some(ledger) = sending.charge.board.ledger().ledger() else {
        return;
    };
    ledger.cuts(sending.earlier.cut());
    let clock = SteadyClock::new(rt);
    let began = clock.now();
    let end = send_all(rt, &sending);
    ledger.takes(clock.now().saturating_sub(began));
    match end {
        SendEnd::All => {
            for number in sending.earlier.files() {
                let _ = sending.folder.remove(*number);
            }
            ledger.leaves_earlier(false);
            ledger.has_restored();
        }
        SendEnd::Part => ledger.has_restored(),
        SendEnd::Stopped => {}
    }
}

/// Sends what all runs left, the latest first: so what a run had taken again of another comes before what it hadn't. Where
/// one run is left some threads send, each the requests of its lanes: a connection's all lie in one lane. Where more are,
/// one sends all, so that what it sends lies in one lane again.
fn send_all<
    T: Files<File = File>
        + Net<Listener = TcpListener, Stream = TcpStream>
        + Threads
        + Wait
        + Clock
        + Copy
        + Send
        + Sync
        + 'static,
>(rt: &T, sending: &Sending<T>) -> SendEnd
where
    T::Dir: Send + 'static,
{
    match sending.earlier.runs() {
        Ok(runs) if runs.len() > 1 => end_of(send_share(rt, sending, None)),
        Ok(_) => send_shares(rt, sending),
        Err(_) => SendEnd::Stopped,
    }
}

/// Sends what was left by some threads, each its share.
fn send_shares<
    T: Files<File = File>
        + Net<Listener = TcpListener, Stream = TcpStream>
        + Threads
        + Wait
        + Clock
        + Copy
        + Send
        + Sync
        + 'static,
>(rt: &T, sending: &Sending<T>) -> SendEnd
where
    T::Dir: Send + 'static,
{
    let mut threads = Vec::new(sending.alloc);
    let mut end = SendEnd::All;
    for share in 0..SHARES {
        match share_thread(rt, sending, share) {
            Ok(thread) => {
                if threads.push(thread).is_err() {
                    end = SendEnd::Stopped;
                }
            }
            Err(_) => end = SendEnd::Stopped,
        }
    }
    for thread in threads {
        end = worse(end, thread.join(rt));
    }
    end
}

/// A thread that sends this share.
fn share_thread<
    T: Files<File = File>
        + Net<Listener = TcpListener, Stream = TcpStream>
        + Threads
        + Wait
        + Clock
        + Copy
        + Send
        + Sync
        + 'static,
>(rt: &T, sending: &Sending<T>, share: u16) -> io::Result<JoinHandle<SendEnd>>
where
    T::Dir: Send + 'static,
{
    let own = *rt;
    let sending = sending.try_clone()?;
    let thread = thread::spawn(rt, move || end_of(send_share(&own, &sending, Some(share))))?;
    Ok(thread)
}

/// What became of a share: whether all of it was taken, or an error, where the rest wasn't sent.
fn end_of(sent: io::Result<bool>) -> SendEnd {
    match sent {
        Ok(true) => SendEnd::All,
        Ok(false) => SendEnd::Part,
        Err(_) => SendEnd::Stopped,
    }
}

/// What became of two parts of the requests.
fn worse(one: SendEnd, other: SendEnd) -> SendEnd {
    match (one, other) {
        (SendEnd::All, end) | (end, SendEnd::All) => end,
        (SendEnd::Part, end) | (end, SendEnd::Part) => end,
        (SendEnd::Stopped, SendEnd::Stopped) => SendEnd::Stopped,
    }
}

/// Whether the requests of a lane are in this share, or in that of all.
fn is_of(lane: u16, share: Option<u16>) -> bool {
    match share {
        Some(share) => lane % SHARES == share,
        None => true,
    }
}

/// Sends each request of a share, or all, and answers whether all of them were taken. Those of one connection are in one
/// share, in their order. An error: the rest wasn't sent.
fn send_share<
    T: Files<File = File> + Net<Listener = TcpListener, Stream = TcpStream> + Wait + Clock + Copy,
>(rt: &T, sending: &Sending<T>, share: Option<u16>) -> io::Result<bool> {
    let Some(ledger) = sending.charge.board.ledger().ledger() else {
        return Ok(true);
    };
    let mut taken_all = true;
    let mut loaded = LoadedFile::none();
    let mut stream = None;
    for (at, request) in sending.earlier.requests().iter().enumerate() {
        let (segment, lane, place) = request.at();
        if !is_of(lane, share) {
            continue;
        }
        let bodies = sending.earlier.bodies_of(&sending.folder, &mut loaded, at)?;
        if send_bodies(rt, sending, &mut stream, bodies)? {
            ledger.tell(
                rt,
                LedgerNews::Again {
                    segment,
                    lane,
                    place,
                },
            );
            ledger.restores(request.spans());
            ledger.hands_again(request.handed_again());
        } else {
            ledger.refuses();
            taken_all = false;
        }
    }
    Ok(taken_all)
}

/// Sends the bodies of one request, over a connection that is made with the first of all, and answers whether they were
/// taken.
fn send_bodies<
    T: Files<File = File> + Net<Listener = TcpListener, Stream = TcpStream> + Wait + Clock + Copy,
>(
    rt: &T,
    sending: &Sending<T>,
    stream: &mut Option<TcpStream>,
    bodies: Vec<(Encoding, Vec<u8>)>,
) -> io::Result<bool> {
    let mut is_taken = true;
    for (encoding, body) in bodies {
        if stream.is_none() {
            *stream = Some(connected(rt, sending.address.as_str())?);
        }
        let Some(to) = stream else {
            return Ok(false);
        };
        if !send(rt, sending.alloc, to, &sending.charge, encoding, &body)? {
            is_taken = false;
            // Such an answer may end the connection.
            *stream = None;
        }
    }
    Ok(is_taken)
}

/// A connection to the collector itself.
fn connected<T: Net<Listener = TcpListener, Stream = TcpStream>>(
    rt: &T,
    address: &str,
) -> io::Result<TcpStream> {
    let stream = TcpStream::connect(rt, address)?;
    stream.set_read_timeout(Some(Duration::from_secs(PATIENCE)))?;
    Ok(stream)
}

/// Sends a body until it is taken or refused for good, and answers whether it was taken. An error: the collector closes, or
/// doesn't answer.
fn send<S: Read + Write, R: Wait + Clock>(
    rt: &R,
    alloc: Global,
    stream: &mut S,
    charge: &Charge,
    encoding: Encoding,
    body: &[u8],
) -> io::Result<bool> {
    let text = request_text(alloc, encoding, body)?;
    for _ in 0..u64::MAX {
        if charge.stop.is_set() {
            return Err(io::Error::from(ErrorKind::ConnectionAborted));
        }
        stream.write_all(&text)?;
        match answered(alloc, stream)? {
            200 => return Ok(true),
            // Memory is short, or there is no room: what waits goes first.
            503 => thread::sleep(rt, Duration::from_millis(PAUSE)),
            _ => return Ok(false),
        }
    }
    Ok(false)
}

/// The request with this body.
fn request_text(alloc: Global, encoding: Encoding, body: &[u8]) -> Result<Vec<u8>, AllocError> {
    let kind = match encoding {
        Encoding::Json => "application/json",
        Encoding::Protobuf => "application/x-protobuf",
    };
    let len = body.len();
    let head = format!(in alloc;
        "POST /v1/traces HTTP/1.1\r\nHost: tsc\r\nContent-Type: {kind}\r\nContent-Length: {len}\r\n\r\n"
    )?;
    let mut text = Vec::with_capacity(alloc, head.len().saturating_add(len))?;
    text.extend_from_slice(head.as_bytes())?;
    text.extend_from_slice(body)?;
    Ok(text)
}

/// The status of the next answer, which is read whole (RFC 9112, sections 4 and 6.2). An error: there is none.
fn answered<S: Read>(alloc: Global, stream: &mut S) -> io::Result<u16> {
    let mut bytes = Vec::new(alloc);
    let mut piece = [0; 1024];
    for _ in 0..LONGEST_HEAD {
        let count = stream.read(&mut piece)?;
        if count == 0 {
            break;
        }
        bytes.extend_from_slice(piece.get(..count).unwrap_or(b""))?;
        if let Some((status, len)) = answer_in(&bytes) {
            if bytes.len() >= len {
                return Ok(status);
            }
        }
    }
    Err(io::Error::from(ErrorKind::UnexpectedEof))
}

/// The status of an answer, and how long it is, if its head is there.
fn answer_in(bytes: &[u8]) -> Option<(u16, usize)> {
    let text = str::from_utf8(bytes).ok()?;
    let (head, _) = text.split_once("\r\n\r\n")?;
    let status = head.get(9..12)?.parse().ok()?;
    let (_, behind) = head.split_once("Content-Length: ")?;
    let len: usize = match behind.split_once("\r\n") {
        Some((len, _)) => len.parse().ok()?,
        None => behind.parse().ok()?,
    };
    let len = head.len().saturating_add(4).saturating_add(len);
    Some((status, len))
}
