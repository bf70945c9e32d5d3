//! Asks a running collector to close.
ghost use Rattle.std.specs.Prelude.{◌≡◌};
ghost use Rattle.std.specs.Duration.{as_nanos};
ghost use Rattle.collector_main.specs.Closing.{FileCloses};
ghost use Rattle.collector_commands.specs.Configuration.{file_of};

use collector_commands::{FileFault, Outcome, config_of};
use collector_serve::{port_alone, socket_path};
use std::alloc::Global;
use std::io;
use std::io::{Read, Write};
use std::net::{Net, TcpListener, TcpStream};
use std::os::unix::net::UnixStream;
use std::time::Duration;
use tsc_config::Config;

/// The request that closes a collector.
const CLOSE: &[u8] =
    b"POST /close HTTP/1.1\r\nHost: tsc\r\nContent-Length: 0\r\nConnection: close\r\n\r\n";

/// The beginning of an answer to it, where the collector closes (RFC 9112, section 4).
const CLOSES: &[u8] = b"HTTP/1.1 200";

/// The longest wait for an answer: a minute.
fn patience() -> Duration
    ensures { as_nanos result ≡ 60_000_000_000 }
{
    Duration::from_secs(60)
}

/// Asks the collector that runs by the configuration in what was read from its file to close.
pub fn close_by<T: Net<Listener = TcpListener, Stream = TcpStream>>(
    rt: &T,
    alloc: Global,
    file: Result<Vec<u8>, FileFault>,
) -> Outcome
    ensures { FileCloses (file_of (λ v. v.items) file) result }
{
    match config_of(alloc, file) {
        Ok(config) => match is_closing(rt, alloc, &config) {
            Ok(true) => Outcome::Closed,
            _ => Outcome::CannotClose,
        },
        Err(outcome) => outcome,
    }
}

/// Asks at the address for those in charge, or where there is none at that of requests, and answers whether it was said
/// that the collector closes. An `Err`: there is nobody, or no answer within a minute.
fn is_closing<T: Net<Listener = TcpListener, Stream = TcpStream>>(
    rt: &T,
    alloc: Global,
    config: &Config,
) -> io::Result<bool> {
    // With an `admin` address the other one answers 404 (D-245).
    let mut address = config.admin.as_str();
    if address.is_empty() {
        address = config.listen.as_str();
    }
    let limit = Some(patience());
    // Where it listens at every address of the machine, this is one of them.
    let own = match port_alone(address) {
        Some(port) => format!(in alloc; "127.0.0.1:{port}")?,
        None => String::from_str(alloc, address)?,
    };
    match socket_path(address) {
        Some(path) => {
            let stream = UnixStream::connect(rt, path)?;
            stream.set_read_timeout(limit)?;
            answers_close(stream)
        }
        None => {
            let stream = TcpStream::connect(rt, own.as_str())?;
            stream.set_read_timeout(limit)?;
            answers_close(stream)
        }
    }
}

/// Asks on this connection, and answers whether it was said that the collector closes.
fn answers_close<S: Read + Write + Drop>(stream: S) -> io::Result<bool> {
    let mut stream = stream;
    stream.write_all(CLOSE)?;
    let mut start = [0u8; 12];
    stream.read_exact(&mut start)?;
    Ok(start.as_slice() == CLOSES)
}
