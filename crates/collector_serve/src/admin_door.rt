//! An address at which those in charge ask, and the connections there.
ghost use Rattle.std.specs.Prelude.{◌≡◌, ◌∷◌, [], map};
ghost use Rattle.std.specs.Io.{ReadsAtMost, WritesAtMost};

use crate::serving::listen;
use std::alloc::Global;
use std::fs::Permissions;
use std::io::{Read, Write};
use std::net::{Net, Shutdown, TcpListener, TcpStream};
use std::os::unix::fs::PermissionsExt;
use std::os::unix::net::{UnixListener, UnixStream};
use std::rt::Files;
use std::time::Duration;
use std::{fs, io};

/// The beginning of an address that is the path of a socket's file.
const UNIX: &str = "unix:";

/// Who may use a socket's file: its owner.
const OWNER: u32 = 0o600;

/// The longest wait of a read for one who asks, in milliseconds.
const READ_TIMEOUT: u64 = 100;

/// The longest wait of a write for one who asks, in milliseconds.
const WRITE_TIMEOUT: u64 = 1_000;

/// What takes connections.
#[derive(Drop)]
pub enum Door {
    /// At a port.
    Port(TcpListener),
    /// At a socket's file.
    Path(UnixListener),
}

/// A connection. Threads share it.
#[derive(Drop)]
pub enum Peer {
    /// Of a port.
    OfPort(TcpStream),
    /// Of a socket's file.
    OfPath(UnixStream),
}

impl Door {
    /// A door at this address: `address:port`, `:port` for every address of the machine, or `unix:` and a path.
    pub fn at<R: Net<Listener = TcpListener, Stream = TcpStream> + Files>(
        rt: &R,
        alloc: Global,
        address: &str,
    ) -> io::Result<Self> {
        match socket_path(address) {
            Some(path) => Ok(Door::Path(bind_socket(rt, alloc, path)?)),
            None => {
                let listener = listen(rt, alloc, address)?;
                listener.set_nonblocking(false)?;
                Ok(Door::Port(listener))
            }
        }
    }

    /// The next connection, whose reads and writes wait no longer than these limits.
    pub fn next(&self) -> io::Result<Peer> {
        let read_limit = Some(Duration::from_millis(READ_TIMEOUT));
        let write_limit = Some(Duration::from_millis(WRITE_TIMEOUT));
        match self {
            Door::Port(listener) => {
                let (stream, _) = listener.accept()?;
                stream.set_read_timeout(read_limit)?;
                stream.set_write_timeout(write_limit)?;
                Ok(Peer::OfPort(stream))
            }
            Door::Path(listener) => {
                let (stream, _) = listener.accept()?;
                stream.set_read_timeout(read_limit)?;
                stream.set_write_timeout(write_limit)?;
                Ok(Peer::OfPath(stream))
            }
        }
    }
}

impl Peer {
    /// Reads, as `Read` says.
    pub fn read(&self, piece: &mut [u8]) -> io::Result<usize>
        ensures { ReadsAtMost result piece.new }
    {
        match self {
            Peer::OfPort(stream) => {
                let mut reader = stream;
                reader.read(piece)
            }
            Peer::OfPath(stream) => {
                let mut reader = stream;
                reader.read(piece)
            }
        }
    }

    /// Writes, as `Write` says.
    pub fn write(&self, bytes: &[u8]) -> io::Result<usize>
        ensures { WritesAtMost result bytes.now }
    {
        match self {
            Peer::OfPort(stream) => {
                let mut writer = stream;
                writer.write(bytes)
            }
            Peer::OfPath(stream) => {
                let mut writer = stream;
                writer.write(bytes)
            }
        }
    }

    /// Ends it in this direction; reads and writes there that wait end too.
    pub fn shut(&self, how: Shutdown) {
        // Where that fails it has ended.
        let _ = match self {
            Peer::OfPort(stream) => stream.shutdown(how),
            Peer::OfPath(stream) => stream.shutdown(how),
        };
    }
}

/// The path in an address that is the path of a socket's file.
pub fn socket_path(address: &str) -> Option<&str> {
    address.strip_prefix(UNIX)
}

/// Listens at a socket's file that only its owner may use. It takes the place of one that is left of a collector which
/// has ended; one at which there is still somebody is left alone.
fn bind_socket<R: Net + Files>(rt: &R, alloc: Global, path: &str) -> io::Result<UnixListener> {
    // A socket's file at which somebody answers isn't replaced (D-194).
    if UnixStream::connect(rt, path).is_ok() {
        return Err(io::ErrorKind::AddrInUse.into());
    }
    let mut new = String::new(alloc);
    new.push_str(path)?;
    new.push_str(".new")?;
    let _ = fs::remove_file(rt, new.as_str());
    let listener = UnixListener::bind(rt, new.as_str())?;
    // Before it gets its name, so that it is never open to others (D-194).
    fs::set_permissions(rt, new.as_str(), Permissions::from_mode(OWNER))?;
    fs::rename(rt, new.as_str(), path)?;
    Ok(listener)
}

/// Removes the socket's file, if the address is one. Where that fails it stays.
pub fn end_admin<R: Files>(rt: &R, address: &str) {
    if let Some(path) = socket_path(address) {
        let _ = fs::remove_file(rt, path);
    }
}

/// The addresses at which a collector may have a socket's file: that of those in charge, and that of numbers alone.
pub fn both_addresses<'a>(admin: &'a str, metrics: &'a str) -> [&'a str; 2]
    ensures { map (λ a. a.now) result ≡ admin.now ∷ metrics.now ∷ [] }
{
    [admin, metrics]
}
