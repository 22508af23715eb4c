ghost use Rattle.std.specs.Prelude.{◌≡◌, ◌<◌, ◌≤◌, Some, true, false, length, IfSome, IsNone};
ghost use Rattle.wd_ports.specs.Links.{IsCount};
ghost use Rattle.wd_ports.specs.declared.told.Got.TheVariants as got;

use mio::event::Event;
use mio::net::TcpStream;
use mio::{Events, Interest, Poll, Token};
use std::io::{ErrorKind, Read, Write};
use std::net::Shutdown;
use std::time::Duration;
use wd_ports::Got;

/// How often a socket that is not ready is tried before a write fails.
const TRIES: u32 = 600;

/// The most milliseconds between two tries.
const PAUSE: u64 = 50;

/// How many reads of what nobody wants come before a socket is closed.
const LAST_READS: u32 = 16;

/// A connection, and what is known of it without a call of the system.
#[derive(Drop)]
pub struct Link {
    stream: TcpStream,
    /// A read may give something.
    ready: bool,
    /// The peer has closed its sending side.
    half_closed: bool,
    /// A read has given the end.
    ended: bool,
    /// The peer takes no more, or a read or a write had a fault.
    gone: bool,
    /// Bytes have come since the last write, so a request may be on its way.
    asked: bool,
}

impl Link {
    /// A connection of which nothing is known yet.
    pub fn new(stream: TcpStream) -> Link {
        Link {
            stream,
            ready: false,
            half_closed: false,
            ended: false,
            gone: false,
            asked: false,
        }
    }

    /// Notes the news of a poll.
    pub fn note(&mut self, event: &Event)
        ensures stays { self.old.gone ≡ true → self.new.gone ≡ true }
    {
        self.ready = true;
        if event.is_read_closed() || event.is_error() {
            self.half_closed = true;
        }
        if event.is_write_closed() || event.is_error() {
            self.gone = true;
        }
    }

    /// Nothing can be sent to the peer any more.
    pub fn is_gone(&self) -> bool
        ensures { result ≡ self.now.gone }
    {
        self.gone
    }

    /// Nothing is in flight: no byte has come since the last write.
    pub fn is_quiet(&self) -> bool {
        !self.asked
    }

    /// Reads what has come; None is an error, and the link is then gone. A link without news is
    /// not asked.
    pub fn read(&mut self, buf: &mut [u8]) -> Option<Got>
        requires { 0 < length buf.old }
        ensures count { IfSome result (λ got. IsCount got (length buf.new)) }
        ensures quiet { self.old.ready ≡ false → result ≡ Some got.Later }
        ensures lost { IsNone result → self.new.gone ≡ true }
        ensures stays { self.old.gone ≡ true → self.new.gone ≡ true }
    {
        if !self.ready {
            return Some(Got::Later);
        }
        match self.stream.read(buf) {
            Ok(0) => {
                self.ended = true;
                Some(Got::End)
            }
            Ok(count) => {
                // A short read has emptied the socket, and what comes later is news again. The end
                // is no news once it has been reported.
                self.ready = count == buf.len() || self.half_closed;
                self.asked = true;
                Some(Got::Bytes(count))
            }
            Err(error) => match error.kind() {
                ErrorKind::WouldBlock => {
                    self.ready = false;
                    Some(Got::Later)
                }
                ErrorKind::Interrupted => Some(Got::Later),
                _ => {
                    self.gone = true;
                    None
                }
            },
        }
    }

    /// Sends bytes from the front of a piece; None is an error, and the link is then gone. A
    /// socket that is not ready is tried 600 times, at most 50 milliseconds apart.
    pub fn write(&mut self, patience: &mut Patience, bytes: &[u8]) -> Option<usize>
        ensures count { IfSome result (λ k. (0 < k) × (k ≤ length bytes.now)) }
        ensures lost { IsNone result → self.new.gone ≡ true }
        ensures stays { self.old.gone ≡ true → self.new.gone ≡ true }
    {
        let sent = send(&mut self.stream, patience, bytes);
        self.asked = false;
        if sent.is_none() {
            self.gone = true;
        }
        sent
    }

    /// Closes the connection. What the peer still sends is read first, since a close with bytes
    /// unread takes back replies that the peer has not read (RFC 9112, section 9.6).
    pub fn close(self) {
        let mut stream = self.stream;
        if !self.ended && !self.gone && stream.shutdown(Shutdown::Write).is_ok() {
            discard(&mut stream);
        }
    }
}

/// Sends bytes from the front of a piece, at least one; None is an error, or a socket that was not
/// ready at any try.
fn send(stream: &mut TcpStream, patience: &mut Patience, bytes: &[u8]) -> Option<usize>
    ensures count { IfSome result (λ k. (0 < k) × (k ≤ length bytes.now)) }
{
    for _ in 0..TRIES {
        match stream.write(bytes) {
            Ok(0) => break,
            Ok(count) => return Some(count),
            Err(error) => match error.kind() {
                ErrorKind::WouldBlock => patience.wait_to_write(stream),
                ErrorKind::Interrupted => {}
                _ => break,
            },
        }
    }
    None
}

/// Reads what has come, for nobody.
fn discard(stream: &mut TcpStream) {
    let mut buf = [0u8; 4096];
    for _ in 0..LAST_READS {
        match stream.read(&mut buf) {
            Ok(0) | Err(_) => break,
            Ok(_) => {}
        }
    }
}

/// Waits for one socket to take bytes.
#[derive(Drop)]
pub struct Patience {
    pub poll: Poll,
    pub events: Events,
}

impl Patience {
    /// Returns when the socket takes bytes, and after 50 milliseconds at the latest.
    fn wait_to_write(&mut self, stream: &mut TcpStream) {
        let _ = self
            .poll
            .registry()
            .register(stream, Token(0), Interest::WRITABLE);
        let _ = self
            .poll
            .poll(&mut self.events, Some(Duration::from_millis(PAUSE)));
        let _ = self.poll.registry().deregister(stream);
    }
}
