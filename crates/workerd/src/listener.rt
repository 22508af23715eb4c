ghost use Rattle.std.specs.Prelude.{◌≡◌, false, IsNone};

use mio::net::{TcpListener, TcpStream};
use std::io::ErrorKind;

/// A listening socket, and whether a connection may wait at it.
#[derive(Drop)]
pub struct Listener {
    pub socket: TcpListener,
    pub ready: bool,
}

impl Listener {
    /// A connection that waits, if one does. A socket without news is not asked.
    pub fn take(&mut self) -> Option<TcpStream>
        ensures quiet { self.old.ready ≡ false → IsNone result }
    {
        if !self.ready {
            return None;
        }
        match self.socket.accept() {
            Ok((stream, _)) => Some(stream),
            Err(error) => {
                self.ready = error.kind() != ErrorKind::WouldBlock;
                None
            }
        }
    }
}
