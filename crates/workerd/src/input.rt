ghost use Rattle.std.specs.Prelude.{◌≡◌, true, false};

use mio::unix::SourceFd;
use mio::{Interest, Poll, Token};
use std::io::{ErrorKind, Input, Read};
use std::os::fd::RawFd;

/// The descriptor of standard input.
const STANDARD_INPUT: RawFd = 0;

/// The token of standard input, which no link has, since their numbers begin at 1.
pub const INPUT: Token = Token(0);

/// Standard input, whose end asks for the end of serving. A terminal and a pipe are watched, so
/// that Ctrl-D, or a supervisor that closes its pipe, ends the server in order. A file and the
/// null device cannot be watched, and end nothing.
#[derive(Clone, Copy, Debug, PartialEq, Eq)]
pub struct InputEnd {
    /// It has come to its end.
    pub seen: bool,
}

impl InputEnd {
    /// Begins to watch it under `INPUT`, where it can be watched. Its end was not seen.
    pub fn watch(poll: &Poll) -> InputEnd
        ensures { result.seen ≡ false }
    {
        let _ = poll
            .registry()
            .register(&mut SourceFd(&STANDARD_INPUT), INPUT, Interest::READABLE);
        InputEnd { seen: false }
    }

    /// Reads once what a poll reported, for nobody, and notes the end.
    pub fn read(&mut self, rt: &impl Input, poll: &Poll)
        ensures stays { self.old.seen ≡ true → self.new.seen ≡ true }
    {
        let mut buf = [0u8; 512];
        match rt.reader().read(&mut buf) {
            Ok(0) => {
                self.seen = true;
                let _ = poll.registry().deregister(&mut SourceFd(&STANDARD_INPUT));
            }
            Ok(_) => watch_on(poll),
            Err(error) => match error.kind() {
                ErrorKind::WouldBlock | ErrorKind::Interrupted => watch_on(poll),
                _ => {}
            },
        }
    }
}

/// Asks for further news, also where bytes are left already.
fn watch_on(poll: &Poll) {
    let _ = poll
        .registry()
        .reregister(&mut SourceFd(&STANDARD_INPUT), INPUT, Interest::READABLE);
}
