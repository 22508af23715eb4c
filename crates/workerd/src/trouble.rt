ghost use Rattle.std.specs.Prelude.{◌≡◌, ◌≤◌, ◌↔◌, IsTrue};
ghost use Rattle.wd_ports.specs.Faults.{Rose};
ghost use Rattle.workerd.specs.Trouble.{IsNoFile, IsNoFolder};

use std::alloc::AllocError;
use std::io;
use std::io::ErrorKind;
use thiserror::Error;
use wd_base::NoMemory;
use wd_ports::Failed;

/// Why a call of the system did not give what was asked for.
#[derive(Debug, Drop, Error)]
pub enum Trouble {
    #[error("want of memory")]
    NoMemory,
    #[error("{0}")]
    System(io::Error),
    #[error("the file is too long")]
    TooLong,
    #[error("no such address")]
    NoAddress,
    #[error("nothing was taken")]
    NothingTaken,
}

impl From<io::Error> for Trouble {
    fn from(error: io::Error) -> Trouble {
        if error.kind() == ErrorKind::OutOfMemory {
            Trouble::NoMemory
        } else {
            Trouble::System(error)
        }
    }
}

impl From<NoMemory> for Trouble {
    fn from(_error: NoMemory) -> Trouble {
        Trouble::NoMemory
    }
}

impl From<AllocError> for Trouble {
    fn from(_error: AllocError) -> Trouble {
        Trouble::NoMemory
    }
}

/// Raises a count, unless the trouble is want of memory, and gives the answer for the caller.
pub fn blame(count: &mut u64, trouble: Trouble) -> Failed
    ensures later { count.old ≤ count.new }
    ensures fault { result ≡ Failed.Fault → Rose count.old count.new }
    ensures memory { result ≡ Failed.NoMemory → count.new ≡ count.old }
{
    match trouble {
        Trouble::NoMemory => Failed::NoMemory,
        _ => {
            *count = count.saturating_add(1);
            Failed::Fault
        }
    }
}

/// The error says that no file has the path.
pub fn is_no_file(kind: ErrorKind) -> bool
    ensures { IsTrue result ↔ IsNoFile kind }
{
    matches!(
        kind,
        ErrorKind::NotFound | ErrorKind::NotADirectory | ErrorKind::IsADirectory
    )
}

/// The error says that no folder has the path.
pub fn is_no_folder(kind: ErrorKind) -> bool
    ensures { IsTrue result ↔ IsNoFolder kind }
{
    matches!(kind, ErrorKind::NotFound | ErrorKind::NotADirectory)
}
