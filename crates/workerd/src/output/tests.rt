use super::StandardOutput;
use std::cell::Cell;
use std::fmt::Display;
use std::io;
use std::io::{ErrorKind, Print};
use std::test::Fail;
use wd_ports::{Failed, Sink, print};

/// Takes two bytes a call, and after some calls none.
#[derive(Drop)]
struct Pipe<'a> {
    calls: &'a Cell<u32>,
}

impl Print for Pipe<'_> {
    fn print<D: Display + Drop>(&self, _value: D) -> io::Result<()> {
        Ok(())
    }

    fn println<D: Display + Drop>(&self, _value: D) -> io::Result<()> {
        Ok(())
    }

    fn write_all(&self, _bytes: &[u8]) -> io::Result<()> {
        Ok(())
    }

    fn write_some(&self, bytes: &[u8]) -> io::Result<usize> {
        let call = self.calls.get();
        self.calls.set(call.wrapping_add(1));
        match call {
            0 => Err(io::Error::from(ErrorKind::Interrupted)),
            1 | 2 => Ok(bytes.len().min(2)),
            _ => Err(io::Error::from(ErrorKind::BrokenPipe)),
        }
    }
}

#[test]
fn a_pipe_that_breaks(rt: HostRuntime) -> Result<(), Fail> {
    let calls = Cell::new(0);
    let mut output = StandardOutput::new(Pipe { calls: &calls });
    assert_eq!(rt; output.write(b"abc"), Ok(2));
    assert_eq!(rt; output.faults, 0);
    assert_eq!(rt; print(&mut output, b"abc"), Err(Failed::Fault));
    assert_eq!(rt; (calls.get(), output.faults), (4, 1));
    Ok(())
}

#[test]
fn standard_output(rt: HostRuntime) -> Result<(), Fail> {
    let mut output = StandardOutput::new(rt);
    print(&mut output, b"printed by a test\n")?;
    assert_eq!(rt; output.faults, 0);
    Ok(())
}
