//! How often a call that failed for now is made again, and with which pauses.

use super::{nothing_read, refill, write_whole};
use std::cell::Cell;
use std::io::{self, Error, ErrorKind, Read, Write};
use std::time::{Clock, Duration};

// Counts the pauses of ten milliseconds, and makes none.
#[derive(Drop)]
struct Pauses(Cell<u32>);

impl Clock for Pauses {
    fn monotonic(&self) -> io::Result<Duration> {
        Ok(Duration::ZERO)
    }

    fn since_1970(&self) -> io::Result<Duration> {
        Ok(Duration::ZERO)
    }

    fn sleep(&self, duration: Duration) {
        if duration == Duration::from_millis(10) {
            self.0.set(self.0.get().wrapping_add(1));
        }
    }
}

// A stream that fails so many times, and then takes or gives one byte at most.
#[derive(Drop)]
struct Late {
    failures: u32,
    with: ErrorKind,
}

impl Late {
    fn fail(&mut self) -> io::Result<()> {
        if self.failures == 0 {
            return Ok(());
        }
        self.failures -= 1;
        Err(Error::from(self.with))
    }
}

impl Read for Late {
    fn read(&mut self, buf: &mut [u8]) -> io::Result<usize> {
        self.fail()?;
        Ok(buf.len().min(1))
    }
}

impl Write for Late {
    fn write(&mut self, buf: &[u8]) -> io::Result<usize> {
        self.fail()?;
        Ok(buf.len().min(1))
    }

    fn flush(&mut self) -> io::Result<()> {
        Ok(())
    }
}

fn failing(failures: u32, with: ErrorKind) -> Late {
    Late { failures, with }
}

// How a refill ends that meets so many failures, and how often it pauses.
fn read_after(failures: u32, with: ErrorKind) -> (Option<ErrorKind>, u32) {
    let pauses = Pauses(Cell::new(0));
    let mut bytes = [0u8; 8];
    let read = refill(
        &pauses,
        &mut failing(failures, with),
        &mut bytes,
        nothing_read(),
    );
    (read.err().map(|e| e.kind()), pauses.0.get())
}

// The same of five bytes written.
fn written_after(failures: u32, with: ErrorKind) -> (Option<ErrorKind>, u32) {
    let pauses = Pauses(Cell::new(0));
    let written = write_whole(&pauses, &mut failing(failures, with), b"sheet");
    (written.err().map(|e| e.kind()), pauses.0.get())
}

#[test]
fn a_call_that_failed_for_now_is_made_again(rt: HostRuntime) {
    for with in [ErrorKind::Interrupted, ErrorKind::WouldBlock] {
        for failures in [0, 1, 999, 1000] {
            assert_eq!(rt; read_after(failures, with), (None, failures));
            assert_eq!(rt; written_after(failures, with), (None, failures));
        }
        assert_eq!(rt; read_after(1001, with), (Some(with), 1000));
        assert_eq!(rt; written_after(1001, with), (Some(with), 1000));
    }
}

#[test]
fn another_failure_is_final(rt: HostRuntime) {
    let with = ErrorKind::ConnectionReset;
    assert_eq!(rt; read_after(1, with), (Some(with), 0));
    assert_eq!(rt; written_after(1, with), (Some(with), 0));
}
