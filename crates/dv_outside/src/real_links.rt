ghost use Rattle.std.specs.Prelude.{◌≡◌, ◌<◌, ◌≤◌, IfSome, None};
ghost use Rattle.dv_outside.specs.RealLinks.{real_link_faults};

use crate::folders::Failed;
use crate::links::Link;
use crate::real_streams::{read_some, write_some};
use std::io;
use std::net::{Shutdown, TcpListener, TcpStream};
use std::time::{Clock, Duration, Instant};

/// For how many seconds a connection that came through doors may send nothing where it is read, or take nothing
/// where it is written: it has failed then. A write that took a part waits as long for the rest, and answers.
const SILENT_SECONDS: u64 = 30;

/// For how many seconds, in all, input is read and dropped where a connection is closed.
const CLOSING_SECONDS: u64 = 30;

/// For how many seconds a connection that is closed is waited for where it sends nothing.
const CLOSING_SILENT_SECONDS: u64 = 2;

/// How many bytes of input are read and dropped where a connection is closed.
const CLOSING_BYTES: u64 = 268_435_456;

/// How many of them one call of the system takes.
const CLOSING_PIECE: usize = 16_384;

/// A connection over TCP. It tells nothing of what is read and written, and counts its faults: each read
/// that failed, and each write that failed or took nothing.
#[derive(Drop)]
pub struct RealLink {
    stream: TcpStream,
    faults: u64,
}

impl RealLink {
    /// The connection, with no faults yet.
    pub fn new(stream: TcpStream) -> RealLink
        ensures { real_link_faults result ≡ 0 }
    {
        RealLink { stream, faults: 0 }
    }

    // The next connection of a listener. Its reads and writes fail after the limit.
    pub(crate) fn accept(listener: &TcpListener) -> io::Result<RealLink> {
        let (stream, _) = listener.accept()?;
        let limit = Some(Duration::from_secs(SILENT_SECONDS));
        stream.set_read_timeout(limit)?;
        stream.set_write_timeout(limit)?;
        Ok(RealLink::new(stream))
    }

    // Closes the connection. The system takes back what it has not sent yet where it is closed with input
    // unread. So the output is ended first, and what still comes is read and dropped, up to the limits.
    pub(crate) fn close<C: Clock>(mut self, clock: &C) {
        if self.stream.shutdown(Shutdown::Write).is_err() {
            return;
        }
        let Ok(begun) = Instant::now(clock) else {
            return;
        };
        let mut dropped = 0;
        while dropped < CLOSING_BYTES {
            match self.drop_some(clock, begun) {
                Some(count) => dropped += count,
                None => return,
            }
        }
    }

    // Reads input and drops it, and answers how many bytes; none where the input has ended or failed, or the
    // time is over.
    fn drop_some<C: Clock>(&mut self, clock: &C, begun: Instant) -> Option<u64>
        ensures some { IfSome result (λ n. 0 < n) }
        ensures within { IfSome result (λ n. n ≤ 16_384) }
    {
        let passed = begun.elapsed(clock).ok()?;
        let left = Duration::from_secs(CLOSING_SECONDS).saturating_sub(passed);
        let wait = left.min(Duration::from_secs(CLOSING_SILENT_SECONDS));
        self.stream.set_read_timeout(Some(wait)).ok()?;
        let mut piece = [0u8; CLOSING_PIECE];
        match read_some(&mut self.stream, &mut piece) {
            Ok(count) if count > 0 => Some(count as u64),
            _ => None,
        }
    }
}

impl Link for RealLink {
    ghost left = { λ _. None };

    ghost contents = { λ _. None };

    ghost faults = { real_link_faults };

    fn read(&mut self, into: &mut [u8]) -> Result<usize, Failed> {
        match read_some(&mut self.stream, into) {
            Ok(count) => Ok(count),
            Err(_) => {
                self.faults = self.faults.saturating_add(1);
                Err(Failed)
            }
        }
    }

    fn write(&mut self, piece: &[u8]) -> Result<usize, Failed> {
        write_some(&mut self.stream, &mut self.faults, piece)
    }
}
