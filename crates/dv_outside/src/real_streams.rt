ghost use Rattle.std.specs.Prelude.{◌≡◌, ◌<◌, ◌≤◌, IfOk, None, length};
ghost use Rattle.dv_text.specs.Causes.{HasCause};
ghost use Rattle.dv_outside.specs.RealStreams.{real_out_faults, real_err_faults};

use crate::folders::Failed;
use crate::sinks::Sink;
use std::io;
use std::io::{ErrorKind, Read, Stderr, Stdout, Write};

// How often a call of the system is made that signals break off. One that has a limit of time is broken off
// also where the process is stopped and goes on.
const MOST_TRIES: u32 = 1_000;

// The bytes that one call of the system gives.
pub(crate) fn read_some<R: Read>(from: &mut R, into: &mut [u8]) -> io::Result<usize>
    ensures { IfOk result (λ n. n ≤ length into.new) }
{
    for _ in 0..MOST_TRIES {
        match from.read(into) {
            Ok(count) => return Ok(count),
            Err(e) if e.kind() == ErrorKind::Interrupted => {}
            Err(e) => return Err(e),
        }
    }
    Err(io::Error::from(ErrorKind::Interrupted))
}

// Neither the standard streams nor a connection keep a buffer: each write is one call of the system, and its
// failure is answered by that very call.
pub(crate) fn write_some<W: Write>(
    to: &mut W,
    faults: &mut u64,
    piece: &[u8],
) -> Result<usize, Failed>
    ensures some { IfOk result (λ n. 0 < n) }
    ensures within { IfOk result (λ n. n ≤ length piece.now) }
    ensures cause { HasCause faults.old faults.new result }
{
    for _ in 0..MOST_TRIES {
        match to.write(piece) {
            Ok(count) if count > 0 => return Ok(count),
            Err(e) if e.kind() == ErrorKind::Interrupted => {}
            _ => break,
        }
    }
    *faults = faults.saturating_add(1);
    Err(Failed)
}

/// Standard output. It tells nothing of what was written, and counts its faults: each write that failed or
/// took nothing.
#[derive(Drop)]
pub struct RealOut {
    stream: Stdout,
    faults: u64,
}

impl RealOut {
    /// The standard output, with no faults yet.
    pub fn new(stream: Stdout) -> RealOut
        ensures { real_out_faults result ≡ 0 }
    {
        RealOut { stream, faults: 0 }
    }
}

impl Sink for RealOut {
    ghost contents = { λ _. None };

    ghost faults = { real_out_faults };

    fn write(&mut self, piece: &[u8]) -> Result<usize, Failed> {
        write_some(&mut self.stream, &mut self.faults, piece)
    }
}

/// Standard error. It tells nothing of what was written, and counts its faults: each write that failed or
/// took nothing.
#[derive(Drop)]
pub struct RealErr {
    stream: Stderr,
    faults: u64,
}

impl RealErr {
    /// The standard error, with no faults yet.
    pub fn new(stream: Stderr) -> RealErr
        ensures { real_err_faults result ≡ 0 }
    {
        RealErr { stream, faults: 0 }
    }
}

impl Sink for RealErr {
    ghost contents = { λ _. None };

    ghost faults = { real_err_faults };

    fn write(&mut self, piece: &[u8]) -> Result<usize, Failed> {
        write_some(&mut self.stream, &mut self.faults, piece)
    }
}
