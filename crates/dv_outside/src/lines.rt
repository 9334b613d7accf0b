ghost use Rattle.std.specs.Prelude.{◌≡◌, ◌≤◌, OnOk, OnErr};
ghost use Rattle.dv_text.specs.Causes.{HasCause};
ghost use Rattle.dv_outside.specs.Bytes.{after, GotPrefix};
ghost use Rattle.dv_outside.specs.Ends.{Ends, EndsWith, line_of};

use crate::folders::Failed;
use crate::sinks::Sink;
use crate::statuses::Status;

/// Writes all of the bytes. Where the sink fails, a front of them was written.
pub fn write_all<S: Sink>(sink: &mut S, bytes: &[u8]) -> Result<(), Failed>
    ensures ok { OnOk result (S.contents sink.new ≡ after (S.contents sink.old) bytes.now) }
    ensures err { OnErr result (GotPrefix (S.contents sink.old) (S.contents sink.new) bytes.now) }
    ensures cause { HasCause (S.faults sink.old) (S.faults sink.new) result }
{
    let mut at = 0;
    while at < bytes.len() {
        let count = sink.write(&bytes[at..])?;
        at += count;
    }
    Ok(())
}

/// Writes a line: two pieces and a line feed. Where the sink fails, a front of the line was written.
pub fn write_line<S: Sink>(sink: &mut S, first: &[u8], second: &[u8]) -> Result<(), Failed>
    ensures ok { OnOk result (S.contents sink.new
        ≡ after (S.contents sink.old) (line_of first.now second.now)) }
    ensures err { OnErr result (GotPrefix (S.contents sink.old) (S.contents sink.new)
        (line_of first.now second.now)) }
    ensures cause { HasCause (S.faults sink.old) (S.faults sink.new) result }
{
    write_all(sink, first)?;
    write_all(sink, second)?;
    write_all(sink, b"\n")?;
    Ok(())
}

/// Ends a command: writes its last line, which has its line feed already, and answers its status, or
/// `WriteFault` where the sink failed.
pub fn end<E: Sink>(err: &mut E, line: &[u8], status: Status) -> Status
    ensures says { Ends status line.now (E.contents err.old) (E.contents err.new)
        (E.faults err.old) (E.faults err.new) result }
    ensures later { E.faults err.old ≤ E.faults err.new }
    ensures status { EndsWith status (E.faults err.old) (E.faults err.new) result }
{
    match write_all(err, line) {
        Ok(()) => status,
        Err(Failed) => Status::WriteFault,
    }
}

/// Ends a command: writes its last line, of two pieces and a line feed, and answers its status, or
/// `WriteFault` where the sink failed.
pub fn end_named<E: Sink>(err: &mut E, first: &[u8], second: &[u8], status: Status) -> Status
    ensures says { Ends status (line_of first.now second.now) (E.contents err.old) (E.contents err.new)
        (E.faults err.old) (E.faults err.new) result }
    ensures later { E.faults err.old ≤ E.faults err.new }
    ensures status { EndsWith status (E.faults err.old) (E.faults err.new) result }
{
    match write_line(err, first, second) {
        Ok(()) => status,
        Err(Failed) => Status::WriteFault,
    }
}
