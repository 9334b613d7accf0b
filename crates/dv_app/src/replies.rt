// What a command on what is kept replies, and how that is written.
ghost use Rattle.std.specs.Prelude.{◌≡◌, ◌⊎◌, ◌≤◌, IfOk};
ghost use Rattle.std.specs.Fmt.{decimal};
ghost use Rattle.dv_outside.specs.Ends.{line_of};
ghost use Rattle.dv_outside.specs.Seen.{seen};
ghost use Rattle.dv_outside.specs.declared.statuses.Status.TheVariants as statuses;
ghost use Rattle.dv_given.specs.Tried.{ended};
ghost use Rattle.dv_app.specs.Kept.{memory_said};
ghost use Rattle.dv_app.specs.Replies.{EndsAs, said};
ghost use Rattle.dv_app.specs.Works.{Tells, said_of};

use dv_given::{Ending, MEMORY, line_text};
use dv_outside::{Sink, Status, end};
use dv_text::{Memory, Text};
use std::alloc::Global;

/// What a command replies: a text for standard output, a line for standard error with a status, or that memory ran out.
#[derive(Drop)]
pub(crate) enum Reply {
    Text(Text),
    Line { line: Text, status: Status },
    Memory,
}

/// The line of a command that did what was asked.
pub(crate) fn done(alloc: Global, line: &[u8]) -> Result<Reply, Ending>
    ensures { Tells (ended statuses.Done line.now) result }
{
    Ok(Reply::Line {
        line: Text::of(alloc, line)?,
        status: Status::Done,
    })
}

// A line with a number at its end.
fn number_line(alloc: Global, front: &[u8], number: u64) -> Result<Text, Memory>
    ensures { IfOk result (λ line. line ≡ line_of front.now (decimal number)) }
{
    let number = number.to_string(alloc)?;
    line_text(alloc, front, number.as_bytes())
}

/// The same, with a number at the end of the line.
pub(crate) fn done_with(alloc: Global, front: &[u8], number: u64) -> Result<Reply, Ending>
    ensures { Tells (ended statuses.Done (line_of front.now (decimal number))) result }
{
    Ok(Reply::Line {
        line: number_line(alloc, front, number)?,
        status: Status::Done,
    })
}

/// What a command replies that ends so; where its line could not be made, that memory ran out.
pub(crate) fn reply_of(alloc: Global, ending: &Ending) -> Reply
    ensures { (said result ≡ said_of ending.now) ⊎ (said result ≡ memory_said) }
{
    match ending.line(alloc) {
        Ok(line) => Reply::Line {
            line,
            status: ending.status(),
        },
        Err(Memory) => Reply::Memory,
    }
}

/// Writes what a command replies, and answers the status.
pub(crate) fn say<O: Sink, E: Sink>(reply: &Reply, out: &mut O, err: &mut E) -> Status
    ensures says { EndsAs (said reply.now) (seen O.contents O.faults out.old out.new) (seen E.contents E.faults err.old err.new) result }
    ensures later { (O.faults out.old ≤ O.faults out.new) × (E.faults err.old ≤ E.faults err.new) }
{
    match reply {
        Reply::Text(text) => end(out, text.bytes(), Status::Done),
        Reply::Line { line, status } => end(err, line.bytes(), *status),
        Reply::Memory => end(err, MEMORY, Status::Memory),
    }
}
