// What comes of one request of a connection, and how its reply is written.
ghost use Rattle.std.specs.Prelude.{◌≡◌, ◌≢◌, ◌<◌, ◌≤◌};
ghost use Rattle.dv_text.specs.Causes.{Rose};
ghost use Rattle.dv_http.specs.Replies.{reply_text};
ghost use Rattle.dv_serving.specs.Serving.{most_requests};
ghost use Rattle.dv_serving.specs.Steps.{Refused, Said, came_of as came_by, end_with as end_of, quiet as quiet_of};

use crate::served::Served;
use crate::writing::write_whole;
use dv_http::{Reply, WireError, reply_bytes};
use dv_outside::{Failed, Link};
use dv_text::Memory;
use std::alloc::Global;

/// The most requests that a connection may have.
pub const MOST_REQUESTS: u32 = 10_000;

/// What came of one request.
#[derive(Clone, Copy)]
pub enum Came {
    /// It was answered.
    Replied,
    /// It was the last one, and was answered.
    Closed,
    /// None could be taken, which was answered.
    Wire,
    /// The input ended between requests.
    Ended,
    /// The input ended in a request.
    Cut,
    /// The connection could not be read.
    ReadFault,
    /// The reply could not be written whole.
    WriteFault,
    /// Memory ran out.
    Memory,
}

/// Writes a reply; what came is this where it was written whole.
pub fn say<L: Link>(alloc: Global, link: &mut L, reply: &Reply, written: Came) -> Came
    requires { written ≢ Came.WriteFault }
    ensures said { Said (reply_text reply.now) (L.contents link.old) (L.contents link.new) written result }
    ensures kept { L.left link.new ≡ L.left link.old }
    ensures cause { result ≡ Came.WriteFault → Rose (L.faults link.old) (L.faults link.new) }
    ensures later { L.faults link.old ≤ L.faults link.new }
{
    let Ok(text) = reply_bytes(alloc, reply) else {
        return Came::Memory;
    };
    match write_whole(link, text.bytes()) {
        Ok(()) => written,
        Err(Failed) => Came::WriteFault,
    }
}

// What comes where no request could be taken, and nothing is written.
fn quiet(error: WireError) -> Came
    ensures { result ≡ quiet_of error }
{
    match error {
        WireError::Cut => Came::Cut,
        WireError::ReadFault => Came::ReadFault,
        _ => Came::Memory,
    }
}

/// Answers where no request could be taken, by the reply that says so; where there is none, nothing is written.
pub fn refuse<L: Link>(
    alloc: Global,
    link: &mut L,
    error: WireError,
    refusal: Result<Option<Reply>, Memory>,
) -> Came
    ensures refused { Refused refusal error (L.contents link.old) (L.contents link.new) result }
    ensures kept { L.left link.new ≡ L.left link.old }
    ensures cause { result ≡ Came.WriteFault → Rose (L.faults link.old) (L.faults link.new) }
    ensures later { L.faults link.old ≤ L.faults link.new }
{
    match refusal {
        Ok(Some(reply)) => say(alloc, link, &reply, Came::Wire),
        Ok(None) => quiet(error),
        Err(Memory) => Came::Memory,
    }
}

/// What comes of a request that is answered.
pub fn came_of(last: bool) -> Came
    ensures { result ≡ came_by last }
{
    if last { Came::Closed } else { Came::Replied }
}

/// How the serving of a connection ends with what came of a request, behind so many that were answered; none where it
/// goes on.
pub fn end_with(came: Came, requests: u32) -> Option<Served>
    requires { requests < most_requests }
    ensures { result ≡ end_of came requests }
{
    match came {
        Came::Replied => None,
        Came::Closed => Some(Served::Closed {
            requests: requests + 1,
        }),
        Came::Wire => Some(Served::Wire {
            requests: requests + 1,
        }),
        Came::Ended => Some(Served::Ended { requests }),
        Came::Cut => Some(Served::Cut { requests }),
        Came::ReadFault => Some(Served::ReadFault),
        Came::WriteFault => Some(Served::WriteFault),
        Came::Memory => Some(Served::Memory),
    }
}
