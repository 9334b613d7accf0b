ghost use Rattle.std.specs.Prelude.{◌≡◌, ◌↔◌, IsErrOf, IsTrue, is_err, length, take};
ghost use Rattle.dv_outside.specs.Bytes.{in_front};
ghost use Rattle.dv_http.specs.Buffers.{held, is_spent};
ghost use Rattle.dv_http.specs.Heads.{BodyWaits, GivesBody, HasReadCause, IsHeadAt};
ghost use Rattle.dv_http.specs.Requests.{Takes, ReadsNothing, Waited, fields_most, head_most};

use crate::buffers::Buffer;
use crate::heads::{FIELDS_MOST, find_head, front, head_of};
use crate::requests::{Request, WireError};
use dv_outside::Link;
use dv_text::List;
use httparse::spans::{EMPTY_HEADER_SPAN, HeaderSpan, RequestSpans};
use std::alloc::Global;

/// Takes one request from a connection; none exactly where the input ends with no byte of one. A read fails only
/// where what was read before is no whole request. After an error the buffer is spent: a later call answers `Spent` and reads nothing.
pub fn read_request<L: Link>(
    alloc: Global,
    link: &mut L,
    buffer: &mut Buffer,
) -> Result<Option<Request>, WireError>
    ensures takes { Takes (in_front (held buffer.old) (L.left link.old))
        (in_front (held buffer.new) (L.left link.new)) result }
    ensures waited { IsErrOf result WireError.ReadFault → Waited (in_front (held buffer.old) (L.left link.old))
        (L.left link.new) }
    ensures spent { IsErrOf result WireError.Spent ↔ IsTrue (is_spent buffer.old) }
    ensures spends { is_spent buffer.new ≡ is_err result }
    ensures nothing { IsTrue (is_spent buffer.old) → ReadsNothing (L.left link.old) (L.left link.new)
        (L.faults link.old) (L.faults link.new) }
    ensures kept { L.contents link.new ≡ L.contents link.old }
    ensures cause { HasReadCause (L.faults link.old) (L.faults link.new) result }
{
    if buffer.is_spent() {
        return Err(WireError::Spent);
    }
    let taken = take_request(alloc, link, buffer);
    if taken.is_err() {
        buffer.spend();
    }
    taken
}

// Takes a request with a buffer that is not spent.
fn take_request<L: Link>(
    alloc: Global,
    link: &mut L,
    buffer: &mut Buffer,
) -> Result<Option<Request>, WireError>
    ensures takes { Takes (in_front (held buffer.old) (L.left link.old))
        (in_front (held buffer.new) (L.left link.new)) result }
    ensures waited { IsErrOf result WireError.ReadFault → Waited (in_front (held buffer.old) (L.left link.old))
        (L.left link.new) }
    ensures fresh { IsErrOf result WireError.Spent → ⊥ }
    ensures spent { is_spent buffer.new ≡ is_spent buffer.old }
    ensures kept { L.contents link.new ≡ L.contents link.old }
    ensures cause { HasReadCause (L.faults link.old) (L.faults link.new) result }
{
    let mut spans = [EMPTY_HEADER_SPAN; FIELDS_MOST];
    match find_head(link, buffer, &mut spans) {
        Ok(Some(found)) => take_found(alloc, link, buffer, &spans, &found),
        Ok(None) => Ok(None),
        Err(error) => Err(error),
    }
}

// Takes the request whose head was found at the front of what is held.
fn take_found<L: Link>(
    alloc: Global,
    link: &mut L,
    buffer: &mut Buffer,
    spans: &[HeaderSpan],
    found: &RequestSpans,
) -> Result<Option<Request>, WireError>
    requires room { length spans.now ≡ fields_most }
    requires found { IsHeadAt (take head_most (held buffer.old)) spans.now found.now }
    ensures takes { Takes (in_front (held buffer.old) (L.left link.old))
        (in_front (held buffer.new) (L.left link.new)) result }
    ensures waited { IsErrOf result WireError.ReadFault → Waited (in_front (held buffer.old) (L.left link.old))
        (L.left link.new) }
    ensures fresh { IsErrOf result WireError.Spent → ⊥ }
    ensures spent { is_spent buffer.new ≡ is_spent buffer.old }
    ensures kept { L.contents link.new ≡ L.contents link.old }
    ensures cause { HasReadCause (L.faults link.old) (L.faults link.new) result }
{
    let head = match head_of(alloc, front(buffer.held()), spans, found) {
        Ok(head) => head,
        Err(error) => return Err(error),
    };
    buffer.skip(head.size);
    match read_body(alloc, link, buffer, head.length) {
        Ok(body) => Ok(Some(Request {
            method: head.method,
            path: head.path,
            at: head.at,
            body,
            last: head.last,
        })),
        Err(error) => Err(error),
    }
}

// Takes a body of so many bytes.
fn read_body<L: Link>(
    alloc: Global,
    link: &mut L,
    buffer: &mut Buffer,
    length: u64,
) -> Result<List<u8>, WireError>
    ensures gives { GivesBody length (in_front (held buffer.old) (L.left link.old))
        (in_front (held buffer.new) (L.left link.new)) result }
    ensures waits { IsErrOf result WireError.ReadFault → BodyWaits length
        (in_front (held buffer.old) (L.left link.old)) (L.left link.new) }
    ensures spent { is_spent buffer.new ≡ is_spent buffer.old }
    ensures kept { L.contents link.new ≡ L.contents link.old }
    ensures cause { HasReadCause (L.faults link.old) (L.faults link.new) result }
{
    let length = length as usize;
    let mut body = Vec::with_capacity(alloc, length)?;
    buffer.give(&mut body, length)?;
    'body: while body.len() < length {
        if buffer.fill(link)? == 0 {
            return Err(WireError::Cut);
        }
        let left = length - body.len();
        buffer.give(&mut body, left)?;
    }
    Ok(List::from_vec(body))
}
