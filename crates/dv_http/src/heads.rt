ghost use Rattle.std.specs.Prelude.{◌≡◌, ◌<◌, length, take, true, false, IfOk, IsErrOf, OnErr, OnOk};
ghost use Rattle.dv_text.specs.Causes.{HasCause};
ghost use Rattle.dv_outside.specs.Bytes.{in_front};
ghost use Rattle.httparse.specs.Grammar.{HasNoRequest, RequestHead};
ghost use Rattle.httparse.specs.Spans.{IsRequestAt};
ghost use Rattle.dv_http.specs.Buffers.{held, is_spent};
ghost use Rattle.dv_http.specs.Requests.{head_most, fields_most};
ghost use Rattle.dv_http.specs.Heads.{EndsLine, HasNoEnd, KeepsWaiting, Waits, IsHeading, ReadsOn, FindsHead, IsHeadAt, HasReadCause, IsHeadOf};

use crate::buffers::Buffer;
use crate::fields::{body_length, closes};
use crate::requests::WireError;
use crate::targets::{at_value, split};
use dv_outside::{Failed, Link};
use dv_text::Text;
use httparse::Status;
use httparse::spans::{HeaderSpan, RequestSpans, parse_request};
use std::alloc::Global;

/// A head's longest length.
const HEAD_MOST: usize = 16_384;

/// A head's most fields.
pub(crate) const FIELDS_MOST: usize = 64;

/// What a head says of its request: also the length of the body, and its own length.
#[derive(Drop)]
pub(crate) struct Head {
    pub method: Text,
    pub path: Text,
    pub at: Option<Text>,
    pub last: bool,
    pub length: u64,
    pub size: usize,
}

#[derive(Clone, Copy)]
enum Heading {
    Whole(RequestSpans),
    Unfinished,
    Never,
}

// The head at the front of the bytes.
fn parse(bytes: &[u8], spans: &mut [HeaderSpan]) -> Heading
    ensures { IsHeading (length spans.old) bytes.now spans.new result }
{
    match parse_request(bytes, spans) {
        Ok(Status::Complete(head)) => Heading::Whole(head),
        Ok(Status::Partial) => Heading::Unfinished,
        Err(_) => Heading::Never,
    }
}

/// As many bytes from the front as a head may have.
pub(crate) fn front(bytes: &[u8]) -> &[u8]
    ensures { result.now ≡ take head_most bytes.now }
{
    &bytes[..bytes.len().min(HEAD_MOST)]
}

// Whether a line feed behind these bytes ends an empty line, or the first one.
fn ends_line(before: &[u8]) -> bool
    ensures { EndsLine before.now → result ≡ true }
{
    if before.ends_with(b"\n") || before.ends_with(b"\n\r") {
        return true;
    }
    !before.contains(&b'\n')
}

// Whether the first line or an empty one ends in the bytes from this place on. A head ends with an empty line,
// and what can't become a head mostly shows in its first line; so this says when it is worth while to parse.
fn may_end(bytes: &[u8], from: usize) -> bool
    ensures { result ≡ false → HasNoEnd from bytes.now }
{
    for at in from..bytes.len() {
        if bytes[at] == b'\n' && ends_line(&bytes[..at]) {
            return true;
        }
    }
    false
}

// Reads on until a head may be whole, or the input ends. Answers whether anything came.
fn read_on<L: Link>(link: &mut L, buffer: &mut Buffer) -> Result<bool, Failed>
    requires short { length (held buffer.old) < head_most }
    requires none { HasNoRequest (held buffer.old) }
    ensures ok { IfOk result (λ came. ReadsOn came (held buffer.old) (held buffer.new)
        (L.left link.old) (L.left link.new)) }
    ensures err { OnErr result (KeepsWaiting (held buffer.old) (held buffer.new)
        (L.left link.old) (L.left link.new)) }
    ensures kept { L.contents link.new ≡ L.contents link.old }
    ensures spent { is_spent buffer.new ≡ is_spent buffer.old }
    ensures cause { HasCause (L.faults link.old) (L.faults link.new) result }
{
    let before = buffer.held().len();
    'reads: loop {
        let from = buffer.held().len();
        if buffer.fill(link)? == 0 {
            return Ok(from > before);
        }
        let held = buffer.held();
        if held.len() >= HEAD_MOST || may_end(held, from) {
            return Ok(true);
        }
    }
}

/// Reads until a head is whole. None where the input ends with no byte of one.
pub(crate) fn find_head<L: Link>(
    link: &mut L,
    buffer: &mut Buffer,
    spans: &mut [HeaderSpan],
) -> Result<Option<RequestSpans>, WireError>
    requires { length spans.old ≡ fields_most }
    ensures found { FindsHead (in_front (held buffer.old) (L.left link.old)) (held buffer.new) spans.new result }
    ensures same { OnOk result (in_front (held buffer.new) (L.left link.new)
        ≡ in_front (held buffer.old) (L.left link.old)) }
    ensures waits { IsErrOf result WireError.ReadFault → Waits (in_front (held buffer.old) (L.left link.old))
        (held buffer.new) (L.left link.new) }
    ensures kept { L.contents link.new ≡ L.contents link.old }
    ensures spent { is_spent buffer.new ≡ is_spent buffer.old }
    ensures cause { HasReadCause (L.faults link.old) (L.faults link.new) result }
{
    'heads: loop {
        let bytes = front(buffer.held());
        match parse(bytes, spans) {
            Heading::Whole(head) => return Ok(Some(head)),
            Heading::Unfinished if bytes.len() < HEAD_MOST => {}
            _ => return Err(WireError::Head),
        }
        if !read_on(link, buffer)? {
            return if buffer.held().is_empty() {
                Ok(None)
            } else {
                Err(WireError::Cut)
            };
        }
    }
}

/// What a head says.
pub(crate) fn head_of(
    alloc: Global,
    bytes: &[u8],
    spans: &[HeaderSpan],
    found: &RequestSpans,
) -> Result<Head, WireError>
    requires { IsHeadAt bytes.now spans.now found.now }
    ensures { (head : RequestHead) → IsRequestAt bytes.now spans.now found.now head → IsHeadOf head result }
{
    let fields = &spans[..found.headers];
    let method = found.method.of(bytes);
    let length = body_length(bytes, fields, method)?;
    let (path, query) = split(found.path.of(bytes));
    Ok(Head {
        method: Text::of(alloc, method)?,
        path: Text::of(alloc, path)?,
        at: at_value(alloc, query)?,
        last: found.version == 0 || closes(bytes, fields),
        length,
        size: found.len,
    })
}
