ghost use Rattle.std.specs.Prelude.{◌≡◌, length, map, All};
ghost use Rattle.std.specs.Char.{is_ascii_digit};
ghost use Rattle.std.specs.List.{list_all, list_any};
ghost use Rattle.httparse.specs.Spans.{IsWithin, IsHeaderWithin, span_bytes, header_bytes};
ghost use Rattle.dv_http.specs.Fields as spec;
ghost use Rattle.dv_http.specs.Found.{IsFound};

use crate::requests::WireError;
use httparse::spans::{HeaderSpan, Span};

// Whether a part of the bytes is this word, without regard to ASCII case.
fn is(bytes: &[u8], span: Span, word: &[u8]) -> bool
    requires { IsWithin (length bytes.now) span }
    ensures { result ≡ spec.same_word (span_bytes bytes.now span) word.now }
{
    span.of(bytes).eq_ignore_ascii_case(word)
}

// Whether there is a field of this name.
fn has_field(bytes: &[u8], spans: &[HeaderSpan], name: &[u8]) -> bool
    requires { All (IsHeaderWithin (length bytes.now)) spans.now }
    ensures { result ≡ list_any (spec.is_named name.now) (map (header_bytes bytes.now) spans.now) }
{
    for span in spans {
        if is(bytes, span.name, name) {
            return true;
        }
    }
    false
}

// Whether a field ends the connection.
pub(crate) fn closes(bytes: &[u8], spans: &[HeaderSpan]) -> bool
    requires { All (IsHeaderWithin (length bytes.now)) spans.now }
    ensures { result ≡ list_any spec.is_close (map (header_bytes bytes.now) spans.now) }
{
    for span in spans {
        if is(bytes, span.name, b"Connection") && is(bytes, span.value, b"close") {
            return true;
        }
    }
    false
}

// How many fields of a name there are: none, one with this value, or more.
#[derive(Clone, Copy)]
enum Found {
    Absent,
    Once(Span),
    Often,
}

fn find(bytes: &[u8], spans: &[HeaderSpan], name: &[u8]) -> Found
    requires { All (IsHeaderWithin (length bytes.now)) spans.now }
    ensures { IsFound bytes.now (spec.values_named name.now (map (header_bytes bytes.now) spans.now)) result }
{
    let mut value = None;
    for span in spans {
        if is(bytes, span.name, name) {
            if value.is_some() {
                return Found::Often;
            }
            value = Some(span.value);
        }
    }
    match value {
        Some(value) => Found::Once(value),
        None => Found::Absent,
    }
}

// The number that the value of a length says.
fn length_told(value: &[u8]) -> Result<u64, WireError>
    ensures { result ≡ spec.length_told value.now }
{
    if value.is_empty() || value.len() > 19 || !all_digits(value) {
        return Err(WireError::Head);
    }
    let Ok(text) = str::from_utf8(value) else {
        return Err(WireError::Head);
    };
    match text.parse() {
        Ok(length) if length <= BODY_MOST => Ok(length),
        _ => Err(WireError::BodyTooLong),
    }
}

// The body's longest length.
const BODY_MOST: u64 = 68_157_440;

fn all_digits(value: &[u8]) -> bool
    ensures { result ≡ list_all is_ascii_digit value.now }
{
    for byte in value {
        if !byte.is_ascii_digit() {
            return false;
        }
    }
    true
}

// The body's length.
pub(crate) fn body_length(
    bytes: &[u8],
    spans: &[HeaderSpan],
    method: &[u8],
) -> Result<u64, WireError>
    requires { All (IsHeaderWithin (length bytes.now)) spans.now }
    ensures { result ≡ spec.body_length method.now (map (header_bytes bytes.now) spans.now) }
{
    if has_field(bytes, spans, b"Transfer-Encoding") {
        return Err(WireError::NoLength);
    }
    match find(bytes, spans, b"Content-Length") {
        Found::Once(value) => length_told(value.of(bytes)),
        Found::Often => Err(WireError::Head),
        Found::Absent if method == b"POST".as_slice() => Err(WireError::NoLength),
        Found::Absent => Ok(0),
    }
}
