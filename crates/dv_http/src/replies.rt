ghost use Rattle.std.specs.Prelude.{◌≡◌, ◌++◌, [], IfOk, OnOk, length, unwrap_or};
ghost use Rattle.http.specs.StatusCode.{reason_phrase};
ghost use Rattle.dv_http.specs.Replies as spec;

use dv_text::{Memory, Text};
use http::StatusCode;
use std::alloc::Global;

/// What a reply's body is.
#[derive(Clone, Copy, Debug, PartialEq, Eq)]
pub enum ReplyKind {
    Json,
    Csv,
}

/// A reply: its status, what its body is, the methods that the target allows where they are told, whether
/// the connection ends after it, and its body.
#[derive(Debug, PartialEq, Eq, Drop)]
pub struct Reply {
    pub status: u16,
    pub kind: ReplyKind,
    pub allow: Option<Text>,
    pub last: bool,
    pub body: Text,
}

/// The bytes of a reply.
pub fn reply_bytes(alloc: Global, reply: &Reply) -> Result<Text, Memory>
    ensures { IfOk result (λ text. text ≡ spec.reply_text reply.now) }
{
    let body = reply.body.bytes();
    let mut text = Vec::with_capacity(alloc, body.len().saturating_add(HEAD_ROOM))?;
    add_content(alloc, &mut text, reply)?;
    add_end(&mut text, reply)?;
    text.extend_from_slice(body)?;
    Text::from_vec(text)
}

// Room for the lines of most replies.
const HEAD_ROOM: usize = 256;

// Puts a line of two pieces at the end of a text.
fn add_line(text: &mut Vec<u8>, first: &[u8], second: &[u8]) -> Result<(), Memory>
    ensures { OnOk result (text.new.items ≡ text.old.items ++ first.now ++ second.now ++ spec.crlf) }
{
    text.extend_from_slice(first)?;
    text.extend_from_slice(second)?;
    text.extend_from_slice(b"\r\n")?;
    Ok(())
}

fn add_status(alloc: Global, text: &mut Vec<u8>, status: u16) -> Result<(), Memory>
    ensures { OnOk result (text.new.items ≡ text.old.items ++ spec.status_line status) }
{
    let number = status.to_string(alloc)?;
    text.extend_from_slice(b"HTTP/1.1 ")?;
    text.extend_from_slice(number.as_bytes())?;
    add_line(text, b" ", phrase(status).as_bytes())
}

// The phrase of a status, empty where it has none.
fn phrase(status: u16) -> &'static str
    ensures { result.now ≡ spec.phrase_of status }
{
    match StatusCode::from_u16(status) {
        Ok(status) => known_phrase(status),
        Err(_) => "",
    }
}

fn known_phrase(status: StatusCode) -> &'static str
    ensures { result.now ≡ unwrap_or (reason_phrase status) [] }
{
    match status.canonical_reason() {
        Some(phrase) => phrase,
        None => "",
    }
}

fn kind_line(kind: ReplyKind) -> &'static [u8]
    ensures { result.now ≡ spec.kind_line kind }
{
    match kind {
        ReplyKind::Json => b"Content-Type: application/json\r\n",
        ReplyKind::Csv => b"Content-Type: text/csv; charset=utf-8\r\n",
    }
}

fn add_length(alloc: Global, text: &mut Vec<u8>, count: usize) -> Result<(), Memory>
    ensures { OnOk result (text.new.items ≡ text.old.items ++ spec.length_line count) }
{
    let number = count.to_string(alloc)?;
    add_line(text, b"Content-Length: ", number.as_bytes())
}

fn add_allow(text: &mut Vec<u8>, allow: &Option<Text>) -> Result<(), Memory>
    ensures { OnOk result (text.new.items ≡ text.old.items ++ spec.allow_line allow.now) }
{
    match allow {
        Some(methods) => add_line(text, b"Allow: ", methods.bytes()),
        None => Ok(()),
    }
}

fn close_line(last: bool) -> &'static [u8]
    ensures { result.now ≡ spec.close_line last }
{
    if last { b"Connection: close\r\n" } else { b"" }
}

// Puts the lines of the status and of the body's kind and length at the end of a text.
fn add_content(alloc: Global, text: &mut Vec<u8>, reply: &Reply) -> Result<(), Memory>
    ensures { OnOk result (text.new.items ≡ text.old.items ++ spec.status_line reply.now.status
        ++ spec.kind_line reply.now.kind ++ spec.length_line (length reply.now.body)) }
{
    add_status(alloc, text, reply.status)?;
    text.extend_from_slice(kind_line(reply.kind))?;
    add_length(alloc, text, reply.body.bytes().len())?;
    Ok(())
}

// Puts the other lines and the empty one there.
fn add_end(text: &mut Vec<u8>, reply: &Reply) -> Result<(), Memory>
    ensures { OnOk result (text.new.items ≡ text.old.items ++ spec.allow_line reply.now.allow
        ++ spec.close_line reply.now.last ++ spec.crlf) }
{
    add_allow(text, &reply.allow)?;
    text.extend_from_slice(close_line(reply.last))?;
    text.extend_from_slice(b"\r\n")?;
    Ok(())
}
