use dv_http::{Reply, ReplyKind, reply_bytes};
use dv_text::Text;
use std::test::Fail;

const REPLIES: &[(u16, ReplyKind, &[u8], bool, &[u8], &[u8])] = &[
    (
        200,
        ReplyKind::Json,
        b"",
        false,
        b"{\"answer\":\"Loaded\",\"rows\":18}",
        b"HTTP/1.1 200 OK\r\nContent-Type: application/json\r\nContent-Length: 29\r\n\r\n{\"answer\":\"Loaded\",\"rows\":18}",
    ),
    (
        200,
        ReplyKind::Csv,
        b"",
        true,
        b"A\nb\n",
        b"HTTP/1.1 200 OK\r\nContent-Type: text/csv; charset=utf-8\r\nContent-Length: 4\r\nConnection: close\r\n\r\nA\nb\n",
    ),
    (
        405,
        ReplyKind::Json,
        b"GET, POST",
        true,
        b"",
        b"HTTP/1.1 405 Method Not Allowed\r\nContent-Type: application/json\r\nContent-Length: 0\r\nAllow: GET, POST\r\nConnection: close\r\n\r\n",
    ),
    (
        413,
        ReplyKind::Json,
        b"",
        true,
        b"{}",
        b"HTTP/1.1 413 Payload Too Large\r\nContent-Type: application/json\r\nContent-Length: 2\r\nConnection: close\r\n\r\n{}",
    ),
    (
        799,
        ReplyKind::Json,
        b"",
        false,
        b"",
        b"HTTP/1.1 799 \r\nContent-Type: application/json\r\nContent-Length: 0\r\n\r\n",
    ),
];

#[test]
fn replies_have_their_lines(rt: HostRuntime) -> Result<(), Fail> {
    let alloc = rt.alloc();
    for (status, kind, allow, last, body, expected) in REPLIES.iter().copied() {
        let allow = if allow.is_empty() {
            None
        } else {
            Some(Text::of(alloc, allow)?)
        };
        let body = Text::of(alloc, body)?;
        let reply = Reply {
            status,
            kind,
            allow,
            last,
            body,
        };
        let text = reply_bytes(alloc, &reply)?;
        assert!(rt; text.bytes() == expected, "{status}");
    }
    Ok(())
}

#[test]
fn statuses_have_their_phrases(rt: HostRuntime) -> Result<(), Fail> {
    let alloc = rt.alloc();
    for (status, phrase) in [
        (200, b"OK".as_slice()),
        (400, b"Bad Request"),
        (404, b"Not Found"),
        (409, b"Conflict"),
        (411, b"Length Required"),
        (422, b"Unprocessable Entity"),
        (500, b"Internal Server Error"),
        (503, b"Service Unavailable"),
        (507, b"Insufficient Storage"),
    ] {
        let body = Text::of(alloc, b"")?;
        let reply = Reply {
            status,
            kind: ReplyKind::Json,
            allow: None,
            last: false,
            body,
        };
        let text = reply_bytes(alloc, &reply)?;
        let line = text
            .bytes()
            .iter()
            .position(|byte| *byte == b'\r')
            .unwrap_or(0);
        assert!(rt; line >= 13);
        assert!(rt; text.bytes().get(13..line) == Some(phrase), "{status}");
    }
    Ok(())
}
