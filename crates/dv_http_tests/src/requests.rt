use crate::told::told;
use dv_http::{Buffer, WireError, read_request};
use dv_outside::MemoryLink;
use dv_text::{List, Memory};
use std::alloc::Global;
use std::test::Fail;

const POST: &[u8] =
    b"POST /windows HTTP/1.1\r\nHost: localhost\r\nContent-Length: 11\r\n\r\n{\"load\":12}";

const GET: &[u8] =
    b"GET /marts/feed:customers?at=2024-03-01T02:00:00 HTTP/1.1\r\nHost: localhost\r\n\r\n";

const POST_TOLD: &[u8] = b"POST /windows {\"load\":12}|";

const GET_TOLD: &[u8] = b"GET /marts/feed:customers at=2024-03-01T02:00:00 |";

const REQUESTS: &[(&[u8], &[u8])] = &[
    (b"", b"end"),
    (b"GET / HTTP/1.1\r\n\r\n", b"GET / |end"),
    (b"GET / HTTP/1.0\r\n\r\n", b"GET /  last|end"),
    (b"\r\nGET / HTTP/1.1\n\n", b"GET / |end"),
    (b"get / HTTP/1.1\r\n\r\n", b"get / |end"),
    (b"GET * HTTP/1.1\r\n\r\n", b"GET * |end"),
    (
        b"GET http://h/p?at=1 HTTP/1.1\r\n\r\n",
        b"GET http://h/p at=1 |end",
    ),
    (
        b"GET /p?x&at=a%20b+c%2&at=2 HTTP/1.1\r\n\r\n",
        b"GET /p at=a b c%2 |end",
    ),
    (b"GET /p?at HTTP/1.1\r\n\r\n", b"GET /p at= |end"),
    (b"GET /%7?a%74=1?2 HTTP/1.1\r\n\r\n", b"GET /%7 at=1?2 |end"),
    (
        b"GET / HTTP/1.1\r\ncOnnection: \tClOSE \r\n\r\nGET",
        b"GET /  last|Cut",
    ),
    (
        b"GET / HTTP/1.1\r\nConnection: close, x\r\n\r\n",
        b"GET / |end",
    ),
    (
        b"GET / HTTP/1.1\r\ncontent-length: 003\r\n\r\nabcGET",
        b"GET / abc|Cut",
    ),
    (
        b"GET / HTTP/1.1\r\nExpect: 100-continue\r\n\r\n",
        b"GET / |end",
    ),
    (b"POST / HTTP/1.1\r\n\r\n", b"NoLength"),
    (
        b"POST / HTTP/1.1\r\nContent-Length: 0\r\n\r\n",
        b"POST / |end",
    ),
    (
        b"GET / HTTP/1.1\r\nTransfer-Encoding: chunked\r\n\r\n0\r\n\r\n",
        b"NoLength",
    ),
    (
        b"GET / HTTP/1.1\r\nContent-Length: x\r\ntransfer-encoding:\r\n\r\n",
        b"NoLength",
    ),
    (
        b"GET / HTTP/1.1\r\nContent-Length: 1\r\nContent-Length: 1\r\n\r\na",
        b"Head",
    ),
    (
        b"GET / HTTP/1.1\r\nContent-Length: 1\r\nContent-Length: 2\r\n\r\nab",
        b"Head",
    ),
    (b"GET / HTTP/1.1\r\nContent-Length: +1\r\n\r\na", b"Head"),
    (b"GET / HTTP/1.1\r\nContent-Length: -1\r\n\r\na", b"Head"),
    (b"GET / HTTP/1.1\r\nContent-Length: 1 1\r\n\r\na", b"Head"),
    (b"GET / HTTP/1.1\r\nContent-Length:\r\n\r\na", b"Head"),
    (b"GET / HTTP/1.1\r\nContent-Length: 0x1\r\n\r\na", b"Head"),
    (
        b"GET / HTTP/1.1\r\nContent-Length: 68157440\r\n\r\na",
        b"Cut",
    ),
    (
        b"GET / HTTP/1.1\r\nContent-Length: 68157441\r\n\r\na",
        b"BodyTooLong",
    ),
    (
        b"GET / HTTP/1.1\r\nContent-Length: 9999999999999999999\r\n\r\n",
        b"BodyTooLong",
    ),
    (
        b"GET / HTTP/1.1\r\nContent-Length: 18446744073709551617\r\n\r\n",
        b"Head",
    ),
    (
        b"GET / HTTP/1.1\r\nContent-Length: 0000000000000000001\r\n\r\na",
        b"GET / a|end",
    ),
    (b"GET / HTTP/1.1\r\nA: b\r\n c\r\n\r\n", b"Head"),
    (b"GET / HTTP/1.1\r\nA : b\r\n\r\n", b"Head"),
    (b"GET / HTTP/1.1\r\nA: b\rc\r\n\r\n", b"Head"),
    (b"GET / HTTP/1.1\r\nA: b\0c\r\n\r\n", b"Head"),
    (b"GET /\n\n", b"Head"),
    (b"GET / HTTP/0.9\r\n\r\n", b"Head"),
    (b"GET / HTTP/1.2\r\n\r\n", b"Head"),
    (b"PRI * HTTP/2.0\r\n\r\nSM\r\n\r\n", b"Head"),
    (b"\x16\x03\x01\x02\x00\x01\x00\x01", b"Head"),
    (b"GET / HTTP/1.1\r\n\r\n\r\n", b"GET / |Cut"),
];

#[test]
fn requests_are_taken_or_refused_by_name(rt: HostRuntime) -> Result<(), Fail> {
    let alloc = rt.alloc();
    for (input, expected) in REQUESTS {
        for piece in [1, 2, 3, 7, 1000] {
            let text = told(alloc, input, piece, &[])?;
            assert!(rt;
                text.as_slice() == *expected,
                "{piece}: {:?} {:?}",
                text,
                input
            );
        }
    }
    Ok(())
}

fn two(alloc: Global) -> Result<Vec<u8>, Memory> {
    let mut bytes = POST.to_vec(alloc)?;
    bytes.extend_from_slice(GET)?;
    Ok(bytes)
}

fn expected(alloc: Global, count: usize) -> Result<Vec<u8>, Memory> {
    let mut text = Vec::new(alloc);
    let whole = POST.len() + GET.len();
    if count >= POST.len() {
        text.extend_from_slice(POST_TOLD)?;
    }
    if count == whole {
        text.extend_from_slice(GET_TOLD)?;
    }
    if count == 0 || count == POST.len() || count == whole {
        text.extend_from_slice(b"end")?;
    } else {
        text.extend_from_slice(b"Cut")?;
    }
    Ok(text)
}

#[test]
fn each_front_of_a_connection_is_told(rt: HostRuntime) -> Result<(), Fail> {
    let alloc = rt.alloc();
    let bytes = two(alloc)?;
    for count in 0..=bytes.len() {
        let wanted = expected(alloc, count)?;
        for piece in [1, 5, 1000] {
            let text = told(alloc, &bytes[..count], piece, &[])?;
            assert!(rt; text == wanted, "{count} {piece}: {:?}", text);
        }
    }
    Ok(())
}

// No read is begun where a whole request is held: so one that would fail does not matter.
#[test]
fn a_whole_request_is_taken_without_a_read(rt: HostRuntime) -> Result<(), Fail> {
    let alloc = rt.alloc();
    let bytes = two(alloc)?;
    let wanted = [POST_TOLD, GET_TOLD, b"ReadFault".as_slice()];
    let mut text = Vec::new(alloc);
    for part in wanted {
        text.extend_from_slice(part)?;
    }
    let all = told(alloc, bytes.as_slice(), 1000, &[2])?;
    assert!(rt; all == text, "{:?}", all);
    let reads = bytes.len() as u64 + 1;
    let slowly = told(alloc, bytes.as_slice(), 1, &[reads])?;
    assert!(rt; slowly == text, "{:?}", slowly);
    for number in 1..reads {
        let part = told(alloc, bytes.as_slice(), 1, &[number])?;
        let wanted = if number as usize <= POST.len() {
            b"ReadFault".as_slice()
        } else {
            b"POST /windows {\"load\":12}|ReadFault"
        };
        assert!(rt; part.as_slice() == wanted, "{number}: {:?}", part);
    }
    Ok(())
}

// A head of so many bytes, with so many fields besides the one that fills it.
fn head(alloc: Global, size: usize, fields: usize) -> Result<Vec<u8>, Memory> {
    let mut bytes = b"GET / HTTP/1.1\r\n".to_vec(alloc)?;
    for _ in 0..fields {
        bytes.extend_from_slice(b"A: b\r\n")?;
    }
    bytes.extend_from_slice(b"X: ")?;
    for _ in 0..size {
        if bytes.len() + 4 < size {
            bytes.push(b'x')?;
        }
    }
    bytes.extend_from_slice(b"\r\n\r\n")?;
    Ok(bytes)
}

#[test]
fn heads_have_their_limits(rt: HostRuntime) -> Result<(), Fail> {
    let alloc = rt.alloc();
    for (size, fields, expected) in [
        (16_384, 0, b"GET / |end".as_slice()),
        (16_385, 0, b"Head"),
        (20_000, 0, b"Head"),
        (1_000, 63, b"GET / |end"),
        (1_000, 64, b"Head"),
        (16_384, 63, b"GET / |end"),
    ] {
        let bytes = head(alloc, size, fields)?;
        assert_eq!(rt; bytes.len(), size);
        for piece in [1, 100, 16_384, 40_000] {
            let text = told(alloc, bytes.as_slice(), piece, &[])?;
            assert!(rt;
                text.as_slice() == expected,
                "{size} {fields} {piece}: {:?}",
                text
            );
        }
    }
    let bytes = head(alloc, 16_500, 0)?;
    for (count, expected) in [(16_383, b"Cut".as_slice()), (16_384, b"Head")] {
        let text = told(alloc, &bytes[..count.min(bytes.len())], 1_000, &[])?;
        assert!(rt; text.as_slice() == expected, "{count}: {:?}", text);
    }
    Ok(())
}

// Whether the bytes count up to this length, from 0 to 250 again and again.
fn is_count(bytes: &[u8], length: u64) -> bool {
    for at in 0..bytes.len() {
        if bytes[at] as usize != at % 251 {
            return false;
        }
    }
    bytes.len() as u64 == length
}

#[test]
fn long_bodies_are_taken_whole(rt: HostRuntime) -> Result<(), Fail> {
    let alloc = rt.alloc();
    for (length, piece) in [
        (100_000u64, 1_000),
        (100_000, 1),
        (70_000, 65_536),
        (3_000_000, 16_384),
    ] {
        let mut bytes = b"POST / HTTP/1.1\r\nContent-Length: ".to_vec(alloc)?;
        bytes.extend_from_slice(length.to_string(alloc)?.as_bytes())?;
        bytes.extend_from_slice(b"\r\n\r\n")?;
        for at in 0..length {
            bytes.push((at % 251) as u8)?;
        }
        bytes.extend_from_slice(GET)?;
        let mut link = MemoryLink::new(alloc, List::from_vec(bytes), piece, 0, List::new(alloc))?;
        let mut buffer = Buffer::new(alloc)?;
        let taken = read_request(alloc, &mut link, &mut buffer);
        assert!(rt; matches!(&taken, Ok(Some(request)) if is_count(request.body.items(), length)));
        let next = read_request(alloc, &mut link, &mut buffer);
        assert!(rt;
            matches!(&next, Ok(Some(request)) if request.method.bytes() == b"GET".as_slice())
        );
        assert!(rt; read_request(alloc, &mut link, &mut buffer) == Ok(None));
    }
    Ok(())
}

#[test]
fn a_buffer_is_spent_after_an_error(rt: HostRuntime) -> Result<(), Fail> {
    let alloc = rt.alloc();
    let bytes = b"POST / HTTP/1.1\r\n\r\nGET / HTTP/1.1\r\n\r\n".to_vec(alloc)?;
    let mut link = MemoryLink::new(alloc, List::from_vec(bytes), 100, 0, List::new(alloc))?;
    let mut buffer = Buffer::new(alloc)?;
    assert!(rt; !buffer.is_spent());
    for expected in [WireError::NoLength, WireError::Spent, WireError::Spent] {
        assert!(rt; read_request(alloc, &mut link, &mut buffer) == Err(expected));
        assert!(rt; buffer.is_spent());
    }
    Ok(())
}
