ghost use Rattle.std.specs.Prelude.{◌<◌, IfOk};

use crate::faults::Fault;
use std::alloc::Global;

// What stands at the front of a text.
#[derive(Clone, Copy)]
enum Piece<'a> {
    Byte(u8),
    Nothing,
    Number,
    Times { count: u64, text: &'a [u8] },
    NoNewline,
}

const UNKNOWN: Fault = Fault::Wrong("nothing is written so behind a backslash");

const NO_TIMES: Fault = Fault::Wrong("a repetition is \\(N*TEXT)");

fn digit(byte: u8) -> Result<u8, Fault>
    ensures { IfOk result (λ digit. digit < 16) }
{
    match byte {
        b'0'..=b'9' => Ok(byte - b'0'),
        b'a'..=b'f' => Ok(byte - b'a' + 10),
        b'A'..=b'F' => Ok(byte - b'A' + 10),
        _ => Err(Fault::Wrong("a byte is \\xHH, in hexadecimal")),
    }
}

/// The number that a text is.
pub(crate) fn number(text: &str) -> Result<u64, Fault> {
    text.parse()
        .ok()
        .ok_or(Fault::Wrong("a number has to stand there"))
}

fn number_in(bytes: &[u8]) -> Result<u64, Fault> {
    match std::str::from_utf8(bytes) {
        Ok(text) => number(text),
        Err(_) => Err(NO_TIMES),
    }
}

// The bytes before the first of a kind, and those behind it.
fn parted(bytes: &[u8], at: u8) -> Result<(&[u8], &[u8]), Fault> {
    let Some(place) = bytes.iter().position(|byte| *byte == at) else {
        return Err(NO_TIMES);
    };
    let behind = bytes.get(place.saturating_add(1)..).unwrap_or(&[]);
    Ok((bytes.get(..place).unwrap_or(&[]), behind))
}

// A repetition, of which `\(` was taken, and what stands behind it.
fn times(rest: &[u8]) -> Result<(Piece<'_>, &[u8]), Fault> {
    let (inner, behind) = parted(rest, b')')?;
    let (count, text) = parted(inner, b'*')?;
    let count = number_in(count)?;
    Ok((Piece::Times { count, text }, behind))
}

// What stands behind a backslash, and the rest.
fn escaped(rest: &[u8]) -> Result<(Piece<'_>, &[u8]), Fault> {
    match rest {
        [] => Ok((Piece::NoNewline, rest)),
        [b'n', rest @ ..] => Ok((Piece::Byte(b'\n'), rest)),
        [b'r', rest @ ..] => Ok((Piece::Byte(b'\r'), rest)),
        [b't', rest @ ..] => Ok((Piece::Byte(b'\t'), rest)),
        [b's', rest @ ..] => Ok((Piece::Byte(b' '), rest)),
        [b'\\', rest @ ..] => Ok((Piece::Byte(b'\\'), rest)),
        [b'e', rest @ ..] => Ok((Piece::Nothing, rest)),
        [b'#', rest @ ..] => Ok((Piece::Number, rest)),
        [b'(', rest @ ..] => times(rest),
        [b'x', high, low, rest @ ..] => {
            let byte = digit(*high)? * 16 + digit(*low)?;
            Ok((Piece::Byte(byte), rest))
        }
        _ => Err(UNKNOWN),
    }
}

// The piece at the front of a text that has some, and the rest.
fn first_piece(text: &[u8]) -> Result<(Piece<'_>, &[u8]), Fault> {
    match text {
        [b'\\', rest @ ..] => escaped(rest),
        [byte, rest @ ..] => Ok((Piece::Byte(*byte), rest)),
        [] => Ok((Piece::Nothing, text)),
    }
}

// Puts a piece behind bytes, but for a repetition.
fn put_plain(
    alloc: Global,
    into: &mut Vec<u8>,
    piece: Piece<'_>,
    number: u64,
) -> Result<(), Fault> {
    match piece {
        Piece::Byte(byte) => into.push(byte)?,
        Piece::Nothing => {}
        Piece::Number => into.extend_from_slice(number.to_string(alloc)?.as_bytes())?,
        Piece::Times { .. } => return Err(NO_TIMES),
        Piece::NoNewline => return Err(UNKNOWN),
    }
    Ok(())
}

// A text that is repeated, as bytes.
fn part(alloc: Global, text: &[u8], number: u64) -> Result<Vec<u8>, Fault> {
    let mut bytes = Vec::new(alloc);
    let mut rest = text;
    for _ in 0..text.len() {
        let (next, behind) = first_piece(rest)?;
        put_plain(alloc, &mut bytes, next, number)?;
        rest = behind;
    }
    Ok(bytes)
}

fn put_times(
    alloc: Global,
    into: &mut Vec<u8>,
    text: &[u8],
    count: u64,
    number: u64,
) -> Result<(), Fault> {
    let bytes = part(alloc, text, number)?;
    for _ in 0..count {
        into.extend_from_slice(bytes.as_slice())?;
    }
    Ok(())
}

/// Puts the bytes of a text behind others, and answers whether a newline belongs behind them.
pub(crate) fn put_text(
    alloc: Global,
    into: &mut Vec<u8>,
    text: &str,
    number: u64,
) -> Result<bool, Fault> {
    let mut rest = text.as_bytes();
    for _ in 0..text.len() {
        let (next, behind) = first_piece(rest)?;
        match next {
            Piece::NoNewline => return Ok(false),
            Piece::Times { count, text } => put_times(alloc, into, text, count, number)?,
            plain => put_plain(alloc, into, plain, number)?,
        }
        rest = behind;
    }
    Ok(true)
}
