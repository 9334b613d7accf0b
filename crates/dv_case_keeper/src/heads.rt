use crate::fields::{date, lines, number, pieces, place};
use crate::misfits::Misfit;
use dv_records::{Snap, SnapHead};
use dv_text::{List, Stamp, WindowHead};
use std::alloc::Global;

// A date that is so many seconds later.
fn later(first: Stamp, seconds: u64) -> Result<Stamp, Misfit> {
    let seconds = i64::try_from(seconds).ok().ok_or(Misfit::Line)?;
    let number = first.number().saturating_add(seconds);
    Stamp::from_number(number).ok_or(Misfit::Line)
}

// The numbers of feeds.
fn feeds(alloc: Global, words: &[&[u8]]) -> Result<List<u32>, Misfit> {
    let mut made = List::new(alloc);
    for word in words {
        made.push(place(word)?)?;
    }
    Ok(made)
}

// Puts the heads of so many windows behind others, a second apart, each with these feeds.
fn put_dated(
    alloc: Global,
    into: &mut List<WindowHead>,
    count: u64,
    first: Stamp,
    words: &[&[u8]],
) -> Result<(), Misfit> {
    for second in 0..count {
        let load = later(first, second)?;
        let feeds = feeds(alloc, words)?;
        into.push(WindowHead { load, feeds })?;
    }
    Ok(())
}

// Puts the heads of the windows that a line says behind others.
fn put_windows(alloc: Global, into: &mut List<WindowHead>, line: &[u8]) -> Result<(), Misfit> {
    let words = pieces(alloc, line, b' ')?;
    match words.as_slice() {
        [count, [b'x'], first, feeds @ ..] => {
            put_dated(alloc, into, number(count)?, date(first)?, feeds)
        }
        [first, feeds @ ..] => put_dated(alloc, into, 1, date(first)?, feeds),
        [] => Err(Misfit::Line),
    }
}

/// The heads of the windows that the lines of a block say.
pub(crate) fn windows(alloc: Global, block: &[u8]) -> Result<List<WindowHead>, Misfit> {
    let mut made = List::new(alloc);
    for line in lines(alloc, block)?.iter() {
        put_windows(alloc, &mut made, line)?;
    }
    Ok(made)
}

// Puts so many snapshots without tables behind others, a second apart.
fn put_heads(
    alloc: Global,
    into: &mut List<Snap>,
    count: u64,
    first: SnapHead,
) -> Result<(), Misfit> {
    for second in 0..count {
        let mut head = first;
        head.date = later(first.date, second)?;
        let tables = List::new(alloc);
        into.push(Snap { head, tables })?;
    }
    Ok(())
}

fn head_of(first: &[u8], rows: &[u8], weight: &[u8]) -> Result<SnapHead, Misfit> {
    Ok(SnapHead {
        date: date(first)?,
        rows: number(rows)?,
        weight: number(weight)?,
    })
}

/// Puts the snapshots without tables that words say behind others.
pub(crate) fn put_snapshots(
    alloc: Global,
    into: &mut List<Snap>,
    words: &[u8],
) -> Result<(), Misfit> {
    let words = pieces(alloc, words, b' ')?;
    match words.as_slice() {
        [count, [b'x'], first, rows, weight] => {
            put_heads(alloc, into, number(count)?, head_of(first, rows, weight)?)
        }
        [first, rows, weight] => put_heads(alloc, into, 1, head_of(first, rows, weight)?),
        _ => Err(Misfit::Words),
    }
}
