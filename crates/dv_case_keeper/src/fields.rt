use crate::misfits::Misfit;
use dv_text::{Digest, Key, List, Stamp, Text};
use std::alloc::Global;
use std::str;

/// The pieces of bytes between separators, of which there is one more than separators.
pub(crate) fn pieces(alloc: Global, bytes: &[u8], separator: u8) -> Result<Vec<&[u8]>, Misfit> {
    let mut made = Vec::new(alloc);
    for piece in bytes.split(|byte| *byte == separator) {
        made.push(piece)?;
    }
    Ok(made)
}

/// The same as texts.
pub(crate) fn texts(alloc: Global, bytes: &[u8], separator: u8) -> Result<List<Text>, Misfit> {
    let mut made = List::new(alloc);
    for piece in pieces(alloc, bytes, separator)?.iter() {
        made.push(Text::of(alloc, piece)?)?;
    }
    Ok(made)
}

/// The same, but no text where there is nothing.
pub(crate) fn some_texts(alloc: Global, bytes: &[u8], separator: u8) -> Result<List<Text>, Misfit> {
    if bytes.is_empty() {
        return Ok(List::new(alloc));
    }
    texts(alloc, bytes, separator)
}

/// A key with commas between its parts.
pub(crate) fn key(alloc: Global, bytes: &[u8]) -> Result<Key, Misfit> {
    Ok(Key {
        parts: texts(alloc, bytes, b',')?,
    })
}

/// A date.
pub(crate) fn date(bytes: &[u8]) -> Result<Stamp, Misfit> {
    if bytes == b"9999-12-31T23:59:59".as_slice() {
        return Ok(Stamp::OPEN);
    }
    Stamp::read(bytes).ok_or(Misfit::Line)
}

/// A digest in hexadecimal.
pub(crate) fn digest(alloc: Global, bytes: &[u8]) -> Result<Digest, Misfit> {
    match hex::decode(alloc, bytes) {
        Ok(bytes) => Digest::of(bytes.as_slice()).ok_or(Misfit::Line),
        Err(_) => Err(Misfit::Line),
    }
}

/// Digests with commas between them; none where there is nothing.
pub(crate) fn digests(alloc: Global, bytes: &[u8]) -> Result<List<Digest>, Misfit> {
    let mut made = List::new(alloc);
    if bytes.is_empty() {
        return Ok(made);
    }
    for piece in pieces(alloc, bytes, b',')?.iter() {
        made.push(digest(alloc, piece)?)?;
    }
    Ok(made)
}

/// A decimal number.
pub(crate) fn number(bytes: &[u8]) -> Result<u64, Misfit> {
    match str::from_utf8(bytes) {
        Ok(text) => text.parse().ok().ok_or(Misfit::Line),
        Err(_) => Err(Misfit::Line),
    }
}

/// A number of a feed, a table or a path.
pub(crate) fn place(bytes: &[u8]) -> Result<u32, Misfit> {
    u32::try_from(number(bytes)?).ok().ok_or(Misfit::Line)
}

/// The lines of a block.
pub(crate) fn lines(alloc: Global, block: &[u8]) -> Result<Vec<&[u8]>, Misfit> {
    let mut made = pieces(alloc, block, b'\n')?;
    // behind the last newline there is nothing
    if let Some([]) = made.last() {
        let _ = made.pop();
    }
    Ok(made)
}
