//! The extracts of the open window as bytes: a number is four bytes, the greatest first, a text the
//! count of its bytes and the bytes, a list the count of its items and the items, and anything else
//! its parts in order.
use crate::refusals::{Refusal, Result};
use dv_text::{Key, List, NRow, Staged, Text};
use std::alloc::Global;

fn put_count(out: &mut Vec<u8>, count: usize) -> Result<()> {
    let count = u32::try_from(count).ok().ok_or(Refusal::Fault)?;
    out.extend_from_slice(&count.to_be_bytes())?;
    Ok(())
}

fn put_texts(out: &mut Vec<u8>, texts: &[Text]) -> Result<()> {
    put_count(out, texts.len())?;
    for text in texts {
        put_count(out, text.bytes().len())?;
        out.extend_from_slice(text.bytes())?;
    }
    Ok(())
}

fn put_row(out: &mut Vec<u8>, row: &NRow) -> Result<()> {
    put_count(out, row.refs.items().len())?;
    for key in row.refs.items() {
        put_texts(out, key.parts.items())?;
    }
    put_texts(out, row.sub.items())?;
    put_texts(out, row.attrs.items())
}

/// The bytes of extracts. A fault where a count takes more than four bytes.
pub(crate) fn bytes_of(extracts: &List<Staged>) -> Result<Vec<u8>> {
    let mut out = Vec::new(extracts.allocator());
    put_count(&mut out, extracts.items().len())?;
    for extract in extracts.items() {
        put_count(&mut out, extract.feed as usize)?;
        put_count(&mut out, extract.rows.items().len())?;
        for row in extract.rows.items() {
            put_row(&mut out, row)?;
        }
    }
    Ok(out)
}

// Bytes that are read from the front.
#[derive(Drop)]
struct Reader<'a> {
    alloc: Global,
    rest: &'a [u8],
}

impl Reader<'_> {
    fn number(&mut self) -> Result<u32> {
        let (front, rest) = self.rest.split_first_chunk::<4>().ok_or(Refusal::Fault)?;
        self.rest = rest;
        Ok(u32::from_be_bytes(*front))
    }

    fn texts(&mut self) -> Result<List<Text>> {
        let mut texts = List::new(self.alloc);
        for _ in 0..self.number()? {
            let count = self.number()? as usize;
            let (front, rest) = self.rest.split_at_checked(count).ok_or(Refusal::Fault)?;
            texts.push(Text::of(self.alloc, front)?)?;
            self.rest = rest;
        }
        Ok(texts)
    }

    fn row(&mut self) -> Result<NRow> {
        let mut refs = List::new(self.alloc);
        for _ in 0..self.number()? {
            let parts = self.texts()?;
            refs.push(Key { parts })?;
        }
        let sub = self.texts()?;
        let attrs = self.texts()?;
        Ok(NRow { refs, sub, attrs })
    }

    fn extract(&mut self) -> Result<Staged> {
        let feed = self.number()?;
        let mut rows = List::new(self.alloc);
        for _ in 0..self.number()? {
            rows.push(self.row()?)?;
        }
        Ok(Staged { feed, rows })
    }
}

/// The extracts with these bytes. A fault where they are none's.
pub(crate) fn extracts_of(alloc: Global, bytes: &[u8]) -> Result<List<Staged>> {
    let mut from = Reader { alloc, rest: bytes };
    let mut extracts = List::new(alloc);
    for _ in 0..from.number()? {
        extracts.push(from.extract()?)?;
    }
    if !from.rest.is_empty() {
        return Err(Refusal::Fault);
    }
    Ok(extracts)
}
