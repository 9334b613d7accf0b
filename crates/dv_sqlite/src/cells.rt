//! The values of rows that were read. One of another type, or that stands for nothing, is a fault.
use crate::refusals::{Refusal, Result};
use dv_text::{Digest, List, Stamp, Text};
use sqlite::Row;
use sqlite::types::{Bytes, ValueRef};
use std::alloc::Global;

/// The values of a row, from one on, and the names of its columns.
#[derive(Drop)]
pub(crate) struct Cells<'a> {
    pub(crate) alloc: Global,
    row: &'a Row,
    names: &'a [Bytes],
    at: usize,
}

impl<'a> Cells<'a> {
    /// The values of a row, whose columns have these names, or whose lists are not asked for.
    pub(crate) fn new(alloc: Global, row: &'a Row, names: &'a [Bytes]) -> Cells<'a> {
        Cells {
            alloc,
            row,
            names,
            at: 0,
        }
    }

    /// The values of the first row, if there is one.
    pub(crate) fn first(rows: &'a Vec<Row>) -> Option<Cells<'a>> {
        let alloc = *rows.allocator();
        rows.first().map(|row| Cells::new(alloc, row, &[]))
    }

    /// How many values are left.
    pub(crate) fn left(&self) -> usize {
        self.row.column_count().saturating_sub(self.at)
    }

    fn next(&mut self) -> Result<ValueRef<'a>> {
        let at = self.at;
        self.at = at.saturating_add(1);
        Ok(self.row.get_ref(at)?)
    }

    /// A number that is not negative.
    pub(crate) fn count(&mut self) -> Result<u64> {
        match self.next()? {
            ValueRef::Int(number) if number >= 0 => Ok(number as u64),
            _ => Err(Refusal::Fault),
        }
    }

    /// The bytes of a blob.
    pub(crate) fn blob(&mut self) -> Result<&'a [u8]> {
        match self.next()? {
            ValueRef::Blob(bytes) => Ok(bytes),
            _ => Err(Refusal::Fault),
        }
    }

    /// The bytes of a text.
    pub(crate) fn letters(&mut self) -> Result<&'a [u8]> {
        match self.next()? {
            ValueRef::Text(bytes) => Ok(bytes),
            _ => Err(Refusal::Fault),
        }
    }

    /// A text.
    pub(crate) fn text(&mut self) -> Result<Text> {
        Ok(Text::of(self.alloc, self.letters()?)?)
    }

    /// A digest.
    pub(crate) fn digest(&mut self) -> Result<Digest> {
        Digest::of(self.blob()?).ok_or(Refusal::Fault)
    }

    /// A date, which may be that of an open end; none where the text is empty.
    pub(crate) fn date_or_none(&mut self) -> Result<Option<Stamp>> {
        let text = self.letters()?;
        if text.is_empty() {
            return Ok(None);
        }
        if text == Stamp::OPEN.print().as_slice() {
            return Ok(Some(Stamp::OPEN));
        }
        Ok(Some(Stamp::read(text).ok_or(Refusal::Fault)?))
    }

    /// A date.
    pub(crate) fn date(&mut self) -> Result<Stamp> {
        self.date_or_none()?.ok_or(Refusal::Fault)
    }

    // How many columns from the next one on have names that begin so.
    fn count_of(&self, beginning: &str) -> usize {
        let names = self.names.get(self.at..).unwrap_or_default();
        let is_item = |name: &&Bytes| name.as_slice().starts_with(beginning.as_bytes());
        names.iter().take_while(is_item).count()
    }

    /// The texts of a list, by what the names of its columns begin with.
    pub(crate) fn texts(&mut self, beginning: &str) -> Result<List<Text>> {
        let count = self.count_of(beginning);
        let mut texts = List::with_room(self.alloc, count)?;
        for _ in 0..count {
            texts.push(self.text()?)?;
        }
        Ok(texts)
    }

    /// The digests of such a list.
    pub(crate) fn digests(&mut self, beginning: &str) -> Result<List<Digest>> {
        let count = self.count_of(beginning);
        let mut digests = List::with_room(self.alloc, count)?;
        for _ in 0..count {
            digests.push(self.digest()?)?;
        }
        Ok(digests)
    }
}
