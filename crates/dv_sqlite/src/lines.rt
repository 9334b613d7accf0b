//! Rows that statements put into a table, the texts of the statements, and that of the table.
use crate::kinds::StoredRow;
use crate::refusals::{Refusal, Result};
use dv_text::{Digest, List, Stamp, Text};
use sqlite::types::ValueRef;
use std::alloc::Global;

/// A value of a row.
#[derive(Clone, Copy)]
pub(crate) enum Given<'a> {
    Number(i64),
    Blob(&'a [u8]),
    Text(&'a [u8]),
    Date([u8; 19]),
}

/// A column's name, and the place of its item where it is of a list.
type Column = (&'static str, Option<usize>);

/// The values of the rows of one statement, row behind row, each by its number and then in the order of
/// the columns, which are those of the first row of all.
#[derive(Drop)]
pub(crate) struct Lines<'a> {
    alloc: Global,
    first: u64,
    pub(crate) begin: u64,
    pub(crate) next: u64,
    columns: List<Column>,
    at: usize,
    values: List<Given<'a>>,
}

/// A number as the file holds it. A fault where it is past what fits.
pub(crate) fn number(value: u64) -> Result<i64> {
    i64::try_from(value).ok().ok_or(Refusal::Fault)
}

impl<'a> Lines<'a> {
    /// No rows yet. The first one has this number.
    pub(crate) fn new(alloc: Global, first: u64) -> Lines<'a> {
        Lines {
            alloc,
            first,
            begin: first,
            next: first,
            columns: List::new(alloc),
            at: 0,
            values: List::new(alloc),
        }
    }

    /// Takes rows in place of those before. A fault where their columns are others.
    pub(crate) fn take<T: StoredRow>(&mut self, rows: &'a [T]) -> Result<()> {
        self.values = List::new(self.alloc);
        self.begin = self.next;
        for row in rows {
            self.at = 0;
            self.values.push(Given::Number(number(self.next)?))?;
            row.give(self)?;
            self.next = self.next.saturating_add(1);
        }
        Ok(())
    }

    /// The next value of a row.
    pub(crate) fn put(&mut self, column: Column, value: Given<'a>) -> Result<()> {
        if self.next == self.first {
            self.columns.push(column)?;
        } else if self.columns.items().get(self.at) != Some(&column) {
            return Err(Refusal::Fault);
        }
        self.at = self.at.saturating_add(1);
        self.values.push(value)?;
        Ok(())
    }

    /// The values that each row of a raw table begins with.
    pub(crate) fn head(&mut self, digest: &'a Digest, load: Stamp, source: &'a Text) -> Result<()> {
        self.put(("hash_key", None), Given::Blob(digest.bytes()))?;
        self.put(("load_date", None), Given::Date(load.print()))?;
        self.put(("record_source", None), Given::Text(source.bytes()))
    }

    /// The texts of a list.
    pub(crate) fn texts(&mut self, name: &'static str, texts: &'a List<Text>) -> Result<()> {
        for (at, text) in texts.items().iter().enumerate() {
            self.put((name, Some(at)), Given::Text(text.bytes()))?;
        }
        Ok(())
    }

    /// The digests of a list.
    pub(crate) fn digests(&mut self, name: &'static str, digests: &'a List<Digest>) -> Result<()> {
        for (at, digest) in digests.items().iter().enumerate() {
            self.put((name, Some(at)), Given::Blob(digest.bytes()))?;
        }
        Ok(())
    }

    /// The values as a statement takes them.
    pub(crate) fn values(&self) -> Result<List<ValueRef<'_>>> {
        let mut values = List::with_room(self.alloc, self.values.items().len())?;
        for value in self.values.items() {
            values.push(match value {
                Given::Number(number) => ValueRef::Int(*number),
                Given::Blob(bytes) => ValueRef::Blob(bytes),
                Given::Text(bytes) => ValueRef::Text(bytes),
                Given::Date(text) => ValueRef::Text(text),
            })?;
        }
        Ok(values)
    }

    /// What makes a table for such rows.
    pub(crate) fn create(&self, table: &str) -> Result<String> {
        let mut sql = format!(in self.alloc; "CREATE TABLE {table} (number INTEGER PRIMARY KEY")?;
        let values = self.values.items().iter().skip(1);
        for ((name, at), value) in self.columns.items().iter().zip(values) {
            let holds = if let Given::Blob(_) = value {
                "BLOB"
            } else {
                "TEXT"
            };
            match at {
                Some(at) => write!(sql, ", \"{name}{}\" {holds} NOT NULL", at.saturating_add(1))?,
                None => write!(sql, ", \"{name}\" {holds} NOT NULL")?,
            }
        }
        sql.push_str(") STRICT")?;
        Ok(sql)
    }

    /// What inserts so many of them into it.
    pub(crate) fn insert(&self, table: &str, rows: usize) -> Result<String> {
        let places = ", ?".repeat(self.alloc, self.columns.items().len())?;
        let others = format!(in self.alloc; ", (?{places})")?;
        let others = others.repeat(self.alloc, rows.saturating_sub(1))?;
        Ok(format!(in self.alloc; "INSERT INTO {table} VALUES (?{places}){others}")?)
    }
}
