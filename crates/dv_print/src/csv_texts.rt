//! The CSV of rows, as `csv` writes it by default (RFC 4180, section 2).

ghost use Rattle.std.specs.Prelude.{◌≡◌, ◌∷◌, [], filter, map, nat_le, Some, IfOk, OnOk};
ghost use Rattle.std.specs.Io.KnownBytes.{Appends};
ghost use Rattle.csv.specs.Writing.{default_writer, row_text, text_written};
ghost use Rattle.dv_print.specs.Texts.{csv_text};
ghost use Rattle.dv_print.specs.Writers.{IsBetweenRecords};

use crate::fields::Fields;
use crate::recorded::{RawRecorded, Recorded};
use csv::{Writer, WriterBuilder};
use dv_text::{Memory, Stamp, Text};
use std::alloc::Global;
use std::io::Write;

/// A writer of rows to memory.
pub fn new_writer(alloc: Global) -> Writer<Vec<u8>>
    ensures empty { text_written (λ bytes. Some bytes.items) result ≡ Some [] }
    ensures between { IsBetweenRecords result }
{
    WriterBuilder::new()
        .flexible(true)
        .from_writer(Vec::new(alloc))
}

/// Writes a record, and ends it.
#[tactic(auto, using(crate::proofs::RowTexts::row_alike))]
pub fn put_record<W: Write + Drop>(writer: &mut Writer<W>, fields: &Fields) -> Result<(), Memory>
    requires between { IsBetweenRecords writer.old }
    ensures text { OnOk result (Appends (text_written W.contents writer.old) (text_written W.contents writer.new) (row_text default_writer fields.now)) }
    ensures between { OnOk result (IsBetweenRecords writer.new) }
{
    match writer.write_byte_record(fields.as_record()) {
        Ok(()) => Ok(()),
        Err(_) => Err(Memory),
    }
}

/// Writes the record of a row.
pub fn put_row<W: Write + Drop, R: Recorded>(
    writer: &mut Writer<W>,
    fields: &mut Fields,
    row: &R,
) -> Result<(), Memory>
    requires between { IsBetweenRecords writer.old }
    ensures text { OnOk result (Appends (text_written W.contents writer.old) (text_written W.contents writer.new) (row_text default_writer (R.record_of row.now))) }
    ensures between { OnOk result (IsBetweenRecords writer.new) }
{
    fields.clear();
    row.put(fields)?;
    put_record(writer, fields)
}

/// Writes the records of rows.
pub fn put_rows<W: Write + Drop, R: Recorded>(
    writer: &mut Writer<W>,
    fields: &mut Fields,
    rows: &[R],
) -> Result<(), Memory>
    requires between { IsBetweenRecords writer.old }
    ensures text { OnOk result (Appends (text_written W.contents writer.old) (text_written W.contents writer.new) (csv_text (map R.record_of rows.now))) }
    ensures between { OnOk result (IsBetweenRecords writer.new) }
{
    for row in rows {
        put_row(writer, fields, row)?;
    }
    Ok(())
}

// Writes the records of the rows that aren't later than a date.
fn put_rows_up_to<W: Write + Drop, R: RawRecorded>(
    writer: &mut Writer<W>,
    fields: &mut Fields,
    rows: &[R],
    date: Stamp,
) -> Result<(), Memory>
    requires between { IsBetweenRecords writer.old }
    ensures text { OnOk result (Appends (text_written W.contents writer.old) (text_written W.contents writer.new) (csv_text (map R.Recorded.record_of (filter (λ row. nat_le (R.RawRow.place row).load date) rows.now)))) }
    ensures between { OnOk result (IsBetweenRecords writer.new) }
{
    for row in rows {
        if row.load() <= date {
            put_row(writer, fields, row)?;
        }
    }
    Ok(())
}

/// What was written.
pub fn text_of(writer: Writer<Vec<u8>>) -> Result<Text, Memory>
    ensures { IfOk result (λ text. text_written (λ bytes. Some bytes.items) writer ≡ Some text) }
{
    match writer.into_inner() {
        Ok(bytes) => Text::from_vec(bytes),
        Err(_) => Err(Memory),
    }
}

/// The text of a header and of rows.
pub(crate) fn rows_text<R: Recorded>(
    alloc: Global,
    header: Fields,
    rows: &[R],
) -> Result<Text, Memory>
    ensures { IfOk result (λ text. text ≡ csv_text (header ∷ map R.record_of rows.now)) }
{
    let mut fields = header;
    let mut writer = new_writer(alloc);
    put_record(&mut writer, &fields)?;
    put_rows(&mut writer, &mut fields, rows)?;
    text_of(writer)
}

/// The text of a header and of the rows that aren't later than a date.
pub(crate) fn rows_text_up_to<R: RawRecorded>(
    alloc: Global,
    header: Fields,
    rows: &[R],
    date: Stamp,
) -> Result<Text, Memory>
    ensures { IfOk result (λ text. text ≡ csv_text (header ∷ map R.Recorded.record_of (filter (λ row. nat_le (R.RawRow.place row).load date) rows.now))) }
{
    let mut fields = header;
    let mut writer = new_writer(alloc);
    put_record(&mut writer, &fields)?;
    put_rows_up_to(&mut writer, &mut fields, rows, date)?;
    text_of(writer)
}
