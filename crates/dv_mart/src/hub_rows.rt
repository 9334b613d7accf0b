//! The rows of a hub's mart, lent by the columns of its feeds.

ghost use Rattle.std.specs.Prelude.{◌≡◌, ◌∷◌, ◌++◌, IfOk, OnOk, map};
ghost use Rattle.std.specs.Io.KnownBytes.{Appends};
ghost use Rattle.csv.specs.Writing.{default_writer, row_text, text_written};
ghost use Rattle.dv_print.specs.Texts.{csv_text, hub_record};
ghost use Rattle.dv_print.specs.Writers.{IsBetweenRecords};
ghost use Rattle.dv_mart.specs.HubContents as spec;

use crate::hub_columns::{HubColumn, cells_at, push_cells};
use crate::lent_keys::LentKey;
use csv::Writer;
use dv_print::{Fields, new_writer, put_record, text_of};
use dv_records::HubMartRow;
use dv_text::{Duplicate, Key, List, Memory, Text};
use std::alloc::Global;
use std::io::Write;
use std::marker::Model;

/// A row of a hub's mart: a key, and the cells at its place. Contracts see it as the row.
#[derive(Drop)]
pub(crate) struct LentRow<'a, 'b, 'c> {
    key: &'c Key,
    columns: &'c [HubColumn<'a, 'b>],
    place: usize,
}

impl<'a, 'b, 'c> Model for LentRow<'a, 'b, 'c> {
    ghost use Rattle.dv_records.specs.declared.mart_rows.HubMartRow.{HubMartRow};
    ghost use Rattle.dv_mart.specs.HubContents as spec;

    ghost Value = { HubMartRow };

    ghost view = { λ lent. spec.lent_row lent.key.now lent.columns.now lent.place };
}

impl<'a, 'b, 'c> LentRow<'a, 'b, 'c> {
    // A row of its own.
    fn copied(&self, alloc: Global) -> Result<HubMartRow, Memory>
        ensures { IfOk result (λ row. row ≡ self.now) }
    {
        let cells = cells_at(alloc, self.columns, self.place)?;
        let key = self.key.copy()?;
        Ok(HubMartRow { key, cells })
    }

    // Puts the fields of the row at the end.
    fn put(&self, fields: &mut Fields) -> Result<(), Memory>
        ensures { OnOk result (fields.new ≡ fields.old ++ hub_record self.now) }
    {
        fields.push_texts(self.key.parts.items())?;
        push_cells(fields, self.columns, self.place)
    }
}

/// A row for each key, of which columns have the cells.
pub(crate) fn lent_rows<'a, 'b, 'c>(
    alloc: Global,
    keys: &'c [LentKey<'_>],
    columns: &'c [HubColumn<'a, 'b>],
) -> Result<Vec<LentRow<'a, 'b, 'c>>, Memory>
    ensures { IfOk result (λ rows. rows.items ≡ spec.lent_rows columns.now keys.now) }
{
    let mut rows = Vec::with_capacity(alloc, keys.len())?;
    for (place, key) in keys.iter().enumerate() {
        let key = key.key();
        rows.push(LentRow {
            key,
            columns,
            place,
        })?;
    }
    Ok(rows)
}

/// Rows of their own.
pub(crate) fn copied_rows(
    alloc: Global,
    rows: &[LentRow<'_, '_, '_>],
) -> Result<List<HubMartRow>, Memory>
    ensures { IfOk result (λ made. made ≡ rows.now) }
{
    let mut made = List::with_room(alloc, rows.len())?;
    for row in rows {
        made.push(row.copied(alloc)?)?;
    }
    Ok(made)
}

// Writes the record of a row.
fn put_lent<W: Write + Drop>(
    writer: &mut Writer<W>,
    fields: &mut Fields,
    row: &LentRow<'_, '_, '_>,
) -> Result<(), Memory>
    requires { IsBetweenRecords writer.old }
    ensures text { OnOk result (Appends (text_written W.contents writer.old) (text_written W.contents writer.new) (row_text default_writer (hub_record row.now))) }
    ensures between { OnOk result (IsBetweenRecords writer.new) }
{
    fields.clear();
    row.put(fields)?;
    put_record(writer, fields)
}

// Writes the records of rows.
fn put_all_lent<W: Write + Drop>(
    writer: &mut Writer<W>,
    fields: &mut Fields,
    rows: &[LentRow<'_, '_, '_>],
) -> Result<(), Memory>
    requires { IsBetweenRecords writer.old }
    ensures text { OnOk result (Appends (text_written W.contents writer.old) (text_written W.contents writer.new) (csv_text (map hub_record rows.now))) }
    ensures between { OnOk result (IsBetweenRecords writer.new) }
{
    for row in rows {
        put_lent(writer, fields, row)?;
    }
    Ok(())
}

/// The text of a header and of rows.
pub(crate) fn lent_text(
    alloc: Global,
    header: Fields,
    rows: &[LentRow<'_, '_, '_>],
) -> Result<Text, Memory>
    ensures { IfOk result (λ text. text ≡ csv_text (header ∷ map hub_record rows.now)) }
{
    let mut fields = header;
    let mut writer = new_writer(alloc);
    put_record(&mut writer, &fields)?;
    put_all_lent(&mut writer, &mut fields, rows)?;
    text_of(writer)
}
