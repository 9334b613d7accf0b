//! The text of a feed's mart with rows that a vault lends.

ghost use Rattle.std.specs.Prelude.{◌≡◌, map, IfOk, OnOk};
ghost use Rattle.std.specs.Io.KnownBytes.{Appends};
ghost use Rattle.csv.specs.Writing.{text_written};
ghost use Rattle.dv_print.specs.Texts as spec;
ghost use Rattle.dv_print.specs.Texts.{csv_text};
ghost use Rattle.dv_print.specs.Writers.{IsBetweenRecords};

use csv::Writer;
use dv_catalog::FeedDef;
use dv_contents::ContentRow;
use dv_print::{Fields, Recorded, feed_header, new_writer, put_record, put_row, text_of};
use dv_text::{Memory, Text};
use std::alloc::Global;
use std::io::Write;

// A row that a vault lends.
#[derive(Drop)]
struct LentRow<'a, 'b> {
    row: &'b ContentRow<'a>,
}

impl<'a, 'b> Recorded for LentRow<'a, 'b> {
    ghost record_of = { λ lent. spec.feed_record lent.row.now };

    fn put(&self, fields: &mut Fields) -> Result<(), Memory> {
        fields.push_lent_parts(self.row.refs())?;
        fields.push_texts(self.row.sub())?;
        fields.push_texts(self.row.attrs())
    }
}

// Writes the records of rows that are lent.
fn put_lent<W: Write + Drop>(
    writer: &mut Writer<W>,
    fields: &mut Fields,
    rows: &[ContentRow<'_>],
) -> Result<(), Memory>
    requires { IsBetweenRecords writer.old }
    ensures text { OnOk result (Appends (text_written W.contents writer.old) (text_written W.contents writer.new) (csv_text (map spec.feed_record rows.now))) }
    ensures between { OnOk result (IsBetweenRecords writer.new) }
{
    for row in rows {
        put_row(writer, fields, &LentRow { row })?;
    }
    Ok(())
}

/// The text of a feed's mart with rows that are lent.
pub(crate) fn lent_feed_text(
    alloc: Global,
    feed: &FeedDef,
    rows: &[ContentRow],
) -> Result<Text, Memory>
    ensures { IfOk result (λ text. text ≡ spec.feed_text feed.now rows.now) }
{
    let mut fields = feed_header(alloc, feed)?;
    let mut writer = new_writer(alloc);
    put_record(&mut writer, &fields)?;
    put_lent(&mut writer, &mut fields, rows)?;
    text_of(writer)
}
