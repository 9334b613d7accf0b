//! The texts of point-in-time tables.

ghost use Rattle.std.specs.Prelude.{◌≡◌, ◌∷◌, [], ◌++◌, flat_map, map, IfOk, OnOk};
ghost use Rattle.std.specs.Io.KnownBytes.{Appends};
ghost use Rattle.csv.specs.Writing.{text_written};
ghost use Rattle.dv_print.specs.HubFeeds.{told};
ghost use Rattle.dv_print.specs.Texts as spec;
ghost use Rattle.dv_print.specs.Texts.{csv_text};
ghost use Rattle.dv_print.specs.Writers.{IsBetweenRecords};

use crate::columns::push_dotted;
use crate::csv_texts::{new_writer, put_record, put_row, text_of};
use crate::fields::Fields;
use crate::hub_feeds::{HubFeed, feeds_of};
use crate::recorded::Recorded;
use csv::Writer;
use dv_catalog::Catalog;
use dv_records::{PitCell, PitRow};
use dv_text::{Memory, Stamp, Text};
use std::alloc::Global;
use std::io::Write;

// A row with the date of its table.
#[derive(Drop)]
struct DatedRow<'a> {
    date: Stamp,
    row: &'a PitRow,
}

// Puts a load date at the end, or a blank for none.
fn push_load(fields: &mut Fields, load: Option<Stamp>) -> Result<(), Memory>
    ensures { OnOk result (fields.new ≡ fields.old ++ spec.load_or_blank load ∷ []) }
{
    match load {
        Some(load) => fields.push_stamp(load),
        None => fields.push(b""),
    }
}

// Puts the cells of a row at the end, two fields each.
fn push_cells(fields: &mut Fields, cells: &[PitCell]) -> Result<(), Memory>
    ensures { OnOk result (fields.new ≡ fields.old ++ flat_map (λ cell. spec.load_or_blank cell.load ∷ spec.yes_or_no cell.present ∷ []) cells.now) }
{
    for cell in cells {
        push_load(fields, cell.load)?;
        fields.push(if cell.present { b"Y" } else { b"N" })?;
    }
    Ok(())
}

impl<'a> Recorded for DatedRow<'a> {
    ghost record_of = { λ dated. spec.pit_record dated.date dated.row.now };

    fn put(&self, fields: &mut Fields) -> Result<(), Memory> {
        fields.push_digest(&self.row.key)?;
        fields.push_stamp(self.date)?;
        push_cells(fields, self.row.cells.items())
    }
}

// Puts the columns of feeds at the end, two each.
fn push_feeds(alloc: Global, header: &mut Fields, feeds: &[HubFeed<'_>]) -> Result<(), Memory>
    ensures { OnOk result (header.new ≡ header.old ++ flat_map (λ feed. spec.pit_columns feed.1) (map told feeds.now)) }
{
    for feed in feeds {
        let name = feed.definition.name.bytes();
        push_dotted(alloc, header, name, b"load")?;
        push_dotted(alloc, header, name, b"present")?;
    }
    Ok(())
}

fn pit_header(alloc: Global, catalog: &Catalog, hub: u32) -> Result<Fields, Memory>
    ensures { IfOk result (λ header. header ≡ spec.pit_header catalog.now hub) }
{
    let feeds = feeds_of(alloc, catalog, hub)?;
    let mut header = Fields::new(alloc);
    header.push(b"hash_key")?;
    header.push(b"snapshot")?;
    push_feeds(alloc, &mut header, feeds.as_slice())?;
    Ok(header)
}

// Writes the records of rows with the date of their table.
fn put_dated<W: Write + Drop>(
    writer: &mut Writer<W>,
    fields: &mut Fields,
    date: Stamp,
    rows: &[PitRow],
) -> Result<(), Memory>
    requires { IsBetweenRecords writer.old }
    ensures text { OnOk result (Appends (text_written W.contents writer.old) (text_written W.contents writer.new) (csv_text (map (spec.pit_record date) rows.now))) }
    ensures between { OnOk result (IsBetweenRecords writer.new) }
{
    for row in rows {
        put_row(writer, fields, &DatedRow { date, row })?;
    }
    Ok(())
}

/// The text of a hub's point-in-time table with these rows: a header, and for each row its hash key, the date,
/// and for each feed of the hub the load date of the valid satellite row, or a blank, and `Y` or `N` for whether
/// the key is present.
pub fn pit_text(
    alloc: Global,
    catalog: &Catalog,
    hub: u32,
    date: Stamp,
    rows: &[PitRow],
) -> Result<Text, Memory>
    ensures { IfOk result (λ text. text ≡ spec.pit_text catalog.now hub date rows.now) }
{
    let mut fields = pit_header(alloc, catalog, hub)?;
    let mut writer = new_writer(alloc);
    put_record(&mut writer, &fields)?;
    put_dated(&mut writer, &mut fields, date, rows)?;
    text_of(writer)
}
