//! The texts of bridge tables.

ghost use Rattle.std.specs.Prelude.{◌≡◌, ◌++◌, flat_map, map, slice_get, IfOk, OnOk};
ghost use Rattle.std.specs.Io.KnownBytes.{Appends};
ghost use Rattle.csv.specs.Writing.{text_written};
ghost use Rattle.dv_catalog.specs.Tables.{feed_name, hub_name};
ghost use Rattle.dv_print.specs.Texts as spec;
ghost use Rattle.dv_print.specs.Texts.{csv_text};
ghost use Rattle.dv_print.specs.Writers.{IsBetweenRecords};

use crate::columns::push_dotted;
use crate::csv_texts::{new_writer, put_record, put_row, text_of};
use crate::fields::Fields;
use crate::hub_feeds::feed_hubs;
use crate::names::{name_of_feed, name_of_hub};
use crate::recorded::Recorded;
use csv::Writer;
use dv_catalog::{Catalog, PathDef};
use dv_records::BridgeRow;
use dv_text::{Memory, Stamp, Text};
use std::alloc::Global;
use std::io::Write;

// A row with the date of its table.
#[derive(Drop)]
struct DatedBridge<'a> {
    date: Stamp,
    row: &'a BridgeRow,
}

impl<'a> Recorded for DatedBridge<'a> {
    ghost record_of = { λ dated. spec.bridge_record dated.date dated.row.now };

    fn put(&self, fields: &mut Fields) -> Result<(), Memory> {
        fields.push_stamp(self.date)?;
        fields.push_digests(self.row.links.items())?;
        fields.push_digests(self.row.hubs.items())
    }
}

// Puts the names of feeds at the end.
fn push_names(catalog: &Catalog, header: &mut Fields, feeds: &[u32]) -> Result<(), Memory>
    ensures { OnOk result (header.new ≡ header.old ++ map (λ feed. feed_name (slice_get catalog.now.feeds feed)) feeds.now) }
{
    for feed in feeds {
        header.push(name_of_feed(catalog, *feed))?;
    }
    Ok(())
}

// Puts the names of hubs at the end, each behind the name of a feed.
fn push_hubs(
    alloc: Global,
    catalog: &Catalog,
    header: &mut Fields,
    feed: &[u8],
    hubs: &[u32],
) -> Result<(), Memory>
    ensures { OnOk result (header.new ≡ header.old ++ map (λ hub. spec.dotted feed.now (hub_name (slice_get catalog.now.hubs hub))) hubs.now) }
{
    for hub in hubs {
        push_dotted(alloc, header, feed, name_of_hub(catalog, *hub))?;
    }
    Ok(())
}

// Puts a column at the end for each hub of each feed's references.
fn push_feeds(
    alloc: Global,
    catalog: &Catalog,
    header: &mut Fields,
    feeds: &[u32],
) -> Result<(), Memory>
    ensures { OnOk result (header.new ≡ header.old ++ flat_map (spec.bridge_hub_columns catalog.now) feeds.now) }
{
    for feed in feeds {
        let name = name_of_feed(catalog, *feed);
        push_hubs(alloc, catalog, header, name, feed_hubs(catalog, *feed))?;
    }
    Ok(())
}

fn bridge_header(alloc: Global, catalog: &Catalog, feeds: &[u32]) -> Result<Fields, Memory>
    ensures { IfOk result (λ header. header ≡ spec.bridge_header catalog.now feeds.now) }
{
    let mut header = Fields::new(alloc);
    header.push(b"snapshot")?;
    push_names(catalog, &mut header, feeds)?;
    push_feeds(alloc, catalog, &mut header, feeds)?;
    Ok(header)
}

// Writes the records of rows with the date of their table.
fn put_dated<W: Write + Drop>(
    writer: &mut Writer<W>,
    fields: &mut Fields,
    date: Stamp,
    rows: &[BridgeRow],
) -> Result<(), Memory>
    requires { IsBetweenRecords writer.old }
    ensures text { OnOk result (Appends (text_written W.contents writer.old) (text_written W.contents writer.new) (csv_text (map (spec.bridge_record date) rows.now))) }
    ensures between { OnOk result (IsBetweenRecords writer.new) }
{
    for row in rows {
        put_row(writer, fields, &DatedBridge { date, row })?;
    }
    Ok(())
}

/// The text of a path's bridge table with these rows: a header, and for each row the date, the hash keys of the path's
/// links, and the hash keys of the hubs of each link.
pub fn bridge_text(
    alloc: Global,
    catalog: &Catalog,
    path: &PathDef,
    date: Stamp,
    rows: &[BridgeRow],
) -> Result<Text, Memory>
    ensures { IfOk result (λ text. text ≡ spec.bridge_text catalog.now path.now.feeds date rows.now) }
{
    let mut fields = bridge_header(alloc, catalog, path.feeds.items())?;
    let mut writer = new_writer(alloc);
    put_record(&mut writer, &fields)?;
    put_dated(&mut writer, &mut fields, date, rows)?;
    text_of(writer)
}
