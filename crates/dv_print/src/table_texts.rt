//! The texts of the raw tables at a date.

ghost use Rattle.std.specs.Prelude.{◌≡◌, ◌∷◌, ◌<◌, [], ◌++◌, codes, length, map, slice_get, IfOk, IsTrue, OnOk};
ghost use Rattle.std.specs.Fmt.{decimal};
ghost use Rattle.dv_catalog.specs.TableLookups.{is_table_of};
ghost use Rattle.dv_catalog.specs.Tables.{hub_name};
ghost use Rattle.dv_records.specs.Vault.{rows_up_to};
ghost use Rattle.dv_print.specs.TableTexts as texts;
ghost use Rattle.dv_print.specs.Texts as spec;

use crate::csv_texts::rows_text_up_to;
use crate::fields::Fields;
use crate::names::name_of_hub;
use crate::recorded::RawRecorded;
use dv_catalog::{Catalog, FeedDef, HubDef, TableId};
use dv_text::{Memory, Stamp, Text};
use std::alloc::Global;

// The columns that every raw table has.
fn raw_header(alloc: Global) -> Result<Fields, Memory>
    ensures { IfOk result (λ header. header ≡ spec.raw_header []) }
{
    let mut header = Fields::new(alloc);
    header.push(b"hash_key")?;
    header.push(b"load_date")?;
    header.push(b"record_source")?;
    Ok(header)
}

fn push_part(alloc: Global, header: &mut Fields, n: u32) -> Result<(), Memory>
    ensures { OnOk result (header.new ≡ header.old ++ (codes "part_" ++ decimal n) ∷ []) }
{
    let mut column = Vec::from_slice(alloc, b"part_")?;
    let number = n.to_string(alloc)?;
    column.extend_from_slice(number.as_bytes())?;
    header.push(column.as_slice())
}

fn hub_header(alloc: Global, hub: &HubDef) -> Result<Fields, Memory>
    ensures { IfOk result (λ header. header ≡ spec.hub_table_header hub.now) }
{
    let mut header = raw_header(alloc)?;
    for n in 0..hub.parts {
        push_part(alloc, &mut header, n + 1)?;
    }
    Ok(header)
}

// The names of hubs, by their places.
fn push_hub_names(catalog: &Catalog, header: &mut Fields, hubs: &[u32]) -> Result<(), Memory>
    ensures { OnOk result (header.new ≡ header.old ++ map (λ hub. hub_name (slice_get catalog.now.hubs hub)) hubs.now) }
{
    for hub in hubs {
        header.push(name_of_hub(catalog, *hub))?;
    }
    Ok(())
}

fn link_header(alloc: Global, catalog: &Catalog, link: u32) -> Result<Fields, Memory>
    requires { link < length catalog.now.links }
    ensures { IfOk result (λ header. header ≡ spec.link_table_header catalog.now link) }
{
    let mut header = raw_header(alloc)?;
    push_hub_names(catalog, &mut header, catalog.link(link).hubs.items())?;
    Ok(header)
}

fn sat_header(alloc: Global, feed: &FeedDef) -> Result<Fields, Memory>
    ensures { IfOk result (λ header. header ≡ spec.sat_table_header feed.now) }
{
    let mut header = raw_header(alloc)?;
    header.push(b"hash_diff")?;
    header.push_texts(feed.sub.items())?;
    header.push_texts(feed.attrs.items())?;
    Ok(header)
}

fn status_header(alloc: Global) -> Result<Fields, Memory>
    ensures { IfOk result (λ header. header ≡ spec.status_table_header) }
{
    let mut header = raw_header(alloc)?;
    header.push(b"status")?;
    Ok(header)
}

fn effect_header(alloc: Global) -> Result<Fields, Memory>
    ensures { IfOk result (λ header. header ≡ spec.effect_table_header) }
{
    let mut header = raw_header(alloc)?;
    header.push(b"begin")?;
    header.push(b"end")?;
    Ok(header)
}

/// The header of a raw table.
pub fn table_header(alloc: Global, catalog: &Catalog, table: TableId) -> Result<Fields, Memory>
    requires { IsTrue (is_table_of catalog.now table) }
    ensures { IfOk result (λ header. header ≡ texts.table_header catalog.now table) }
{
    match table {
        TableId::Hub(hub) => hub_header(alloc, catalog.hub(hub)),
        TableId::Link(link) => link_header(alloc, catalog, link),
        TableId::Sat(feed) | TableId::Multi(feed) => sat_header(alloc, catalog.feed(feed)),
        TableId::Status(_) => status_header(alloc),
        TableId::Effect(_) => effect_header(alloc),
    }
}

/// The text of the raw table at a place, which has rows of this kind, with those that aren't later
/// than a date. Condition: the mapping has the table's hub, link or feed.
pub fn table_text<R: RawRecorded>(
    alloc: Global,
    catalog: &Catalog,
    place: u32,
    rows: &[R],
    date: Stamp,
) -> Result<Text, Memory>
    requires { IsTrue (is_table_of catalog.now (R.RawRow.table place)) }
    ensures { IfOk result (λ text. text ≡ texts.table_text catalog.now (R.RawRow.table place) (rows_up_to date (R.RawRow.wrapped rows.now))) }
{
    let header = table_header(alloc, catalog, R::table(place))?;
    rows_text_up_to(alloc, header, rows, date)
}
