//! Path marts over the sealed windows of a vault.

ghost use Rattle.std.specs.Prelude.{◌≡◌, ◌<◌, ◌++◌, ◌∷◌, false, IfOk, IsErrOf, List as list_of, Ok, OnOk, length, map, true};
ghost use Rattle.std.specs.Io.KnownBytes.{Appends};
ghost use Rattle.csv.specs.Writing.{text_written};
ghost use Rattle.dv_text.specs.declared.rows.Window.{Window};
ghost use Rattle.dv_text.specs.Keys.{Hashes};
ghost use Rattle.dv_records.specs.Marts as marts;
ghost use Rattle.dv_vault.specs.Vaults.{HasSealed};
ghost use Rattle.dv_bridge.specs.Paths.{is_path_too_large};
ghost use Rattle.dv_bridge.specs.ZeroKeys.{HasZeroKeys};
ghost use Rattle.dv_print.specs.Texts.{csv_text};
ghost use Rattle.dv_print.specs.Writers.{IsBetweenRecords};
ghost use Rattle.dv_mart.specs.MartTexts as spec;
ghost use Rattle.dv_mart.specs.PathTables.{path_row, steps_along, way_record};
ghost use Rattle.dv_mart.specs.declared.whats.What.TheVariants as whats;

use crate::mart_faults::MartFault;
use crate::path_keys::all_sorted_links;
use csv::Writer;
use dv_bridge::{PathLink, Ways, path_ways};
use dv_contents::missing_keys;
use dv_print::{Fields, Recorded, new_writer, path_header, put_record, put_row, text_of};
use dv_records::PathRow;
use dv_text::{Duplicate, Key, List, Memory, Stamp, Text};
use dv_vault::Vault;
use std::alloc::Global;
use std::io::Write;

// A row that links lend.
#[derive(Drop)]
struct LentPath<'c, 'b, 'a> {
    links: &'c [&'b PathLink<'a>],
}

// Puts the parts of the keys of links at the end.
fn push_links(fields: &mut Fields, links: &[&PathLink<'_>]) -> Result<(), Memory>
    ensures { OnOk result (fields.new ≡ fields.old ++ way_record (map (λ link. link.now) links.now)) }
{
    for link in links {
        fields.push_lent_parts(link.keys())?;
    }
    Ok(())
}

impl<'c, 'b, 'a> Recorded for LentPath<'c, 'b, 'a> {
    ghost use Rattle.std.specs.Prelude.{map};
    ghost use Rattle.dv_mart.specs.PathTables.{way_record};

    ghost record_of = { λ lent. way_record (map (λ link. link.now) lent.links.now) };

    fn put(&self, fields: &mut Fields) -> Result<(), Memory> {
        push_links(fields, self.links)
    }
}

// Copies of keys.
fn copied_keys(alloc: Global, keys: &[&Key]) -> Result<List<Key>, Memory>
    ensures { IfOk result (λ made. made ≡ map (λ key. key.now) keys.now) }
{
    let mut made = List::with_room(alloc, keys.len())?;
    for key in keys {
        made.push(key.copy()?)?;
    }
    Ok(made)
}

// A row of its own.
fn copied_row(alloc: Global, links: &[&PathLink<'_>]) -> Result<PathRow, Memory>
    ensures { IfOk result (λ row. row ≡ path_row (steps_along (map (λ link. link.now) links.now))) }
{
    let mut steps = List::with_room(alloc, links.len())?;
    for link in links {
        steps.push(copied_keys(alloc, link.keys())?)?;
    }
    Ok(PathRow { steps })
}

// A row of its own for each way.
fn copied_rows(alloc: Global, ways: &Ways<'_, '_>) -> Result<List<PathRow>, Memory>
    ensures { IfOk result (λ rows. rows ≡ map (λ way. path_row (steps_along way)) ways.now) }
{
    let mut rows = List::with_room(alloc, ways.count())?;
    let mut links = Vec::new(alloc);
    for number in 0..ways.count() {
        links.clear();
        ways.put_way(number, &mut links)?;
        rows.push(copied_row(alloc, &links)?)?;
    }
    Ok(rows)
}

// Writes the record of each way.
fn put_ways<W: Write + Drop>(
    alloc: Global,
    writer: &mut Writer<W>,
    fields: &mut Fields,
    ways: &Ways<'_, '_>,
) -> Result<(), Memory>
    requires { IsBetweenRecords writer.old }
    ensures text { OnOk result (Appends (text_written W.contents writer.old) (text_written W.contents writer.new) (csv_text (map way_record ways.now))) }
    ensures between { OnOk result (IsBetweenRecords writer.new) }
{
    let mut links = Vec::new(alloc);
    for number in 0..ways.count() {
        links.clear();
        ways.put_way(number, &mut links)?;
        put_row(writer, fields, &LentPath { links: &links })?;
    }
    Ok(())
}

// The text of a header and of the rows that ways lend.
fn ways_text(alloc: Global, header: Fields, ways: &Ways<'_, '_>) -> Result<Text, Memory>
    ensures { IfOk result (λ text. text ≡ csv_text (header ∷ map way_record ways.now)) }
{
    let mut fields = header;
    let mut writer = new_writer(alloc);
    put_record(&mut writer, &fields)?;
    put_ways(alloc, &mut writer, &mut fields, ways)?;
    text_of(writer)
}

/// The mart of a path at a date: each choice of one reference list from the content of each of its feeds, of which none
/// is missing and neighbours have the same key of the hub that they share, in order. Condition: the mapping has the
/// path. `TooLarge` comes exactly where some first steps of the path give more than 1,000,000 rows.
///
/// Where the customer `1` placed the order `O1`, nobody is known to have placed `O2`, and `O1` has
/// the products `P1` and `P2`, there are two rows: `1`, `O1` with `O1`, `P1`, and with `O1`, `P2`.
pub fn path_mart(
    alloc: Global,
    vault: &Vault,
    path: u32,
    date: Stamp,
) -> Result<List<PathRow>, MartFault>
    requires { path < length vault.now.mapping.paths }
    ensures mart { IfOk result (λ rows. (hashes : Hashes) (sealed : list_of Window) → HasZeroKeys hashes → HasSealed hashes sealed vault.now → rows ≡ marts.path_mart vault.now.mapping sealed path date) }
    ensures fits { IfOk result (λ rows. (hashes : Hashes) (sealed : list_of Window) → HasZeroKeys hashes → HasSealed hashes sealed vault.now → is_path_too_large vault.now.mapping sealed path date ≡ false) }
    ensures too_large { IsErrOf result MartFault.TooLarge → (hashes : Hashes) (sealed : list_of Window) → HasZeroKeys hashes → HasSealed hashes sealed vault.now → is_path_too_large vault.now.mapping sealed path date ≡ true }
{
    let catalog = vault.catalog();
    catalog.note_valid();
    let definition = catalog.path(path);
    let missing = missing_keys(vault)?;
    let feeds = definition.feeds.items();
    let links = all_sorted_links(alloc, vault, missing.items(), feeds, date)?;
    let ways = path_ways(alloc, catalog, definition, &links)?;
    Ok(copied_rows(alloc, &ways)?)
}

/// The text of a path's mart at a date, written of keys that are lent. Condition: the mapping has the path. `TooLarge`
/// comes exactly where some first steps of the path give more than 1,000,000 rows.
pub(crate) fn path_mart_text(
    alloc: Global,
    vault: &Vault,
    path: u32,
    date: Stamp,
) -> Result<Text, MartFault>
    requires { path < length vault.now.mapping.paths }
    ensures text { IfOk result (λ text. (hashes : Hashes) (sealed : list_of Window) → HasZeroKeys hashes → HasSealed hashes sealed vault.now
        → spec.mart_text vault.now.mapping hashes sealed vault.now.tables (whats.Path path) date ≡ Ok text) }
    ensures too_large { IsErrOf result MartFault.TooLarge → spec.RefusesPath vault.now (whats.Path path) date }
{
    let catalog = vault.catalog();
    catalog.note_valid();
    let definition = catalog.path(path);
    let missing = missing_keys(vault)?;
    let feeds = definition.feeds.items();
    // In the order of their keys: then the ways come in the order of the mart, and are not sorted.
    let links = all_sorted_links(alloc, vault, missing.items(), feeds, date)?;
    let ways = path_ways(alloc, catalog, definition, &links)?;
    let header = path_header(alloc, catalog, feeds)?;
    Ok(ways_text(alloc, header, &ways)?)
}
