// The content of a feed at a date, read back from the vault: the parents that the status table says are
// present, each with its business keys and the attributes that are valid for it (Linstedt and Olschimke
// 2015, chapter 5, on status tracking).
ghost use Rattle.std.specs.Prelude.{◌≡◌, ◌<◌, ◌++◌, IfOk, IsTrue, List as list_of, None, OnOk, Some, length, nat_lt, replicate, slice_get};
ghost use Rattle.std.specs.List.{filter_map, list_all, zip};
ghost use Rattle.std.specs.Option.{option_to_list};
ghost use Rattle.dv_text.specs.declared.rows.Window.{Window};
ghost use Rattle.dv_text.specs.Keys.{Hashes};
ghost use Rattle.dv_catalog.specs.declared.entries.FeedDef.{FeedDef};
ghost use Rattle.dv_records.specs.Marts.{feed_mart};
ghost use Rattle.dv_records.specs.ReadBack as spec;
ghost use Rattle.dv_contents.specs.Contents.{parents_read};
ghost use Rattle.dv_contents.specs.Contents as contents;
ghost use Rattle.dv_vault.specs.Vaults.{HasSealed};

use crate::content_rows::{ContentRow, copied_rows};
use crate::fronts::sorted_rows;
use crate::lenders::{Lender, missing_keys};
use crate::multi_contents::multi_rows_read;
use dv_catalog::{FeedDef, Parent};
use dv_records::{HubRow, LinkRow, SatRow};
use dv_text::{Digest, Key, List, Memory, NRow, Stamp, Text};
use dv_vault::Vault;
use std::alloc::Global;

// So many times no row.
fn no_rows<'a>(alloc: Global, count: usize) -> Result<Vec<Option<&'a SatRow>>, Memory>
    ensures { IfOk result (λ none. none.items ≡ replicate count None) }
{
    let mut none = Vec::with_capacity(alloc, count)?;
    for _ in 0..count {
        none.push(None)?;
    }
    Ok(none)
}

// The row of a satellite that is valid for each parent at a date; none where the feed has no attributes.
fn valid_rows<'a>(
    lender: &Lender<'a>,
    definition: &FeedDef,
    feed: u32,
    parents: &[Digest],
    date: Stamp,
) -> Result<Vec<Option<&'a SatRow>>, Memory>
    ensures { IfOk result (λ valid. contents.AreValid lender.now.vault.now.tables definition.now feed date parents.now valid.items) }
{
    if definition.attrs.items().is_empty() {
        return no_rows(lender.alloc, parents.len());
    }
    let vault = lender.vault;
    match vault.sat(feed) {
        Some(sat) => sat.each_at(parents, date),
        None => no_rows(lender.alloc, parents.len()),
    }
}

// The attributes of a satellite's row; none where there is no row.
fn attrs_of<'a>(valid: Option<&'a SatRow>) -> &'a [Text]
    ensures { result.now ≡ contents.valid_attrs valid.entry }
{
    match valid {
        Some(row) => row.attrs.items(),
        None => &[],
    }
}

// The row with the key of a hub's row and the attributes of a satellite's; none where there is no row of a hub.
fn key_row<'a>(
    alloc: Global,
    row: Option<&'a HubRow>,
    valid: Option<&'a SatRow>,
) -> Result<Option<ContentRow<'a>>, Memory>
    ensures { IfOk result (λ made. made ≡ contents.key_row row.entry valid.entry) }
{
    let Some(row) = row else {
        return Ok(None);
    };
    let mut refs = List::with_room(alloc, 1)?;
    refs.push(&row.key)?;
    Ok(Some(ContentRow {
        refs,
        sub: &[],
        attrs: attrs_of(valid),
    }))
}

// The rows with the keys of hub rows and the attributes of satellite rows.
fn key_rows<'a>(
    alloc: Global,
    found: &[Option<&'a HubRow>],
    valid: &[Option<&'a SatRow>],
) -> Result<Vec<ContentRow<'a>>, Memory>
    ensures { IfOk result (λ rows. rows.items ≡ filter_map (λ (row, valid). contents.key_row row valid) (zip found.now valid.now)) }
{
    let mut rows = Vec::with_capacity(alloc, found.len())?;
    for (row, valid) in found.iter().zip(valid) {
        add(&mut rows, key_row(alloc, *row, *valid)?)?;
    }
    Ok(rows)
}

// The row with the keys that a link's row points to and the attributes of a satellite's; none where there is no row of
// a link.
fn list_row<'a>(
    lender: &Lender<'a>,
    hubs: &[u32],
    row: Option<&'a LinkRow>,
    valid: Option<&'a SatRow>,
) -> Result<Option<ContentRow<'a>>, Memory>
    requires { IsTrue (list_all (λ hub. nat_lt hub (length lender.now.vault.now.mapping.hubs)) hubs.now) }
    ensures { IfOk result (λ made. made ≡ contents.list_row lender.now.vault.now.mapping lender.now.vault.now.tables hubs.now row.entry valid.entry) }
{
    let Some(row) = row else {
        return Ok(None);
    };
    let refs = lender.keys(hubs, row.hubs.items())?;
    Ok(Some(ContentRow {
        refs,
        sub: &[],
        attrs: attrs_of(valid),
    }))
}

// The rows with the keys that link rows point to and the attributes of satellite rows.
fn list_rows<'a>(
    lender: &Lender<'a>,
    hubs: &[u32],
    found: &[Option<&'a LinkRow>],
    valid: &[Option<&'a SatRow>],
) -> Result<Vec<ContentRow<'a>>, Memory>
    requires { IsTrue (list_all (λ hub. nat_lt hub (length lender.now.vault.now.mapping.hubs)) hubs.now) }
    ensures { IfOk result (λ rows. rows.items ≡ filter_map (λ (row, valid). contents.list_row lender.now.vault.now.mapping lender.now.vault.now.tables hubs.now row valid) (zip found.now valid.now)) }
{
    let mut rows = Vec::with_capacity(lender.alloc, found.len())?;
    for (row, valid) in found.iter().zip(valid) {
        add(&mut rows, list_row(lender, hubs, *row, *valid)?)?;
    }
    Ok(rows)
}

/// Puts a row, if there is one, at the end.
pub(crate) fn add<R: Drop>(rows: &mut Vec<R>, row: Option<R>) -> Result<(), Memory>
    ensures { OnOk result (rows.new.items ≡ rows.old.items ++ option_to_list row) }
{
    if let Some(row) = row {
        rows.push(row)?;
    }
    Ok(())
}

// The rows of parents in a hub, where the rows of their satellite are known.
fn hub_rows_read<'a>(
    lender: &Lender<'a>,
    hub: u32,
    parents: &[Digest],
    valid: &[Option<&'a SatRow>],
) -> Result<Vec<ContentRow<'a>>, Memory>
    requires { hub < length lender.now.vault.now.mapping.hubs }
    ensures { IfOk result (λ rows. contents.AreRowsOf lender.now.vault.now.mapping lender.now.vault.now.tables (Parent.Hub hub) parents.now valid.now rows.items) }
{
    let vault = lender.vault;
    let found = vault.hub(hub).rows_of(parents)?;
    let rows = key_rows(lender.alloc, &found, valid)?;
    Ok(rows)
}

// The rows of parents in a link, where the rows of their satellite are known.
fn link_rows_read<'a>(
    lender: &Lender<'a>,
    link: u32,
    parents: &[Digest],
    valid: &[Option<&'a SatRow>],
) -> Result<Vec<ContentRow<'a>>, Memory>
    requires { link < length lender.now.vault.now.mapping.links }
    ensures { IfOk result (λ rows. contents.AreRowsOf lender.now.vault.now.mapping lender.now.vault.now.tables (Parent.Link link) parents.now valid.now rows.items) }
{
    let vault = lender.vault;
    let found = vault.link(link).rows_of(parents)?;
    let rows = list_rows(lender, lender.link_hubs(link), &found, valid)?;
    Ok(rows)
}

// The rows of parents, of a feed without a sub.
fn rows_read<'a>(
    lender: &Lender<'a>,
    feed: u32,
    parents: &[Digest],
    date: Stamp,
) -> Result<Vec<ContentRow<'a>>, Memory>
    requires { feed < length lender.now.vault.now.mapping.feeds }
    ensures { IfOk result (λ rows. (defined : FeedDef) → slice_get lender.now.vault.now.mapping.feeds feed ≡ Some defined
        → rows.items ≡ filter_map (spec.row_read lender.now.vault.now.mapping lender.now.vault.now.tables defined feed date) parents.now) }
{
    let definition = lender.feed(feed);
    let valid = valid_rows(lender, definition, feed, parents, date)?;
    match definition.parent {
        Parent::Hub(hub) => hub_rows_read(lender, hub, parents, &valid),
        Parent::Link(link) => link_rows_read(lender, link, parents, &valid),
    }
}

// The rows of parents, of a feed with a sub or without.
fn rows_of_parents<'a>(
    lender: &Lender<'a>,
    feed: u32,
    parents: &[Digest],
    date: Stamp,
) -> Result<Vec<ContentRow<'a>>, Memory>
    requires { feed < length lender.now.vault.now.mapping.feeds }
    ensures { IfOk result (λ rows. (definition : FeedDef) → slice_get lender.now.vault.now.mapping.feeds feed ≡ Some definition
        → rows.items ≡ parents_read lender.now.vault.now.mapping lender.now.vault.now.tables definition feed date parents.now) }
{
    if lender.feed(feed).sub.items().is_empty() {
        rows_read(lender, feed, parents, date)
    } else {
        multi_rows_read(lender, feed, parents, date)
    }
}

/// The rows of a feed in the last sealed window that has the feed and is not later than the date, read back
/// from the tables, by references, then sub, then attributes. Their keys and texts are lent: by the tables,
/// and by the missing keys where a reference is missing. Conditions: the feed is in the mapping, and the
/// missing keys are those of its hubs.
pub fn lent_content<'a>(
    vault: &'a Vault,
    missing: &'a [Key],
    feed: u32,
    date: Stamp,
) -> Result<List<ContentRow<'a>>, Memory>
    requires feed { feed < length vault.now.mapping.feeds }
    requires missing { missing.now ≡ contents.missing_keys vault.now.mapping }
    ensures read { IfOk result (λ rows. rows ≡ spec.any_content_read vault.now.mapping vault.now.tables feed date) }
    ensures told { IfOk result (λ rows. (hashes : Hashes) (sealed : list_of Window) → HasSealed hashes sealed vault.now → rows ≡ feed_mart sealed feed date) }
{
    let lender = Lender::new(vault, missing);
    let parents = vault.status(feed).parents(date)?;
    let rows = rows_of_parents(&lender, feed, parents.items(), date)?;
    let rows = sorted_rows(lender.alloc, &rows)?;
    Ok(rows)
}

/// The rows of a feed in the last sealed window that has the feed and is not later than the date, read
/// back from the tables, by references, then sub, then attributes. Condition: the feed is in the mapping.
pub fn content(vault: &Vault, feed: u32, date: Stamp) -> Result<List<NRow>, Memory>
    requires { feed < length vault.now.mapping.feeds }
    ensures read { IfOk result (λ rows. rows ≡ spec.any_content_read vault.now.mapping vault.now.tables feed date) }
    ensures told { IfOk result (λ rows. (hashes : Hashes) (sealed : list_of Window) → HasSealed hashes sealed vault.now → rows ≡ feed_mart sealed feed date) }
{
    let missing = missing_keys(vault)?;
    let lent = lent_content(vault, missing.items(), feed, date)?;
    let rows = copied_rows(&lent)?;
    Ok(rows)
}
