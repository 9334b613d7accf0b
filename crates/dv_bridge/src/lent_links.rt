//! The rows of a link that a feed has at a date and that miss no reference, lent by the link's table.
ghost use Rattle.std.specs.Prelude.{◌≡◌, ◌++◌, ◌∷◌, [], IfOk, OnOk, filter, map};
ghost use Rattle.std.specs.List.{filter_map, list_any};
ghost use Rattle.std.specs.Option.{option_to_list};
ghost use Rattle.dv_bridge.specs.BridgeRows.{is_whole, links_at};
ghost use Rattle.dv_bridge.specs.Joins.{told_row};
ghost use Rattle.dv_bridge.specs.KeyedRows.{bare};
ghost use Rattle.dv_bridge.specs.ZeroKeys as spec;

use dv_hub_link::LinkTable;
use dv_records::LinkRow;
use dv_text::{Digest, Key, List, Memory, Stamp};
use dv_track::StatusTable;
use std::alloc::Global;
use std::marker::Model;

/// A row of a link, and the keys of its references where they were looked up. All are lent: contracts see what is.
#[derive(Drop)]
pub struct PathLink<'a> {
    pub row: &'a LinkRow,
    pub keys: List<&'a Key>,
}

impl<'a> Model for PathLink<'a> {
    ghost use Rattle.std.specs.Prelude.{map};
    ghost use Rattle.dv_bridge.specs.KeyedRows.{KeyedRow};

    ghost Value = { KeyedRow };

    ghost view = { λ link. record { row = link.row.now; keys = map (λ key. key.now) link.keys } };
}

impl<'a> PathLink<'a> {
    /// The row. Takes no memory.
    pub fn row(&self) -> &'a LinkRow
        ensures { result.now ≡ self.now.row }
    {
        self.row
    }

    /// The keys. Takes no memory.
    pub fn keys(&self) -> &[&'a Key]
        ensures { map (λ key. key.now) result.now ≡ self.now.keys }
    {
        self.keys.items()
    }
}

// Whether a hash key is the zero key, which stands for a missing reference.
fn is_zero(digest: &Digest) -> bool
    ensures { result ≡ spec.is_zero digest.now }
{
    digest.bytes().iter().all(|byte| *byte == 0)
}

// Whether a reference is missing.
fn has_zero(hubs: &[Digest]) -> bool
    ensures { result ≡ list_any spec.is_zero hubs.now }
{
    hubs.iter().any(|hub| is_zero(hub))
}

/// Puts an item at the end.
pub(crate) fn put<T: Drop>(items: &mut Vec<T>, item: T) -> Result<(), Memory>
    ensures { OnOk result (items.new.items ≡ items.old.items ++ item ∷ []) }
{
    items.push(item)?;
    Ok(())
}

// Puts a row at the end, if there is one and it misses no reference.
fn put_link<'a>(
    alloc: Global,
    found: &mut Vec<PathLink<'a>>,
    row: Option<&'a LinkRow>,
) -> Result<(), Memory>
    ensures { OnOk result (found.new.items ≡ found.old.items ++ map bare (filter is_whole (option_to_list (told_row row.entry)))) }
{
    let Some(row) = row else {
        return Ok(());
    };
    if has_zero(row.hubs.items()) {
        return Ok(());
    }
    let keys = List::new(alloc);
    put(found, PathLink { row, keys })?;
    Ok(())
}

// Those of some rows that miss no reference.
fn links_of<'a>(alloc: Global, rows: &[Option<&'a LinkRow>]) -> Result<Vec<PathLink<'a>>, Memory>
    ensures { IfOk result (λ found. found.items ≡ map bare (filter is_whole (filter_map told_row rows.now))) }
{
    let mut found = Vec::with_capacity(alloc, rows.len())?;
    for row in rows {
        put_link(alloc, &mut found, *row)?;
    }
    Ok(found)
}

/// The rows of a link that a feed has at a date and that miss no reference, by hash key, without keys.
pub fn path_links<'a>(
    alloc: Global,
    links: &'a LinkTable,
    status: &StatusTable,
    date: Stamp,
) -> Result<Vec<PathLink<'a>>, Memory>
    ensures { IfOk result (λ found. found.items ≡ map bare (links_at links.now.rows status.now.rows date)) }
{
    let present = status.parents(date)?;
    let rows = links.rows_of(present.items())?;
    let found = links_of(alloc, &rows)?;
    Ok(found)
}
