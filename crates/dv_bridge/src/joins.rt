// Rows of bridges made of links, as many as there may be.
ghost use Rattle.std.specs.Prelude.{◌≡◌, ◌+◌, ◌<◌, ◌≤◌, ◌++◌, IfOk, IsErrOf, OnOk, length, map};
ghost use Rattle.std.specs.List.Sorted.{IsSortedByKey};
ghost use Rattle.dv_bridge.specs.BridgeRows.{first_row, longer_row};
ghost use Rattle.dv_bridge.specs.Joins.{joined_rows, row_with};
ghost use Rattle.dv_records.specs.Batches.{digest_cmp};
ghost use Rattle.dv_records.specs.Limits.{most_path_rows};

use crate::fault::BridgeFault;
use crate::keyed_links::{KeyedLink, key_at, met_links};
use crate::lent_links::PathLink;
use dv_records::{BridgeRow, LinkRow};
use dv_text::{Digest, List, Memory};
use std::alloc::Global;

// The most rows that a bridge may have.
const MOST_ROWS: usize = 1_000_000;

/// Whether so many rows more may be made. Takes no memory.
pub(crate) fn check_room(made: usize, more: usize) -> Result<(), BridgeFault>
    requires { made ≤ most_path_rows }
    ensures ok { OnOk result (made + more ≤ most_path_rows) }
    ensures too_large { IsErrOf result BridgeFault.TooLarge → most_path_rows < made + more }
{
    if more > MOST_ROWS - made {
        return Err(BridgeFault::TooLarge);
    }
    Ok(())
}

/// Puts hash keys at the end.
pub(crate) fn push_all(keys: &mut List<Digest>, more: &[Digest]) -> Result<(), Memory>
    ensures { OnOk result (keys.new ≡ keys.old ++ more.now) }
{
    for key in more {
        keys.push(*key)?;
    }
    Ok(())
}

// Hash keys, and behind them others.
fn both(alloc: Global, first: &[Digest], second: &[Digest]) -> Result<List<Digest>, Memory>
    ensures { IfOk result (λ keys. keys ≡ first.now ++ second.now) }
{
    let mut keys = List::with_room(alloc, first.len() + second.len())?;
    push_all(&mut keys, first)?;
    push_all(&mut keys, second)?;
    Ok(keys)
}

// The row of a link alone.
fn row_alone(alloc: Global, link: &LinkRow) -> Result<BridgeRow, Memory>
    ensures { IfOk result (λ row. row ≡ first_row link.now) }
{
    let links = both(alloc, &[link.digest], &[])?;
    let hubs = both(alloc, link.hubs.items(), &[])?;
    Ok(BridgeRow { links, hubs })
}

// A row with a link more.
fn longer(alloc: Global, row: &BridgeRow, link: &LinkRow) -> Result<BridgeRow, Memory>
    ensures { IfOk result (λ made. made ≡ longer_row row.now link.now) }
{
    let links = both(alloc, row.links.items(), &[link.digest])?;
    let hubs = both(alloc, row.hubs.items(), link.hubs.items())?;
    Ok(BridgeRow { links, hubs })
}

/// A row for each link.
pub(crate) fn rows_of(alloc: Global, links: &[PathLink<'_>]) -> Result<List<BridgeRow>, Memory>
    ensures { IfOk result (λ rows. rows ≡ map (λ link. first_row link.row) links.now) }
{
    let mut rows = List::with_room(alloc, links.len())?;
    for link in links {
        rows.push(row_alone(alloc, link.row())?)?;
    }
    Ok(rows)
}

// Puts a row with each of these links at the end.
fn push_longer(
    alloc: Global,
    made: &mut List<BridgeRow>,
    row: &BridgeRow,
    links: &[KeyedLink<'_, '_>],
) -> Result<(), Memory>
    ensures { OnOk result (made.new ≡ made.old ++ map (row_with row.now) links.now) }
{
    for one in links {
        made.push(longer(alloc, row, one.link.row())?)?;
    }
    Ok(())
}

/// Each row with each link whose key it has at this place of its hubs, as many as there may be.
pub(crate) fn joined(
    alloc: Global,
    rows: &[BridgeRow],
    place: u32,
    links: &[KeyedLink<'_, '_>],
) -> Result<List<BridgeRow>, BridgeFault>
    requires { IsSortedByKey (λ one. one.key) digest_cmp links.now }
    ensures ok { IfOk result (λ made. made ≡ joined_rows place links.now rows.now) }
    ensures few { IfOk result (λ made. length made ≤ most_path_rows) }
    ensures too_large { IsErrOf result BridgeFault.TooLarge → most_path_rows < length (joined_rows place links.now rows.now) }
{
    let mut made = List::new(alloc);
    for row in rows {
        let key = key_at(row.hubs.items(), place);
        let met = met_links(links, key);
        check_room(made.items().len(), met.len())?;
        push_longer(alloc, &mut made, row, met)?;
    }
    Ok(made)
}
