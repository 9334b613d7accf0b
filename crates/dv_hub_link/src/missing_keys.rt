// Keys whose parts are all empty, which stand for what is missing.
ghost use Rattle.std.specs.Prelude.{◌≡◌, [], IfOk, IsTrue, map, replicate, slice_get};
ghost use Rattle.dv_catalog.specs.Feeds.{parts_of};
ghost use Rattle.dv_records.specs.Deltas.{missing_in};
ghost use Rattle.dv_records.specs.ReadBack as read_back;
ghost use Rattle.dv_hub_link.specs.Items as spec;

use dv_catalog::{Catalog, TableId};
use dv_text::{Key, List, Memory, Text};
use std::alloc::Global;

// So many empty parts.
fn empty_parts(alloc: Global, count: u32) -> Result<List<Text>, Memory>
    ensures { IfOk result (λ made. made ≡ replicate count []) }
{
    let mut parts = List::new(alloc);
    for _ in 0..count {
        parts.push(Text::empty())?;
    }
    Ok(parts)
}

/// How many parts the keys of a hub have; none where there is no such hub. Takes no memory.
pub fn part_count(catalog: &Catalog, hub: u32) -> u32
    ensures { result ≡ parts_of (slice_get catalog.now.hubs hub) }
{
    if hub >= catalog.hub_count() {
        return 0;
    }
    catalog.hub(hub).parts
}

/// The missing key of a hub.
pub fn missing_key(alloc: Global, catalog: &Catalog, hub: u32) -> Result<Key, Memory>
    ensures { IfOk result (λ key. key ≡ read_back.missing_key catalog.now hub) }
{
    let parts = empty_parts(alloc, part_count(catalog, hub))?;
    Ok(Key { parts })
}

fn missing_keys(alloc: Global, catalog: &Catalog, hubs: &[u32]) -> Result<List<Key>, Memory>
    ensures { IfOk result (λ made. made ≡ map (read_back.missing_key catalog.now) hubs.now) }
{
    let mut keys = List::new(alloc);
    for hub in hubs {
        keys.push(missing_key(alloc, catalog, *hub)?)?;
    }
    Ok(keys)
}

/// The list of missing keys of the table of a hub or a link.
pub(crate) fn missing_refs(
    alloc: Global,
    catalog: &Catalog,
    table: TableId,
) -> Result<List<Key>, Memory>
    requires { IsTrue (spec.is_parent_table catalog.now table) }
    ensures { IfOk result (λ made. made ≡ missing_in catalog.now table) }
{
    match table {
        TableId::Hub(hub) => {
            let keys = missing_keys(alloc, catalog, &[hub])?;
            Ok(keys)
        }
        TableId::Link(link) => {
            let keys = missing_keys(alloc, catalog, catalog.link(link).hubs.items())?;
            Ok(keys)
        }
        _ => Ok(List::new(alloc)),
    }
}
