// The rows of a hub, which stand for lists of one key.
ghost use Rattle.std.specs.Prelude.{◌≡◌, ◌<◌, ◌++◌, IfOk, IsTrue, OnOk, length, nat_lt};
ghost use Rattle.std.specs.List.{filter_map, list_all};
ghost use Rattle.std.specs.Option.{option_to_list};
ghost use Rattle.dv_records.specs.Hubs as hubs;
ghost use Rattle.dv_hub_link.specs.HashedLists.{told};
ghost use Rattle.dv_hub_link.specs.NewRows.{hub_row_of};

use crate::hashed_lists::LentList;
use crate::told_lists::TellsLists;
use dv_catalog::{Catalog, record_source};
use dv_records::HubRow;
use dv_text::{Duplicate, Key, List, Memory, Stamp};
use std::alloc::Global;

// The key of a list of one key, copied; none of any other list.
fn only_key(refs: &[Key]) -> Result<Option<Key>, Memory>
    ensures { IfOk result (λ key. key ≡ hubs.only_key refs.now) }
{
    match refs {
        [only] => Ok(Some(only.copy()?)),
        _ => Ok(None),
    }
}

/// The keys of rows as lists of one.
#[derive(Drop)]
pub(crate) struct OwnKeys;

impl TellsLists<HubRow> for OwnKeys {
    ghost use Rattle.std.specs.Prelude.{◌∷◌, []};

    ghost list = { λ own row. row.key ∷ [] };

    fn stands_for(&self, row: &HubRow, refs: &[Key]) -> bool {
        match refs {
            [only] => row.key == *only,
            _ => false,
        }
    }

    fn told(&self, alloc: Global, row: &HubRow) -> Result<List<Key>, Memory> {
        let mut refs = List::with_room(alloc, 1)?;
        refs.push(row.key.copy()?)?;
        Ok(refs)
    }
}

// The row of a list of one key; none of any other list.
fn row_of(
    alloc: Global,
    load: Stamp,
    list: &LentList,
    catalog: &Catalog,
) -> Result<Option<HubRow>, Memory>
    requires { list.now.feed < length catalog.now.feeds }
    ensures { IfOk result (λ row. row ≡ hub_row_of catalog.now load (told list.now)) }
{
    let Some(key) = only_key(list.refs)? else {
        return Ok(None);
    };
    let source = record_source(alloc, catalog.feed(list.feed))?;
    Ok(Some(HubRow {
        digest: list.digest,
        load,
        source,
        key,
    }))
}

fn add(rows: &mut List<HubRow>, made: Option<HubRow>) -> Result<(), Memory>
    ensures { OnOk result (rows.new ≡ rows.old ++ option_to_list made) }
{
    if let Some(row) = made {
        rows.push(row)?;
    }
    Ok(())
}

/// The rows of lists of one key, in their order. Their keys alone are copied.
pub(crate) fn hub_rows(
    alloc: Global,
    load: Stamp,
    lists: &[LentList],
    catalog: &Catalog,
) -> Result<List<HubRow>, Memory>
    requires { IsTrue (list_all (λ list. nat_lt list.feed (length catalog.now.feeds)) lists.now) }
    ensures { IfOk result (λ made. made ≡ filter_map (λ list. hub_row_of catalog.now load (told list)) lists.now) }
{
    let mut rows = List::new(alloc);
    for list in lists {
        let made = row_of(alloc, load, list, catalog)?;
        add(&mut rows, made)?;
    }
    Ok(rows)
}
