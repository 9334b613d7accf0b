// What a window adds to all tables.
ghost use Rattle.std.specs.Prelude.{◌≡◌, ◌+◌, ◌<◌, All, IfErr, IfOk, IfSome, IsTrue, Some, length, map, slice_get, sum_by};
ghost use Rattle.std.specs.List.{list_all};
ghost use Rattle.dv_text.specs.Keys.{hashes_of};
ghost use Rattle.dv_catalog.specs.Mappings.{is_valid};
ghost use Rattle.dv_catalog.specs.TableLookups.{is_table_of};
ghost use Rattle.dv_records.specs.declared.stores.TableRows.{TableRows};
ghost use Rattle.dv_records.specs.Deltas.{HasNoClash};
ghost use Rattle.dv_records.specs.RowViews.{are_up_to};
ghost use Rattle.dv_records.specs.States.{is_window};
ghost use Rattle.dv_records.specs.Stores.{no_rows as spec_no_rows, row_count};
ghost use Rattle.dv_records.specs.Weights.{rows_weight};
ghost use Rattle.dv_window_keys.specs.HashedWindows.{IsHashedWindow};
ghost use Rattle.dv_window_keys.specs.WindowItems.{IsKept};
ghost use Rattle.dv_vault.specs.Additions as spec;
ghost use Rattle.dv_vault.specs.Results.{IsDelta, IsFound};
ghost use Rattle.dv_vault.specs.Vaults.{added_to, entry_of, hashed_in, names_of_hubs};

use crate::additions::{AdditionFault, fault_of};
use crate::hub_keys::HubKeys;
use crate::results::{Found, take_batch};
use crate::tables::Table;
use dv_catalog::Catalog;
use dv_records::{DeltaFault, Rows, weight};
use dv_text::{KeyDigest, List, Memory};
use dv_window_keys::{HashedWindow, KeptKeys, kept_keys};
use std::alloc::Global;

// No rows for each of these tables.
pub(crate) fn none_of_all(alloc: Global, tables: &[Table]) -> Result<List<Rows>, Memory>
    ensures { IfOk result (λ made. made ≡ map (λ entry. spec_no_rows entry.table) (map entry_of tables.now)) }
{
    let mut made = List::new(alloc);
    for table in tables {
        made.push(Rows::none_of(alloc, table.id()))?;
    }
    Ok(made)
}

// How many rows batches have together. More than a number of 64 bits has room for find no room in memory.
pub(crate) fn count_all(batches: &[Rows]) -> Result<u64, Memory>
    ensures { IfOk result (λ count. count ≡ sum_by row_count batches.now) }
{
    let mut rows: u64 = 0;
    for batch in batches {
        rows = rows.checked_add(batch.count()).ok_or(Memory)?;
    }
    Ok(rows)
}

/// What a vault that weighs so much weighs with batches.
pub fn weight_with(weight_before: u64, batches: &[Rows]) -> Result<u64, Memory>
    ensures { IfOk result (λ w. w ≡ weight_before + sum_by rows_weight batches.now) }
{
    let mut sum = weight_before;
    for batch in batches {
        let more = u64::try_from(weight(batch)).map_err(|_| Memory)?;
        sum = sum.checked_add(more).ok_or(Memory)?;
    }
    Ok(sum)
}

/// The rows that a window adds to the table at a place, or the least collision that it makes there. What the
/// table of the window's keys keeps is not worked out again.
pub(crate) fn delta_of<'b, H: KeyDigest>(
    alloc: Global,
    tables: &[Table],
    place: usize,
    names: &HubKeys<'_>,
    window: &'b HashedWindow<'_>,
    kept: Option<&KeptKeys<'b>>,
    catalog: &Catalog,
    digest: &H,
) -> Result<Rows, DeltaFault>
    requires place { place < length tables.now }
    requires tables { IsTrue (list_all (λ entry. is_table_of catalog.now entry.table) (map entry_of tables.now)) }
    requires dated { IsTrue (are_up_to window.now.window.now.load (map entry_of tables.now)) }
    requires valid { IsTrue (is_valid catalog.now) }
    requires window { IsTrue (is_window catalog.now window.now.window.now) }
    requires gathered { IsHashedWindow (hashes_of H.function) window.now }
    requires kept { IfSome kept (λ kept. IsKept catalog.now (hashes_of H.function) window.now.window.now kept.now) }
    ensures { (entry : TableRows) → slice_get (map entry_of tables.now) place ≡ Some entry → IsDelta catalog.now (hashes_of H.function) (names_of_hubs names.now) window.now.window.now entry result }
{
    tables[place].delta(alloc, names, window, kept, catalog, digest)
}

// The rows that a window adds to the table at a place, or the least collision that it makes there: as they are found
// already, else worked out.
fn delta_at<'b, H: KeyDigest>(
    alloc: Global,
    tables: &[Table],
    place: usize,
    names: &HubKeys<'_>,
    window: &'b HashedWindow<'_>,
    catalog: &Catalog,
    digest: &H,
    found: &mut Found<'b>,
) -> Result<Rows, DeltaFault>
    requires place { place < length tables.now }
    requires tables { IsTrue (list_all (λ entry. is_table_of catalog.now entry.table) (map entry_of tables.now)) }
    requires dated { IsTrue (are_up_to window.now.window.now.load (map entry_of tables.now)) }
    requires valid { IsTrue (is_valid catalog.now) }
    requires window { IsTrue (is_window catalog.now window.now.window.now) }
    requires gathered { IsHashedWindow (hashes_of H.function) window.now }
    requires found { IsFound catalog.now (hashes_of H.function) (names_of_hubs names.now) window.now.window.now (map entry_of tables.now) found.old }
    ensures delta { (entry : TableRows) → slice_get (map entry_of tables.now) place ≡ Some entry → IsDelta catalog.now (hashes_of H.function) (names_of_hubs names.now) window.now.window.now entry result }
    ensures found { IsFound catalog.now (hashes_of H.function) (names_of_hubs names.now) window.now.window.now (map entry_of tables.now) found.new }
{
    match take_batch(&mut found.batches, place) {
        Some(rows) => rows,
        None => delta_of(
            alloc,
            tables,
            place,
            names,
            window,
            Some(&found.kept),
            catalog,
            digest,
        ),
    }
}

/// The rows that a window adds to each of these tables, or the first collision that it makes. What is found already
/// is not worked out again.
pub(crate) fn deltas_beside<'b, H: KeyDigest>(
    alloc: Global,
    tables: &[Table],
    names: &HubKeys<'_>,
    window: &'b HashedWindow<'_>,
    catalog: &Catalog,
    digest: &H,
    mut found: Found<'b>,
) -> Result<List<Rows>, AdditionFault>
    requires tables { IsTrue (list_all (λ entry. is_table_of catalog.now entry.table) (map entry_of tables.now)) }
    requires dated { IsTrue (are_up_to window.now.window.now.load (map entry_of tables.now)) }
    requires valid { IsTrue (is_valid catalog.now) }
    requires window { IsTrue (is_window catalog.now window.now.window.now) }
    requires gathered { IsHashedWindow (hashes_of H.function) window.now }
    requires found { IsFound catalog.now (hashes_of H.function) (names_of_hubs names.now) window.now.window.now (map entry_of tables.now) found }
    ensures rows { IfOk result (λ batches. batches ≡ map (added_to catalog.now (hashes_of H.function) window.now.window.now) (map entry_of tables.now)) }
    ensures apart { IfOk result (λ batches. All (λ entry. HasNoClash (hashed_in catalog.now (hashes_of H.function) (names_of_hubs names.now) window.now.window.now entry)) (map entry_of tables.now)) }
    ensures follow { IfOk result (spec.FollowAll window.now.window.now.load (map entry_of tables.now)) }
    ensures clashes { IfErr result (spec.ClashesAt catalog.now (hashes_of H.function) (names_of_hubs names.now) window.now.window.now (map entry_of tables.now)) }
{
    let mut batches = List::new(alloc);
    for (place, table) in tables.iter().enumerate() {
        match delta_at(
            alloc, tables, place, names, window, catalog, digest, &mut found,
        ) {
            Ok(rows) => batches.push(rows)?,
            Err(fault) => return Err(fault_of(table.id(), fault)),
        }
    }
    Ok(batches)
}

/// The rows that a window adds to each of these tables, or the first collision that it makes.
pub(crate) fn all_deltas<H: KeyDigest>(
    alloc: Global,
    tables: &[Table],
    names: &HubKeys<'_>,
    window: &HashedWindow<'_>,
    catalog: &Catalog,
    digest: &H,
) -> Result<List<Rows>, AdditionFault>
    requires tables { IsTrue (list_all (λ entry. is_table_of catalog.now entry.table) (map entry_of tables.now)) }
    requires dated { IsTrue (are_up_to window.now.window.now.load (map entry_of tables.now)) }
    requires valid { IsTrue (is_valid catalog.now) }
    requires window { IsTrue (is_window catalog.now window.now.window.now) }
    requires gathered { IsHashedWindow (hashes_of H.function) window.now }
    ensures rows { IfOk result (λ batches. batches ≡ map (added_to catalog.now (hashes_of H.function) window.now.window.now) (map entry_of tables.now)) }
    ensures apart { IfOk result (λ batches. All (λ entry. HasNoClash (hashed_in catalog.now (hashes_of H.function) (names_of_hubs names.now) window.now.window.now entry)) (map entry_of tables.now)) }
    ensures follow { IfOk result (spec.FollowAll window.now.window.now.load (map entry_of tables.now)) }
    ensures clashes { IfErr result (spec.ClashesAt catalog.now (hashes_of H.function) (names_of_hubs names.now) window.now.window.now (map entry_of tables.now)) }
{
    let kept = kept_keys(alloc, catalog, window, digest)?;
    let batches = Vec::new(alloc);
    let found = Found { kept, batches };
    deltas_beside(alloc, tables, names, window, catalog, digest, found)
}
