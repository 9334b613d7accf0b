// The delivered lists that rows do not stand for yet.
ghost use Rattle.std.specs.Prelude.{◌≡◌, IfOk, IsTrue, length, map, nat_lt};
ghost use Rattle.std.specs.List.{list_all};
ghost use Rattle.dv_text.specs.Keys.{hashes_of};
ghost use Rattle.dv_digest.specs.Fits.{refs_fit};
ghost use Rattle.dv_records.specs.Deltas.{AreHashed, HasNoClash, IfCollides, IsLeastClash, delivered};
ghost use Rattle.dv_hub_link.specs.HashedLists.{missing_of, told};
ghost use Rattle.dv_hub_link.specs.Items.{AreItems};
ghost use Rattle.dv_hub_link.specs.KeyDeltas.{lists_of};
ghost use Rattle.dv_hub_link.specs.NewLists as spec;
ghost use Rattle.dv_hub_link.specs.NewLists.{all_hashed};
ghost use Rattle.dv_hub_link.specs.PlacedRows.{are_placed_rows};

use crate::additions::new_lists;
use crate::hashed_lists::LentList;
use crate::key_rows::KeyRows;
use crate::told_lists::{TellsLists, ToldRows};
use dv_catalog::Catalog;
use dv_index::Placed;
use dv_records::{DeltaFault, HashedDelivery};
use dv_text::{Key, KeyDigest, List};
use std::alloc::Global;

/// The delivered lists that are not all missing, and whose hash keys no row has, by hash key. The items and the
/// missing keys are such as `new_lists` takes. Where two different lists among the missing one, those of the items and those that the
/// rows stand for have one hash key, the error is the least such pair. Want of memory is `DeltaFault::Memory`.
pub(crate) fn lists_for<'a, R: Placed, L: TellsLists<R>, H: KeyDigest>(
    alloc: Global,
    missing: &'a List<Key>,
    items: &'a List<HashedDelivery<'_>>,
    rows: &KeyRows<R>,
    lists: &L,
    catalog: &Catalog,
    digest: &H,
) -> Result<List<LentList<'a>>, DeltaFault>
    requires missing { missing.now ≡ missing_of catalog.now (delivered items.now) }
    requires items { AreItems catalog.now (delivered items.now) }
    requires hashed { AreHashed (hashes_of H.function) items.now }
    ensures apart { IfOk result (λ made. HasNoClash (all_hashed catalog.now (hashes_of H.function) (lists_of R.place (L.list lists.now) rows.now.rows) (delivered items.now))) }
    ensures lists { IfOk result (λ made. map told made ≡ spec.new_lists (hashes_of H.function) (lists_of R.place (L.list lists.now) rows.now.rows) (delivered items.now)) }
    ensures feeds { IfOk result (λ made. IsTrue (list_all (λ list. nat_lt list.feed (length catalog.now.feeds)) made)) }
    ensures fits { IfOk result (λ made. IsTrue (list_all (λ list. refs_fit list.refs.now) made)) }
    ensures collision { IfCollides result (IsLeastClash (all_hashed catalog.now (hashes_of H.function) (lists_of R.place (L.list lists.now) rows.now.rows) (delivered items.now))) }
    ensures kept { IsTrue (are_placed_rows R.place rows.now.rows) }
{
    rows.note_rows();
    let table = ToldRows { rows, lists };
    new_lists(alloc, missing, items, &table, catalog, digest)
}
