// The deliveries whose hash keys a table has not yet.
ghost use Rattle.std.specs.Prelude.{◌≡◌, ◌++◌, IfOk, IsTrue, OnOk, length, map, nat_lt};
ghost use Rattle.std.specs.List.{list_all};
ghost use Rattle.std.specs.Option.{option_to_list};
ghost use Rattle.dv_text.specs.Keys.{hashes_of};
ghost use Rattle.dv_digest.specs.Fits.{refs_fit};
ghost use Rattle.dv_records.specs.Deltas.{AreHashed, HasNoClash, IfCollides, IsLeastClash, delivered};
ghost use Rattle.dv_hub_link.specs.HashedLists as hashing;
ghost use Rattle.dv_hub_link.specs.HashedLists.{missing_of, told};
ghost use Rattle.dv_hub_link.specs.HeldLists.{are_held_apart};
ghost use Rattle.dv_hub_link.specs.Items.{AreItems};
ghost use Rattle.dv_hub_link.specs.NewLists as spec;
ghost use Rattle.dv_hub_link.specs.NewLists.{all_hashed};

use crate::hashed_lists::{LentList, hashed_lists};
use crate::holds_lists::{HoldsLists, Standing};
use crate::missing_keys::missing_refs;
use crate::rivals::{Rivals, rivals_among};
use dv_catalog::Catalog;
use dv_records::{DeltaFault, HashedDelivery};
use dv_text::{Key, KeyDigest, List, Memory, are_missing};
use std::alloc::Global;

/// The list of missing keys of the table that deliveries are to; no keys where there are no deliveries.
pub(crate) fn missing_for(
    alloc: Global,
    items: &List<HashedDelivery>,
    catalog: &Catalog,
) -> Result<List<Key>, Memory>
    requires { AreItems catalog.now (delivered items.now) }
    ensures { IfOk result (λ refs. refs ≡ missing_of catalog.now (delivered items.now)) }
{
    catalog.note_valid();
    let Some(first) = items.items().first() else {
        return Ok(List::new(alloc));
    };
    let missing = missing_refs(alloc, catalog, first.table)?;
    Ok(missing)
}

// The lists of deliveries, and the list of missing keys of their table.
fn brought_lists<'a, H: KeyDigest>(
    alloc: Global,
    missing: &'a List<Key>,
    items: &'a [HashedDelivery<'_>],
    catalog: &Catalog,
    digest: &H,
) -> Result<List<LentList<'a>>, Memory>
    requires missing { missing.now ≡ missing_of catalog.now (delivered items.now) }
    requires items { AreItems catalog.now (delivered items.now) }
    requires hashed { AreHashed (hashes_of H.function) items.now }
    ensures { IfOk result (λ lists. map told lists ≡ hashing.brought_lists catalog.now (hashes_of H.function) (delivered items.now)) }
{
    catalog.note_valid();
    let Some(first) = items.first() else {
        return Ok(List::new(alloc));
    };
    let lists = hashed_lists(alloc, missing, first.feed, items, digest)?;
    Ok(lists)
}

fn is_new(list: &LentList, standing: Standing) -> bool
    ensures { result ≡ spec.is_new_beside list.now standing }
{
    match standing {
        Standing::New => !are_missing(list.refs),
        _ => false,
    }
}

// Puts a list at the end, if it is new.
fn add<'a>(
    made: &mut List<LentList<'a>>,
    list: &LentList<'a>,
    standing: Standing,
) -> Result<(), Memory>
    ensures { OnOk result (map told made.new ≡ map told made.old ++ option_to_list (spec.new_beside list.now standing)) }
{
    if !is_new(list, standing) {
        return Ok(());
    }
    let list = LentList {
        digest: list.digest,
        refs: list.refs,
        feed: list.feed,
    };
    made.push(list)
}

// The lists that are new, in their order.
fn kept<'a>(
    alloc: Global,
    lists: &[LentList<'a>],
    standings: &[Standing],
) -> Result<List<LentList<'a>>, Memory>
    ensures { IfOk result (λ made. map told made ≡ spec.kept lists.now standings.now) }
{
    let mut made = List::new(alloc);
    for (list, standing) in lists.iter().zip(standings) {
        add(&mut made, list, *standing)?;
    }
    Ok(made)
}

/// The delivered lists that are not all missing, and whose hash keys the table has not, each with its hash
/// key, in the order of these. Conditions: the table holds no two lists under one hash key; the items are
/// deliveries to one hub or link of the catalog, by its feeds, no two of one list; a list has a key of each
/// hub, of the hub's number of parts, each of at most 4,096 bytes; an item's digest is the hash key of its
/// list; and the missing keys are those of the table. Where two different lists among the missing one, those
/// of the items and those of the table have one hash key, the error is the least such pair. Want of memory is
/// `DeltaFault::Memory`.
pub(crate) fn new_lists<'a, T: HoldsLists, H: KeyDigest>(
    alloc: Global,
    missing: &'a List<Key>,
    items: &'a List<HashedDelivery<'_>>,
    table: &T,
    catalog: &Catalog,
    digest: &H,
) -> Result<List<LentList<'a>>, DeltaFault>
    requires held { IsTrue (are_held_apart (T.held table.now)) }
    requires missing { missing.now ≡ missing_of catalog.now (delivered items.now) }
    requires items { AreItems catalog.now (delivered items.now) }
    requires hashed { AreHashed (hashes_of H.function) items.now }
    ensures apart { IfOk result (λ lists. HasNoClash (all_hashed catalog.now (hashes_of H.function) (T.held table.now) (delivered items.now))) }
    ensures lists { IfOk result (λ lists. map told lists ≡ spec.new_lists (hashes_of H.function) (T.held table.now) (delivered items.now)) }
    ensures feeds { IfOk result (λ lists. IsTrue (list_all (λ list. nat_lt list.feed (length catalog.now.feeds)) lists)) }
    ensures fits { IfOk result (λ lists. IsTrue (list_all (λ list. refs_fit list.refs.now) lists)) }
    ensures collision { IfCollides result (IsLeastClash (all_hashed catalog.now (hashes_of H.function) (T.held table.now) (delivered items.now))) }
{
    catalog.note_valid();
    let lists = brought_lists(alloc, missing, items.items(), catalog, digest)?;
    let standings = table.standings(alloc, lists.items())?;
    if let Some(rivals) = rivals_among(alloc, lists.items(), &standings, table)? {
        let Rivals { first, second } = rivals;
        return Err(DeltaFault::Collision { first, second });
    }
    let made = kept(alloc, lists.items(), &standings)?;
    Ok(made)
}
