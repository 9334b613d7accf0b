// What a window delivers to a hub or a link.
ghost use Rattle.std.specs.Prelude.{◌≡◌, ◌∷◌, ◌++◌, [], IfOk, IfSome, IsTrue, OnOk, map};
ghost use Rattle.std.specs.List.{list_all};
ghost use Rattle.dv_text.specs.Keys.{hashes_of};
ghost use Rattle.dv_catalog.specs.Mappings.{is_valid};
ghost use Rattle.dv_digest.specs.Fits as fits;
ghost use Rattle.dv_records.specs.Deliveries as spec;
ghost use Rattle.dv_records.specs.Deltas.{AreHashed, delivered};
ghost use Rattle.dv_records.specs.States.{is_window};
ghost use Rattle.dv_window_keys.specs.DeliverySets.{AreDeliveriesOf};
ghost use Rattle.dv_window_keys.specs.HashedWindows.{IsHashedWindow};
ghost use Rattle.dv_window_keys.specs.Offered as offered;
ghost use Rattle.dv_window_keys.specs.WindowItems.{IsKept};

use crate::hashed_windows::HashedWindow;
use crate::kept_items::{KeptKeys, kept_deliveries, kept_keys};
use crate::offers::Offer;
use dv_catalog::{Catalog, Parent, TableId};
use dv_digest::{Room, hash_key, refs_fit};
use dv_records::HashedDelivery;
use dv_text::{Digest, Key, KeyDigest, List, Memory};
use std::alloc::Global;

// The hash key of a reference list: the one that is told, else it is worked out.
fn key_of<H: KeyDigest>(digest: &H, told: Option<&Digest>, refs: &[Key], room: &mut Room) -> Digest
    requires { IsTrue (fits.refs_fit refs.now) }
    ensures { result ≡ offered.key_told (hashes_of H.function) (offered.told_by told.entry) refs.now }
{
    if let Some(key) = told {
        return *key;
    }
    let fit = refs_fit(refs);
    prove!(fit);
    hash_key(digest, refs, room)
}

// Puts an offer at the end, as a delivery to a table.
fn add_delivery<'a, H: KeyDigest>(
    items: &mut List<HashedDelivery<'a>>,
    table: TableId,
    offer: &Offer<'a>,
    digest: &H,
    room: &mut Room,
) -> Result<(), Memory>
    requires { IsTrue (fits.refs_fit offer.now.refs.now) }
    ensures { OnOk result (map offered.keyed items.new ≡ map offered.keyed items.old ++ offered.delivery_to table (offered.offered_by (hashes_of H.function) offer.now) ∷ []) }
{
    let key = key_of(digest, offer.told, offer.refs, room);
    let item = HashedDelivery {
        table,
        refs: offer.refs,
        feed: offer.feed,
        digest: key,
    };
    items.push(item)
}

/// Offers as deliveries to a table.
pub(crate) fn to_deliveries<'a, H: KeyDigest>(
    alloc: Global,
    table: TableId,
    offers: &[Offer<'a>],
    digest: &H,
) -> Result<List<HashedDelivery<'a>>, Memory>
    requires { IsTrue (list_all (λ offer. fits.refs_fit offer.refs.now) offers.now) }
    ensures { IfOk result (λ items. map offered.keyed items ≡ map (λ offer. offered.delivery_to table (offered.offered_by (hashes_of H.function) offer)) offers.now) }
{
    let mut room = Room::new(alloc)?;
    let mut items = List::with_room(alloc, offers.len())?;
    for offer in offers {
        add_delivery(&mut items, table, offer, digest, &mut room)?;
    }
    Ok(items)
}

/// The table of a hub or a link.
pub(crate) fn table_of(parent: Parent) -> TableId
    ensures { result ≡ spec.table_of parent }
{
    match parent {
        Parent::Hub(hub) => TableId::Hub(hub),
        Parent::Link(link) => TableId::Link(link),
    }
}

/// What a window delivers to a hub or a link: each reference list that its rows bring once, by the first feed
/// that brings it, with its hash key, in any order; a list whose keys are all missing is left out. A link's feed
/// brings to each of its hubs the hub's key. The lists are lent from the window. What the table of the window's keys keeps
/// is not worked out again. Conditions: it is a window of the mapping, and has its hash keys.
pub fn deliveries<'b, 'a, H: KeyDigest>(
    alloc: Global,
    catalog: &Catalog,
    window: &'b HashedWindow<'a>,
    parent: Parent,
    kept: Option<&KeptKeys<'b>>,
    digest: &H,
) -> Result<List<HashedDelivery<'b>>, Memory>
    requires valid { IsTrue (is_valid catalog.now) }
    requires window { IsTrue (is_window catalog.now window.now.window.now) }
    requires gathered { IsHashedWindow (hashes_of H.function) window.now }
    requires kept { IfSome kept (λ kept. IsKept catalog.now (hashes_of H.function) window.now.window.now kept.now) }
    ensures items { IfOk result (λ items. AreDeliveriesOf catalog.now parent window.now.window.now (delivered items)) }
    ensures hashed { IfOk result (AreHashed (hashes_of H.function)) }
{
    match kept {
        Some(kept) => kept_deliveries(alloc, catalog, window.window, parent, kept, digest),
        None => {
            let kept = kept_keys(alloc, catalog, window, digest)?;
            kept_deliveries(alloc, catalog, window.window, parent, &kept, digest)
        }
    }
}
