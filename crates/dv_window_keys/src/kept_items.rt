// What a window delivers to hubs and links, by the items that the table of its keys keeps.
ghost use Rattle.std.specs.Prelude.{◌≡◌, ◌++◌, IfOk, IsTrue, OnOk, slice_get};
ghost use Rattle.std.specs.Option.{option_to_list};
ghost use Rattle.dv_text.specs.Keys.{hashes_of};
ghost use Rattle.dv_catalog.specs.Mappings.{is_valid};
ghost use Rattle.dv_records.specs.Deltas.{AreHashed, delivered};
ghost use Rattle.dv_records.specs.States.{is_window};
ghost use Rattle.dv_window_keys.specs.DeliverySets.{AreDeliveriesOf};
ghost use Rattle.dv_window_keys.specs.HashedWindows.{IsHashedWindow};
ghost use Rattle.dv_window_keys.specs.WindowItems as spec;

use crate::delivered_lists::{table_of, to_deliveries};
use crate::gathered_items::window_items;
use crate::hashed_windows::HashedWindow;
use crate::items::WindowItem;
use crate::mixings::mixing_of;
use crate::offered_items::least_numbers;
use crate::offers::Offer;
use dv_catalog::{Catalog, Parent};
use dv_records::HashedDelivery;
use dv_text::{KeyDigest, List, Memory, Window};
use std::alloc::Global;

/// The items of a window's keys, and the numbers of those that the table of them keeps.
#[derive(Drop)]
pub struct KeptKeys<'b> {
    pub items: Vec<WindowItem<'b>>,
    pub numbers: Vec<u32>,
}

// The offer of the item with a number, if it is for this hub or link.
fn offer_for<'b>(items: &[WindowItem<'b>], number: u32, parent: Parent) -> Option<Offer<'b>>
    ensures { result ≡ spec.offer_for parent (slice_get items.now number) }
{
    let item = items.get(number as usize)?;
    if item.parent == parent {
        Some(item.offer)
    } else {
        None
    }
}

// Puts the offer of the item with a number at the end, if it is for this hub or link.
fn put_chosen<'b>(
    offers: &mut Vec<Offer<'b>>,
    items: &[WindowItem<'b>],
    number: u32,
    parent: Parent,
) -> Result<(), Memory>
    ensures { OnOk result (offers.new.items ≡ offers.old.items ++ option_to_list (spec.offer_for parent (slice_get items.now number))) }
{
    if let Some(offer) = offer_for(items, number, parent) {
        offers.push(offer)?;
    }
    Ok(())
}

// The offers of the items with some numbers that are for a hub or a link.
fn chosen<'b>(
    alloc: Global,
    items: &[WindowItem<'b>],
    numbers: &[u32],
    parent: Parent,
) -> Result<Vec<Offer<'b>>, Memory>
    ensures { IfOk result (λ offers. offers.items ≡ spec.chosen parent items.now numbers.now) }
{
    let mut offers = Vec::new(alloc);
    for number in numbers {
        put_chosen(&mut offers, items, *number, parent)?;
    }
    Ok(offers)
}

/// What a window delivers to a hub or a link: each reference list that the table of its keys keeps for it, by the
/// first feed that brings it, with its hash key. The lists are lent from the window.
pub(crate) fn kept_deliveries<'b, H: KeyDigest>(
    alloc: Global,
    catalog: &Catalog,
    window: &Window,
    parent: Parent,
    kept: &KeptKeys<'b>,
    digest: &H,
) -> Result<List<HashedDelivery<'b>>, Memory>
    requires valid { IsTrue (is_valid catalog.now) }
    requires window { IsTrue (is_window catalog.now window.now) }
    requires kept { spec.IsKept catalog.now (hashes_of H.function) window.now kept.now }
    ensures items { IfOk result (λ items. AreDeliveriesOf catalog.now parent window.now (delivered items)) }
    ensures hashed { IfOk result (AreHashed (hashes_of H.function)) }
{
    let offers = chosen(alloc, &kept.items, &kept.numbers, parent)?;
    to_deliveries(alloc, table_of(parent), &offers, digest)
}

/// The items of a window's keys, and the numbers of those that the table of them keeps, worked out by one thread.
/// Conditions: it is a window of the mapping, and has its hash keys.
pub fn kept_keys<'b, 'a, H: KeyDigest>(
    alloc: Global,
    catalog: &Catalog,
    window: &'b HashedWindow<'a>,
    digest: &H,
) -> Result<KeptKeys<'b>, Memory>
    requires valid { IsTrue (is_valid catalog.now) }
    requires window { IsTrue (is_window catalog.now window.now.window.now) }
    requires gathered { IsHashedWindow (hashes_of H.function) window.now }
    ensures { IfOk result (spec.IsKept catalog.now (hashes_of H.function) window.now.window.now) }
{
    let items = window_items::<H>(alloc, catalog, window)?;
    let mixing = mixing_of(alloc, window, digest)?;
    let numbers = least_numbers(alloc, &items, mixing)?;
    Ok(KeptKeys { items, numbers })
}
