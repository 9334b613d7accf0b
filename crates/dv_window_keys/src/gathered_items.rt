// The items of a window's keys, gathered from its rows. The reference lists are lent as they stand in the rows.
ghost use Rattle.std.specs.Prelude.{◌≡◌, ℕ, ◌≤◌, ◌∷◌, ◌++◌, [], IfOk, IsTrue, OnOk, Some, length, map, slice_get};
ghost use Rattle.std.specs.Option.{option_to_list};
ghost use Rattle.dv_text.specs.declared.rows.Key.{Key};
ghost use Rattle.dv_text.specs.Keys.{hashes_of};
ghost use Rattle.dv_catalog.specs.Mappings.{is_valid};
ghost use Rattle.dv_digest.specs.HashedExtracts.{HasKeys};
ghost use Rattle.dv_records.specs.States.{is_window};
ghost use Rattle.dv_window_keys.specs.HashedWindows.{IsHashedWindow};
ghost use Rattle.dv_window_keys.specs.Offered.{IsKeyOf, told_by};
ghost use Rattle.dv_window_keys.specs.WindowItems as spec;

use crate::hashed_windows::HashedWindow;
use crate::items::WindowItem;
use crate::offers::{Offer, feed_hubs, told_of_each};
use dv_catalog::{Catalog, Parent};
use dv_digest::HashedExtract;
use dv_text::{Digest, Key, KeyDigest, Memory};
use std::alloc::Global;
use std::slice::from_ref;

// The hub at a place among hubs.
fn hub_at(hubs: &[u32], place: usize) -> Option<u32>
    ensures { result ≡ slice_get hubs.now place }
{
    let hub = hubs.get(place)?;
    Some(*hub)
}

// Puts a key at the end as a list of one for its hub, where it has one.
fn add_key_item<'b, H: KeyDigest>(
    items: &mut Vec<WindowItem<'b>>,
    hub: Option<u32>,
    key: &'b Key,
    feed: u32,
    told: Option<&'b Digest>,
) -> Result<(), Memory>
    requires key { IsKeyOf (hashes_of H.function) (told_by told) (key.now ∷ []) }
    requires told { spec.AreTold (hashes_of H.function) items.old.items }
    ensures items { OnOk result (map spec.item_of items.new.items ≡ map spec.item_of items.old.items ++ spec.hub_items feed (option_to_list hub) (key.now ∷ [])) }
    ensures told { OnOk result (spec.AreTold (hashes_of H.function) items.new.items) }
{
    let Some(hub) = hub else {
        return Ok(());
    };
    items.push(WindowItem {
        parent: Parent::Hub(hub),
        offer: Offer {
            refs: from_ref(key),
            feed,
            told,
        },
    })?;
    Ok(())
}

// Puts the keys of references at the end, of which `hubs` are the hubs.
fn add_key_items<'b, H: KeyDigest>(
    items: &mut Vec<WindowItem<'b>>,
    hubs: &[u32],
    refs: &'b [Key],
    feed: u32,
    told: Option<&'b Digest>,
) -> Result<(), Memory>
    requires keys { (place : ℕ) (key : Key) → slice_get refs.now place ≡ Some key → IsKeyOf (hashes_of H.function) (told_by told) (key ∷ []) }
    requires told { spec.AreTold (hashes_of H.function) items.old.items }
    ensures items { OnOk result (map spec.item_of items.new.items ≡ map spec.item_of items.old.items ++ spec.hub_items feed hubs.now refs.now) }
    ensures told { OnOk result (spec.AreTold (hashes_of H.function) items.new.items) }
{
    for (place, key) in refs.iter().enumerate() {
        add_key_item::<H>(items, hub_at(hubs, place), key, feed, told)?;
    }
    Ok(())
}

// Puts a reference list at the end for a link, where there is one.
fn add_link_item<'b, H: KeyDigest>(
    items: &mut Vec<WindowItem<'b>>,
    link: Option<u32>,
    refs: &'b [Key],
    feed: u32,
    told: Option<&'b Digest>,
) -> Result<(), Memory>
    requires key { IsKeyOf (hashes_of H.function) (told_by told) refs.now }
    requires told { spec.AreTold (hashes_of H.function) items.old.items }
    ensures items { OnOk result (map spec.item_of items.new.items ≡ map spec.item_of items.old.items ++ spec.link_items feed link refs.now) }
    ensures told { OnOk result (spec.AreTold (hashes_of H.function) items.new.items) }
{
    let Some(link) = link else {
        return Ok(());
    };
    items.push(WindowItem {
        parent: Parent::Link(link),
        offer: Offer { refs, feed, told },
    })?;
    Ok(())
}

// Puts the items of a row at the end.
fn add_row_items<'b, H: KeyDigest>(
    items: &mut Vec<WindowItem<'b>>,
    hubs: &[u32],
    link: Option<u32>,
    refs: &'b [Key],
    feed: u32,
    told: Option<&'b Digest>,
) -> Result<(), Memory>
    requires key { IsKeyOf (hashes_of H.function) (told_by told) refs.now }
    requires told { spec.AreTold (hashes_of H.function) items.old.items }
    ensures items { OnOk result (map spec.item_of items.new.items ≡ map spec.item_of items.old.items ++ (spec.hub_items feed hubs.now refs.now ++ spec.link_items feed link refs.now)) }
    ensures told { OnOk result (spec.AreTold (hashes_of H.function) items.new.items) }
{
    add_key_items::<H>(items, hubs, refs, feed, told_of_each::<H>(refs, told))?;
    add_link_item::<H>(items, link, refs, feed, told)
}

// The link to which a feed delivers; none where it delivers to a hub, or isn't in the mapping.
fn link_of(catalog: &Catalog, feed: u32) -> Option<u32>
    ensures { result ≡ spec.link_by (slice_get catalog.now.feeds feed) }
{
    if feed >= catalog.feed_count() {
        return None;
    }
    match catalog.feed(feed).parent {
        Parent::Hub(_) => None,
        Parent::Link(link) => Some(link),
    }
}

// Puts the items of a feed's rows at the end.
fn add_feed_items<'b, 'a, H: KeyDigest>(
    items: &mut Vec<WindowItem<'b>>,
    catalog: &Catalog,
    extract: &'b HashedExtract<'a>,
) -> Result<(), Memory>
    requires keys { HasKeys (hashes_of H.function) extract.now }
    requires told { spec.AreTold (hashes_of H.function) items.old.items }
    ensures items { OnOk result (map spec.item_of items.new.items ≡ map spec.item_of items.old.items ++ spec.items_of catalog.now extract.now.staged.now) }
    ensures told { OnOk result (spec.AreTold (hashes_of H.function) items.new.items) }
{
    let staged = extract.staged;
    let hubs = feed_hubs(catalog, staged.feed);
    let link = link_of(catalog, staged.feed);
    for (place, row) in staged.rows.items().iter().enumerate() {
        let refs = row.refs.items();
        let told = extract.keys.items().get(place);
        add_row_items::<H>(items, hubs, link, refs, staged.feed, told)?;
    }
    Ok(())
}

/// The items of a window's keys, in the order of their numbers. Conditions: it is a window of the mapping, and has its
/// hash keys.
pub fn window_items<'b, 'a, H: KeyDigest>(
    alloc: Global,
    catalog: &Catalog,
    window: &'b HashedWindow<'a>,
) -> Result<Vec<WindowItem<'b>>, Memory>
    requires valid { IsTrue (is_valid catalog.now) }
    requires window { IsTrue (is_window catalog.now window.now.window.now) }
    requires gathered { IsHashedWindow (hashes_of H.function) window.now }
    ensures items { IfOk result (λ items. map spec.item_of items.items ≡ spec.window_items catalog.now window.now.window.now) }
    ensures told { IfOk result (λ items. spec.AreTold (hashes_of H.function) items.items) }
    ensures few { length (spec.window_items catalog.now window.now.window.now) ≤ 2000000 }
{
    let mut items = Vec::new(alloc);
    for extract in window.extracts.items() {
        add_feed_items::<H>(&mut items, catalog, extract)?;
    }
    Ok(items)
}
