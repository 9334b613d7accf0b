// The form of a row: its references fit their hubs, the keys that have to be there are, and its texts are as many as
// the feed says.
ghost use Rattle.std.specs.Prelude.{◌≡◌, false, slice_get};
ghost use Rattle.std.specs.List.{list_all, list_any, zip};
ghost use Rattle.std.specs.Option.{option_map_or};
ghost use Rattle.dv_text.specs.Keys.{is_missing};
ghost use Rattle.dv_catalog.specs.Feeds.{parent_hubs, parts_of};
ghost use Rattle.dv_records.specs.States as states;
ghost use Rattle.dv_window_rules.specs.Forms as spec;

use crate::text_forms::{is_field, is_key_part};
use dv_catalog::{Catalog, FeedDef, Parent};
use dv_text::{Key, NRow, Text, are_missing};

// How many parts the keys of a hub have; none where there is no such hub.
fn part_count(catalog: &Catalog, hub: u32) -> u32
    ensures { result ≡ parts_of (slice_get catalog.now.hubs hub) }
{
    match catalog.hubs().get(hub as usize) {
        Some(hub) => hub.parts,
        None => 0,
    }
}

fn are_key_parts(parts: &[Text]) -> bool
    ensures { result ≡ list_all states.is_key_part parts.now }
{
    parts.iter().all(is_key_part)
}

fn fits_hub(catalog: &Catalog, hub: u32, key: &Key) -> bool
    ensures { result ≡ states.fits_hub catalog.now hub key.now }
{
    let parts = key.parts.items();
    parts.len() == part_count(catalog, hub) as usize && are_key_parts(parts)
}

// Whether each reference fits the hub beside it.
fn each_fits(catalog: &Catalog, hubs: &[u32], refs: &[Key]) -> bool
    ensures { result ≡ list_all (λ (hub, key). states.fits_hub catalog.now hub key) (zip hubs.now refs.now) }
{
    hubs.iter()
        .zip(refs)
        .all(|(hub, key)| fits_hub(catalog, *hub, key))
}

// Whether references are as many as the hubs, and each fits its hub.
fn fit_hubs(catalog: &Catalog, hubs: &[u32], refs: &[Key]) -> bool
    ensures { result ≡ states.fit_hubs catalog.now hubs.now refs.now }
{
    hubs.len() == refs.len() && each_fits(catalog, hubs, refs)
}

// Whether references fit the hubs of a parent; those of a link that isn't there are none.
fn fit_parent(catalog: &Catalog, parent: Parent, refs: &[Key]) -> bool
    ensures { result ≡ states.fit_hubs catalog.now (parent_hubs catalog.now parent) refs.now }
{
    match parent {
        Parent::Hub(hub) => fit_hubs(catalog, &[hub], refs),
        Parent::Link(link) => match catalog.links().get(link as usize) {
            Some(link) => fit_hubs(catalog, link.hubs.items(), refs),
            None => refs.is_empty(),
        },
    }
}

// Whether there is a reference at a place, and it is missing.
fn is_missing_at(refs: &[Key], place: u32) -> bool
    ensures { result ≡ option_map_or is_missing (slice_get refs.now place) false }
{
    match refs.get(place as usize) {
        Some(key) => key.is_missing(),
        None => false,
    }
}

// Whether a driving key is missing.
fn misses_driver(feed: &FeedDef, refs: &[Key]) -> bool
    ensures { result ≡ list_any (λ place. option_map_or is_missing (slice_get refs.now place) false) feed.now.driver }
{
    feed.driver
        .items()
        .iter()
        .any(|place| is_missing_at(refs, *place))
}

fn is_keyed(feed: &FeedDef, row: &NRow) -> bool
    ensures { result ≡ states.is_keyed feed.now row.now }
{
    let refs = row.refs.items();
    !are_missing(refs) && !misses_driver(feed, refs)
}

fn are_in_form(fields: &[Text]) -> bool
    ensures { result ≡ list_all states.is_field fields.now }
{
    fields.iter().all(is_field)
}

// Whether fields are as many as the columns of a feed, and each is in form.
fn are_fields(columns: &[Text], fields: &[Text]) -> bool
    ensures { result ≡ spec.are_fields columns.now fields.now }
{
    fields.len() == columns.len() && are_in_form(fields)
}

/// Whether a row has the form of a feed. Takes no memory; one walk over the bytes of its texts.
pub(crate) fn is_row_of(catalog: &Catalog, feed: &FeedDef, row: &NRow) -> bool
    ensures { result ≡ states.is_row_of catalog.now feed.now row.now }
{
    fit_parent(catalog, feed.parent, row.refs.items())
        && is_keyed(feed, row)
        && are_fields(feed.sub.items(), row.sub.items())
        && are_fields(feed.attrs.items(), row.attrs.items())
}
