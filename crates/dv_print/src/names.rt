//! Names of feeds and hubs, by their places.

ghost use Rattle.std.specs.Prelude.{◌≡◌, slice_get};
ghost use Rattle.dv_catalog.specs.Tables.{feed_name, hub_name};

use dv_catalog::Catalog;

/// The name of the feed at a place; without bytes where there is no such feed.
pub(crate) fn name_of_feed(catalog: &Catalog, feed: u32) -> &[u8]
    ensures { result.now ≡ feed_name (slice_get catalog.now.feeds feed) }
{
    if feed < catalog.feed_count() {
        catalog.feed(feed).name.bytes()
    } else {
        b""
    }
}

/// The name of the hub at a place; without bytes where there is no such hub.
pub(crate) fn name_of_hub(catalog: &Catalog, hub: u32) -> &[u8]
    ensures { result.now ≡ hub_name (slice_get catalog.now.hubs hub) }
{
    if hub < catalog.hub_count() {
        catalog.hub(hub).name.bytes()
    } else {
        b""
    }
}
