//! The feeds of a hub, in declared order, and the hubs of a feed.

ghost use Rattle.std.specs.Prelude.{◌≡◌, Some, All, map, slice_get, IfOk};
ghost use Rattle.dv_catalog.specs.Feeds as spec;
ghost use Rattle.dv_catalog.specs.declared.entries.Parent.TheVariants as parents;
ghost use Rattle.dv_records.specs.Marts.{hub_feeds};
ghost use Rattle.dv_print.specs.HubFeeds.{told};

use dv_catalog::{Catalog, FeedDef, Parent};
use dv_text::Memory;
use std::alloc::Global;
use std::slice::from_ref;

/// A feed, by its place in declared order.
#[derive(Clone, Copy)]
pub struct HubFeed<'a> {
    pub place: u32,
    pub definition: &'a FeedDef,
}

// Whether a feed delivers the keys of a hub.
fn is_of_hub(feed: &FeedDef, hub: u32) -> bool
    ensures { result ≡ spec.is_fed_by (parents.Hub hub) (Some feed.now) }
{
    feed.parent == Parent::Hub(hub)
}

/// The feeds of a hub. Takes memory for a list of their places.
pub fn feeds_of(alloc: Global, catalog: &Catalog, hub: u32) -> Result<Vec<HubFeed<'_>>, Memory>
    ensures feeds { IfOk result (λ feeds. map told feeds.items ≡ hub_feeds catalog.now hub) }
    ensures places { IfOk result (λ feeds. All (λ feed. slice_get catalog.now.feeds feed.place ≡ Some feed.definition.now) feeds.items) }
{
    let mut found = Vec::new(alloc);
    for place in 0..catalog.feed_count() {
        let definition = catalog.feed(place);
        if is_of_hub(definition, hub) {
            found.push(HubFeed { place, definition })?;
        }
    }
    Ok(found)
}

/// The hubs of a feed's references, by their places; none where the feed isn't in the mapping. Takes no memory.
pub fn feed_hubs(catalog: &Catalog, feed: u32) -> &[u32]
    ensures { result.now ≡ spec.feed_hubs catalog.now feed }
{
    if feed >= catalog.feed_count() {
        return &[];
    }
    match &catalog.feed(feed).parent {
        Parent::Hub(hub) => from_ref(hub),
        Parent::Link(link) => catalog.link(*link).hubs.items(),
    }
}
