// The form of bridge rows.
ghost use Rattle.std.specs.Prelude.{◌≡◌, ◌<◌, ◌≤◌, length, slice_get};
ghost use Rattle.dv_catalog.specs.Feeds as feeds;
ghost use Rattle.dv_catalog.specs.Limits.{most_references, most_steps};
ghost use Rattle.dv_window.specs.RowForms as spec;

use crate::row_forms::{RowForm, are_wide};
use dv_catalog::Catalog;
use dv_print::feed_hubs;
use dv_records::{BridgeRow, Rows};
use dv_text::List;

/// The form of the rows of a path's bridge: they have so many hash keys of links and of hubs, of so
/// many bytes each.
#[derive(Clone, Copy)]
pub(crate) struct BridgeForm {
    pub(crate) links: usize,
    pub(crate) hubs: usize,
    pub(crate) width: u8,
}

impl RowForm<BridgeRow> for BridgeForm {
    ghost use Rattle.dv_window.specs.RowForms.{bridges_counted, bridges_in, is_sound_bridge};

    ghost own = { bridges_in };

    ghost is_sound = { is_sound_bridge };

    fn own(&self, rows: Rows) -> Option<List<BridgeRow>> {
        match rows {
            Rows::Bridges(rows) => Some(rows),
            _ => None,
        }
    }

    fn is_sound(&self, row: &BridgeRow) -> bool {
        row.links.items().len() == self.links
            && row.hubs.items().len() == self.hubs
            && are_wide(row.links.items(), self.width)
            && are_wide(row.hubs.items(), self.width)
    }

    ghost counted = { bridges_counted };
}

// How many hubs the references of a feed have.
fn reference_count(catalog: &Catalog, feed: u32) -> usize
    ensures value { result ≡ length (feeds.feed_hubs catalog.now feed) }
    ensures few { result ≤ most_references }
{
    catalog.note_valid();
    feed_hubs(catalog, feed).len()
}

// How many hubs the links of feeds have together.
fn hub_count(catalog: &Catalog, feeds: &[u32]) -> usize
    requires { length feeds.now ≤ most_steps }
    ensures { result ≡ spec.hub_count catalog.now feeds.now }
{
    let mut hubs = 0;
    for feed in feeds {
        hubs += reference_count(catalog, *feed);
    }
    hubs
}

/// The form of the rows of a path's bridge, where digests have so many bytes. Takes no memory.
/// Condition: the mapping has the path.
pub(crate) fn bridge_form(catalog: &Catalog, width: u8, path: u32) -> BridgeForm
    requires { path < length catalog.now.paths }
    ensures { result ≡ spec.bridge_form catalog.now width (slice_get catalog.now.paths path) }
{
    catalog.note_valid();
    let feeds = catalog.path(path).feeds.items();
    BridgeForm {
        links: feeds.len(),
        hubs: hub_count(catalog, feeds),
        width,
    }
}
