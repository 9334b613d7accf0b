// The form of point-in-time rows.
ghost use Rattle.std.specs.Prelude.{◌≡◌, Some, count_by, length};
ghost use Rattle.dv_catalog.specs.Feeds.{is_fed_by};
ghost use Rattle.dv_catalog.specs.declared.entries.Parent.TheVariants as parents;
ghost use Rattle.dv_records.specs.Marts.{hub_feeds};
ghost use Rattle.dv_window.specs.RowForms as spec;

use crate::row_forms::{RowForm, is_wide};
use dv_catalog::{Catalog, FeedDef, Parent};
use dv_records::{PitRow, Rows};
use dv_text::List;

/// The form of the rows of a hub's point-in-time table: they have so many cells, and a hash key of
/// so many bytes.
#[derive(Clone, Copy)]
pub(crate) struct PitForm {
    pub(crate) cells: usize,
    pub(crate) width: u8,
}

impl RowForm<PitRow> for PitForm {
    ghost use Rattle.dv_window.specs.RowForms.{is_sound_pit, pits_counted, pits_in};

    ghost own = { pits_in };

    ghost is_sound = { is_sound_pit };

    fn own(&self, rows: Rows) -> Option<List<PitRow>> {
        match rows {
            Rows::Pits(rows) => Some(rows),
            _ => None,
        }
    }

    fn is_sound(&self, row: &PitRow) -> bool {
        row.cells.items().len() == self.cells && is_wide(&row.key, self.width)
    }

    ghost counted = { pits_counted };
}

// Whether a feed delivers the keys of a hub.
fn is_of_hub(feed: &FeedDef, hub: u32) -> bool
    ensures { result ≡ is_fed_by (parents.Hub hub) (Some feed.now) }
{
    feed.parent == Parent::Hub(hub)
}

// How many of the feeds deliver the keys of a hub.
fn count_of(feeds: &[FeedDef], hub: u32) -> usize
    ensures { result ≡ count_by (λ feed. is_fed_by (parents.Hub hub) (Some feed)) feeds.now }
{
    feeds.iter().filter(|feed| is_of_hub(feed, hub)).count()
}

// How many feeds a hub has.
fn feed_count(catalog: &Catalog, hub: u32) -> usize
    ensures { result ≡ length (hub_feeds catalog.now hub) }
{
    count_of(catalog.feeds(), hub)
}

/// The form of the rows of a hub's table, where digests have so many bytes. Takes no memory.
pub(crate) fn pit_form(catalog: &Catalog, width: u8, hub: u32) -> PitForm
    ensures { result ≡ spec.pit_form catalog.now width hub }
{
    PitForm {
        cells: feed_count(catalog, hub),
        width,
    }
}
