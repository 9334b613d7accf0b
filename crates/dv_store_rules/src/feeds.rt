// What the rules of the rows of a feed's tables look up.
ghost use Rattle.std.specs.Prelude.{◌≡◌, ◌≤◌, ℕ, IfOk, Some, map, option_map, slice_get};
ghost use Rattle.dv_catalog.specs.Feeds.{source_by};
ghost use Rattle.dv_catalog.specs.Mappings.{has_number};
ghost use Rattle.dv_store_rules.specs.FormRules as spec;
ghost use Rattle.dv_store_rules.specs.FormRules.{is_delivered};
ghost use Rattle.dv_store_rules.specs.KnownTables as tables;
ghost use Rattle.dv_store_rules.specs.OwnRules.{feed_late};

use crate::frames::Frame;
use crate::known::Known;
use crate::parents::is_under;
use dv_catalog::{Catalog, FeedDef, Parent};
use dv_text::{Digest, Memory, Text};

/// What was read before the tables of a feed, the feed's parent, the load dates of the windows that have the feed, and the
/// record sources.
#[derive(Drop)]
pub(crate) struct FeedFrame<'a> {
    pub(crate) known: Known<'a>,
    pub(crate) parent: Option<Parent>,
    pub(crate) frame: Frame,
}

/// The feed at a place; none past the last one. Takes no memory.
pub(crate) fn feed_at(catalog: &Catalog, feed: u32) -> Option<&FeedDef>
    ensures { option_map (λ def. def.now) result ≡ slice_get catalog.now.feeds feed }
{
    catalog.feeds().get(feed as usize)
}

/// How many attributes the rows of the feed at a place have, at most 32. Takes no memory.
pub(crate) fn attr_count(catalog: &Catalog, feed: u32) -> usize
    ensures value { result ≡ spec.attr_count catalog.now feed }
    ensures few { result ≤ 32 }
{
    catalog.note_valid();
    match feed_at(catalog, feed) {
        Some(def) => def.attrs.items().len(),
        None => 0,
    }
}

/// How many columns of the sub the rows of the feed at a place have. Takes no memory.
pub(crate) fn sub_count(catalog: &Catalog, feed: u32) -> usize
    ensures { result ≡ spec.sub_count catalog.now feed }
{
    match feed_at(catalog, feed) {
        Some(def) => def.sub.items().len(),
        None => 0,
    }
}

impl<'a> FeedFrame<'a> {
    /// That of the feed at a place.
    pub(crate) fn of(known: &Known<'a>, feed: u32) -> Result<FeedFrame<'a>, Memory>
        ensures known { IfOk result (λ made. made.known ≡ known.now) }
        ensures parent { IfOk result (λ made. made.parent ≡ option_map (λ def. def.parent) (slice_get known.now.catalog.now.feeds feed)) }
        ensures loads { IfOk result (λ made. (load : ℕ) → has_number made.frame.loads load ≡ is_delivered known.now.heads.now feed load) }
        ensures sources { IfOk result (λ made. made.frame.sources ≡ map (λ feed. source_by (Some feed)) known.now.catalog.now.feeds) }
    {
        let catalog = known.catalog;
        let parent = feed_at(catalog, feed).map(|def| def.parent);
        let frame = Frame::of_feed(catalog.allocator(), catalog, known.heads, feed)?;
        Ok(FeedFrame {
            known: *known,
            parent,
            frame,
        })
    }

    /// The first of the rules F8 and F9 that a row of this record source and this parent breaks; none where it breaks
    /// none. Takes no memory.
    pub(crate) fn late(&self, source: &Text, parent: &Digest) -> Option<u8>
        ensures { result ≡ feed_late self.now.frame.sources (tables.is_under self.now.known.hubs.now self.now.known.links.now self.now.parent parent.now) source.now }
    {
        if !self.frame.has_source(source) {
            return Some(8);
        }
        if !is_under(&self.known, self.parent, parent) {
            return Some(9);
        }
        None
    }
}
