// What the rules of every kind of rows look up: load dates and record sources.
ghost use Rattle.std.specs.Prelude.{◌≡◌, ℕ, IfOk, Some, map};
ghost use Rattle.std.specs.List.{list_any};
ghost use Rattle.std.specs.Str.{bytes_eq};
ghost use Rattle.dv_catalog.specs.Feeds.{source_by};
ghost use Rattle.dv_catalog.specs.Mappings.{has_number};
ghost use Rattle.dv_store_rules.specs.FormRules.{is_delivered, is_loaded};
ghost use Rattle.dv_store_rules.specs.OwnRules as spec;
ghost use Rattle.dv_store_rules.specs.OwnRules.{first_rules};

use crate::loads::Loads;
use dv_catalog::{Catalog, FeedDef, record_source};
use dv_text::{List, Memory, Stamp, Text, WindowHead};
use std::alloc::Global;

/// The load dates of windows, and the record sources of a mapping.
#[derive(Drop)]
pub(crate) struct Frame {
    pub(crate) loads: Loads,
    pub(crate) sources: List<Text>,
}

// The record source of each feed.
fn sources_of(alloc: Global, feeds: &[FeedDef]) -> Result<List<Text>, Memory>
    ensures { IfOk result (λ made. made ≡ map (λ feed. source_by (Some feed)) feeds.now) }
{
    let mut made = List::with_room(alloc, feeds.len())?;
    for feed in feeds {
        made.push(record_source(alloc, feed)?)?;
    }
    Ok(made)
}

// Whether a record source is among sources.
fn is_among(sources: &[Text], source: &Text) -> bool
    ensures { result ≡ list_any (λ other. bytes_eq source.now other) sources.now }
{
    sources.iter().any(|other| source == other)
}

impl Frame {
    /// The first of the rules F4 to F6 that a row breaks, where it is known whether it has its form and stands behind the
    /// row before it; none where it breaks none. Takes no memory.
    pub(crate) fn early(&self, form: bool, load: Stamp, behind: bool) -> Option<u8>
        ensures { result ≡ first_rules self.now.loads form load behind }
    {
        if !form {
            return Some(4);
        }
        if !self.loads.has(load) {
            return Some(5);
        }
        if !behind {
            return Some(6);
        }
        None
    }

    /// Whether a record source is that of a feed. Takes no memory.
    pub(crate) fn has_source(&self, source: &Text) -> bool
        ensures { result ≡ spec.is_among self.now.sources source.now }
    {
        is_among(self.sources.items(), source)
    }

    /// The load dates of all windows.
    pub(crate) fn of(
        alloc: Global,
        catalog: &Catalog,
        heads: &[WindowHead],
    ) -> Result<Frame, Memory>
        ensures loads { IfOk result (λ frame. (load : ℕ) → has_number frame.loads load ≡ is_loaded heads.now load) }
        ensures sources { IfOk result (λ frame. frame.sources ≡ map (λ feed. source_by (Some feed)) catalog.now.feeds) }
    {
        let loads = Loads::of(alloc, heads)?;
        let sources = sources_of(alloc, catalog.feeds())?;
        Ok(Frame { loads, sources })
    }

    /// The load dates of the windows that have a feed.
    pub(crate) fn of_feed(
        alloc: Global,
        catalog: &Catalog,
        heads: &[WindowHead],
        feed: u32,
    ) -> Result<Frame, Memory>
        ensures loads { IfOk result (λ frame. (load : ℕ) → has_number frame.loads load ≡ is_delivered heads.now feed load) }
        ensures sources { IfOk result (λ frame. frame.sources ≡ map (λ feed. source_by (Some feed)) catalog.now.feeds) }
    {
        let loads = Loads::of_feed(alloc, heads, feed)?;
        let sources = sources_of(alloc, catalog.feeds())?;
        Ok(Frame { loads, sources })
    }
}
