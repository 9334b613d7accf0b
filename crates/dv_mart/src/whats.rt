ghost use Rattle.std.specs.Prelude.{◌≡◌, IfOk, IfSome, Some, None, option_and_then, option_map};
ghost use Rattle.dv_print.specs.Words.{behind as behind_front};
ghost use Rattle.dv_mart.specs.OfferedMarts.{IsOffered};
ghost use Rattle.dv_mart.specs.Whats as spec;

use dv_catalog::{Catalog, TableId};
use dv_text::{Memory, Text};
use std::alloc::Global;

/// A mart or a table, by the place of its feed, hub or path in declared order.
#[derive(Clone, Copy, Debug, PartialEq, Eq)]
pub enum What {
    /// The rows of a feed.
    Feed(u32),
    /// The keys of a hub, with the attributes that its feeds give.
    Hub(u32),
    /// The reference lists of a path's feeds, joined.
    Path(u32),
    /// From when to when each reference list of a feed was in force.
    Period(u32),
    /// A raw table.
    Table(TableId),
    /// The point-in-time table of a hub.
    Pit(u32),
    /// The bridge table of a path.
    Bridge(u32),
}

// What stands behind a kind, where the word begins with it.
fn behind<'a>(kind: &[u8], word: &'a [u8]) -> Option<&'a [u8]>
    ensures { option_map (λ rest. rest.now) result ≡ behind_front kind.now word.now }
{
    word.strip_prefix(kind)
}

// The feed's mart that a word names.
fn feed_word(alloc: Global, catalog: &Catalog, word: &Text) -> Result<Option<What>, Memory>
    ensures { IfOk result (λ what. what ≡ spec.feed_word catalog.now word.now) }
{
    let Some(rest) = behind(b"feed:", word.bytes()) else {
        return Ok(None);
    };
    let name = Text::of(alloc, rest)?;
    match catalog.find_feed(&name) {
        Some(feed) => Ok(Some(What::Feed(feed))),
        None => Ok(None),
    }
}

// The place of the hub that a word of a kind names.
fn hub_behind(
    alloc: Global,
    catalog: &Catalog,
    kind: &[u8],
    word: &Text,
) -> Result<Option<u32>, Memory>
    ensures { IfOk result (λ hub. hub ≡ option_and_then (spec.hub_place catalog.now) (behind_front kind.now word.now)) }
{
    let Some(rest) = behind(kind, word.bytes()) else {
        return Ok(None);
    };
    let name = Text::of(alloc, rest)?;
    Ok(catalog.find_hub(&name))
}

// The mart of a hub that a word names.
fn hub_word(alloc: Global, catalog: &Catalog, word: &Text) -> Result<Option<What>, Memory>
    ensures { IfOk result (λ what. what ≡ spec.hub_word catalog.now word.now) }
{
    match hub_behind(alloc, catalog, b"hub:", word)? {
        Some(hub) => Ok(Some(What::Hub(hub))),
        None => Ok(None),
    }
}

// The place of the feed with a name, where it has a driver.
fn driver_feed(catalog: &Catalog, name: &Text) -> Option<u32>
    ensures { result ≡ spec.driver_feed_place catalog.now name.now }
{
    let feed = catalog.find_feed(name)?;
    if catalog.feed(feed).driver.items().is_empty() {
        None
    } else {
        Some(feed)
    }
}

// The place of the path that a word of a kind names.
fn path_behind(
    alloc: Global,
    catalog: &Catalog,
    kind: &[u8],
    word: &Text,
) -> Result<Option<u32>, Memory>
    ensures { IfOk result (λ path. path ≡ option_and_then (spec.path_place catalog.now) (behind_front kind.now word.now)) }
{
    let Some(rest) = behind(kind, word.bytes()) else {
        return Ok(None);
    };
    let name = Text::of(alloc, rest)?;
    Ok(catalog.find_path(&name))
}

// The mart of a path that a word names.
fn path_word(alloc: Global, catalog: &Catalog, word: &Text) -> Result<Option<What>, Memory>
    ensures { IfOk result (λ what. what ≡ spec.path_word catalog.now word.now) }
{
    match path_behind(alloc, catalog, b"path:", word)? {
        Some(path) => Ok(Some(What::Path(path))),
        None => Ok(None),
    }
}

// The mart of a feed's periods that a word names.
fn period_word(alloc: Global, catalog: &Catalog, word: &Text) -> Result<Option<What>, Memory>
    ensures { IfOk result (λ what. what ≡ spec.period_word catalog.now word.now) }
{
    let Some(rest) = behind(b"period:", word.bytes()) else {
        return Ok(None);
    };
    let name = Text::of(alloc, rest)?;
    match driver_feed(catalog, &name) {
        Some(feed) => Ok(Some(What::Period(feed))),
        None => Ok(None),
    }
}

// The raw table that a word names.
fn table_word(alloc: Global, catalog: &Catalog, word: &Text) -> Result<Option<What>, Memory>
    ensures { IfOk result (λ what. what ≡ spec.table_word catalog.now word.now) }
{
    let Some(rest) = behind(b"table:", word.bytes()) else {
        return Ok(None);
    };
    let name = Text::of(alloc, rest)?;
    match catalog.find_table(&name)? {
        Some(table) => Ok(Some(What::Table(table))),
        None => Ok(None),
    }
}

// The point-in-time table of a hub that a word names.
fn pit_word(alloc: Global, catalog: &Catalog, word: &Text) -> Result<Option<What>, Memory>
    ensures { IfOk result (λ what. what ≡ spec.pit_word catalog.now word.now) }
{
    match hub_behind(alloc, catalog, b"pit:", word)? {
        Some(hub) => Ok(Some(What::Pit(hub))),
        None => Ok(None),
    }
}

// The bridge table of a path that a word names.
fn bridge_word(alloc: Global, catalog: &Catalog, word: &Text) -> Result<Option<What>, Memory>
    ensures { IfOk result (λ what. what ≡ spec.bridge_word catalog.now word.now) }
{
    match path_behind(alloc, catalog, b"bridge:", word)? {
        Some(path) => Ok(Some(What::Bridge(path))),
        None => Ok(None),
    }
}

// A mart itself; a raw table, a point-in-time table and a bridge table are none.
fn if_mart(what: What) -> Option<What>
    ensures { result ≡ spec.if_mart what }
{
    match what {
        What::Table(_) | What::Pit(_) | What::Bridge(_) => None,
        What::Feed(_) | What::Hub(_) | What::Path(_) | What::Period(_) => Some(what),
    }
}

impl What {
    /// What a word names; none where it names nothing of the mapping. The marts of feeds are named as `feed:F`, those
    /// of hubs as `hub:H`, those of paths as `path:P`, the periods of feeds with a driver as `period:F`, the raw tables
    /// as `table:T`, the point-in-time tables of hubs as `pit:H`, and the bridge tables of paths as `bridge:P`.
    ///
    /// `feed:accounts` is `What::Feed(1)` where `accounts` is the mapping's second feed, and
    /// `feed:clients` is `None` where it has no such feed.
    pub fn read(alloc: Global, catalog: &Catalog, word: &Text) -> Result<Option<What>, Memory>
        ensures { IfOk result (λ what. what ≡ spec.what_of catalog.now word.now) }
    {
        if let Some(what) = feed_word(alloc, catalog, word)? {
            return Ok(Some(what));
        }
        if let Some(what) = hub_word(alloc, catalog, word)? {
            return Ok(Some(what));
        }
        if let Some(what) = path_word(alloc, catalog, word)? {
            return Ok(Some(what));
        }
        if let Some(what) = period_word(alloc, catalog, word)? {
            return Ok(Some(what));
        }
        if let Some(what) = table_word(alloc, catalog, word)? {
            return Ok(Some(what));
        }
        match pit_word(alloc, catalog, word)? {
            Some(what) => Ok(Some(what)),
            None => bridge_word(alloc, catalog, word),
        }
    }

    /// What a word names, where it is a mart: a raw table, a point-in-time table and a bridge table
    /// are none. `hub:customer` is `What::Hub(0)` for the first hub, and `table:sat_customers` is
    /// `None`.
    pub fn read_mart(alloc: Global, catalog: &Catalog, word: &Text) -> Result<Option<What>, Memory>
        ensures mart { IfOk result (λ what. what ≡ spec.offered_mart catalog.now word.now) }
        ensures offered { IfOk result (λ what. IfSome what (IsOffered catalog.now)) }
    {
        match What::read(alloc, catalog, word)? {
            Some(what) => Ok(if_mart(what)),
            None => Ok(None),
        }
    }
}
