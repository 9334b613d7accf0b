// The window that extracts read as, feed by feed in declared order.
ghost use Rattle.std.specs.Prelude.{◌≡◌, ◌<◌, IfOk, IfErr, IfSome, None, find, length, option_map};
ghost use Rattle.dv_catalog.specs.Readings.Read.{Taken};
ghost use Rattle.dv_catalog.specs.Windows as spec;
ghost use Rattle.dv_catalog.specs.Windows.{window_of, window_rule};
ghost use Rattle.dv_stage.specs.Faults.{TellsRule};
ghost use Rattle.dv_window_rules.specs.Staging.{TellsFeed, read_at};

use crate::limits::{MOST_RECORDS, MOST_WINDOW_RECORDS};
use dv_catalog::{Catalog, ExtractIn, FeedDef, WindowIn};
use dv_stage::{StageFault, Staged2, stage};
use dv_text::{List, Window};
use std::alloc::Global;

// The extract that is given for a feed: the first of its name.
fn given_for<'a>(extracts: &'a [ExtractIn], feed: &FeedDef) -> Option<&'a ExtractIn>
    ensures { option_map (λ extract. extract.now) result ≡ spec.given_for extracts.now feed.now }
{
    extracts.iter().find(|extract| extract.feed == feed.name)
}

/// How many records an extract may have, where so many were taken before it. Takes no memory.
pub fn room_after(taken: u64) -> u32
    ensures { result ≡ spec.room_after taken }
{
    let left = (MOST_WINDOW_RECORDS as u64).saturating_sub(taken);
    left.min(MOST_RECORDS as u64) as u32
}

/// Stages the extract that is given for the feed at a place, where so many records were taken before it. None
/// where none is given. Condition: the feed is in the mapping.
pub fn stage_feed(
    alloc: Global,
    catalog: &Catalog,
    given: &WindowIn,
    feed: u32,
    taken: u64,
) -> Result<Option<Staged2>, StageFault>
    requires { feed < length catalog.now.feeds }
    ensures ok { IfOk result (λ staged. option_map (λ s. Taken s.staged.rows s.taken) staged ≡ read_at catalog.now given.now.extracts taken feed) }
    ensures place { IfOk result (λ staged. IfSome staged (λ s. s.staged.feed ≡ feed)) }
    ensures broken { IfErr result (λ e. TellsFeed e (read_at catalog.now given.now.extracts taken feed)) }
{
    let Some(extract) = given_for(given.extracts.items(), catalog.feed(feed)) else {
        return Ok(None);
    };
    let staged = stage(
        alloc,
        catalog,
        feed,
        extract.bytes.items(),
        room_after(taken),
    )?;
    Ok(Some(staged))
}

/// Stages the extracts of a window, feed by feed in declared order, whatever the order in which they are
/// given. Where two are given for a feed, the first counts. Answers the window, or the first rule, W7 to
/// W18, of the first feed whose extract breaks one.
pub fn stage_window(
    alloc: Global,
    catalog: &Catalog,
    given: &WindowIn,
) -> Result<Window, StageFault>
    ensures ok { IfOk result (λ window. (window_rule catalog.now given.now ≡ None) × (window ≡ window_of catalog.now given.now)) }
    ensures broken { IfErr result (λ e. TellsRule e (window_rule catalog.now given.now)) }
{
    let mut extracts = List::new(alloc);
    let mut taken: u64 = 0;
    for feed in 0..catalog.feed_count() {
        if let Some(read) = stage_feed(alloc, catalog, given, feed, taken)? {
            taken += u64::from(read.taken);
            extracts.push(read.staged)?;
        }
    }
    Ok(Window {
        load: given.load,
        extracts,
    })
}
