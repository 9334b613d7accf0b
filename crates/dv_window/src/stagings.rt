// The window that extracts read as, where workers stage them side by side.
ghost use Rattle.std.specs.Prelude.{◌≡◌, ◌<◌, ◌≤◌, IfOk, IfErr, IfSome, None, length, option_map};
ghost use Rattle.dv_catalog.specs.Readings.Read.{Taken};
ghost use Rattle.dv_catalog.specs.Windows.{window_of, window_rule};
ghost use Rattle.dv_stage.specs.Faults.{TellsRule};
ghost use Rattle.dv_window_rules.specs.Staging.{TellsFeed, read_at};
ghost use Rattle.dv_window.specs.Stagings.{AreTried, IsTried};

use dv_catalog::{Catalog, WindowIn};
use dv_crew::{Order, run_tasks};
use dv_outside::OpenGate;
use dv_stage::{StageFault, Staged2};
use dv_text::{List, Memory, Window};
use dv_window_rules::{room_after, stage_feed, stage_window};
use std::alloc::Global;
use std::thread::Threads;

// Stages the extract that is given for a feed as if no feed stood before it, so with all the room
// that an extract can have. None where none is given, or it breaks a rule.
fn try_feed(
    alloc: Global,
    catalog: &Catalog,
    given: &WindowIn,
    feed: u32,
) -> Result<Option<Staged2>, Memory>
    requires { feed < length catalog.now.feeds }
    ensures { IfOk result (IsTried catalog.now given.now.extracts feed) }
{
    match stage_feed(alloc, catalog, given, feed, 0) {
        Ok(read) => Ok(read),
        Err(StageFault::Broken(_)) => Ok(None),
        Err(StageFault::Memory) => Err(Memory),
    }
}

// The same of all feeds, by so many workers.
fn try_feeds<R: Threads + Sync>(
    rt: &R,
    alloc: Global,
    catalog: &Catalog,
    given: &WindowIn,
    workers: u32,
) -> Result<Vec<Option<Staged2>>, Memory>
    requires workers { (1 ≤ workers) × (workers ≤ 64) }
    ensures { IfOk result (λ tried. AreTried catalog.now given.now.extracts 0 tried.items) }
{
    let job = |feed: u32| -> Result<Option<Staged2>, Memory>
        requires { feed < length catalog.now.feeds }
        ensures { IfOk result (IsTried catalog.entry.now given.entry.now.extracts feed) }
    { try_feed(alloc, catalog, given, feed) };
    let feeds = catalog.feed_count();
    let tried = run_tasks(rt, alloc, &job, feeds, workers, Order::Declared, &OpenGate)?;
    Ok(tried.into_vec()?)
}

// Stages the extract that is given for a feed where so many records were taken before it: as it
// was tried, where the room that is left has place for its records, and else again.
fn with_room(
    alloc: Global,
    catalog: &Catalog,
    given: &WindowIn,
    feed: u32,
    taken: u64,
    tried: Option<Staged2>,
) -> Result<Option<Staged2>, StageFault>
    requires feed { feed < length catalog.now.feeds }
    requires tried { IsTried catalog.now given.now.extracts feed tried }
    ensures ok { IfOk result (λ staged. option_map (λ s. Taken s.staged.rows s.taken) staged ≡ read_at catalog.now given.now.extracts taken feed) }
    ensures place { IfOk result (λ staged. IfSome staged (λ s. s.staged.feed ≡ feed)) }
    ensures broken { IfErr result (λ e. TellsFeed e (read_at catalog.now given.now.extracts taken feed)) }
{
    let room = room_after(taken);
    match tried {
        Some(read) if read.taken <= room => Ok(Some(read)),
        _ => stage_feed(alloc, catalog, given, feed, taken),
    }
}

// Tries the extracts of all feeds, and goes through them in declared order with the records that
// were taken so far.
fn stage_side_by_side<R: Threads + Sync>(
    rt: &R,
    alloc: Global,
    catalog: &Catalog,
    given: &WindowIn,
    workers: u32,
) -> Result<Window, StageFault>
    requires workers { (1 ≤ workers) × (workers ≤ 64) }
    ensures ok { IfOk result (λ window. (window_rule catalog.now given.now ≡ None) × (window ≡ window_of catalog.now given.now)) }
    ensures broken { IfErr result (λ e. TellsRule e (window_rule catalog.now given.now)) }
{
    catalog.note_valid();
    let mut extracts = List::new(alloc);
    let mut feed: u32 = 0;
    let mut taken: u64 = 0;
    for tried in try_feeds(rt, alloc, catalog, given, workers)? {
        if let Some(read) = with_room(alloc, catalog, given, feed, taken, tried)? {
            taken += u64::from(read.taken);
            extracts.push(read.staged)?;
        }
        feed += 1;
    }
    Ok(Window {
        load: given.load,
        extracts,
    })
}

/// Stages the extracts of a window by so many workers, and answers what staging them one after
/// another in declared order does, whatever the order in which they are given: the window, or the
/// first rule, W7 to W18, of the first feed whose extract breaks one. One worker does just that,
/// and ends at that rule.
pub(crate) fn stage_extracts<R: Threads + Sync>(
    rt: &R,
    alloc: Global,
    catalog: &Catalog,
    given: &WindowIn,
    workers: u32,
) -> Result<Window, StageFault>
    requires workers { (1 ≤ workers) × (workers ≤ 64) }
    ensures ok { IfOk result (λ window. (window_rule catalog.now given.now ≡ None) × (window ≡ window_of catalog.now given.now)) }
    ensures broken { IfErr result (λ e. TellsRule e (window_rule catalog.now given.now)) }
{
    if workers == 1 {
        return stage_window(alloc, catalog, given);
    }
    stage_side_by_side(rt, alloc, catalog, given, workers)
}
