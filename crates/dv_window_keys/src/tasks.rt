// The tasks of a window, which can be done in any order.
ghost use Rattle.std.specs.Prelude.{◌≡◌, ◌<◌, ◌≤◌, ◌++◌, IfOk, IsTrue, OnOk, length, map};
ghost use Rattle.dv_catalog.specs.Mappings.{is_valid};
ghost use Rattle.dv_catalog.specs.Tables as catalog_tables;
ghost use Rattle.dv_records.specs.States.{is_window};
ghost use Rattle.dv_window_keys.specs.Tasks as spec;

use dv_catalog::{Catalog, FeedDef, TableId};
use dv_text::{List, Memory, Window};
use std::alloc::Global;

/// A task of a window: to gather what a feed's rows bring to hubs and links, or to work out the rows that the
/// window adds to a table of a feed.
#[derive(Clone, Copy, Debug, PartialEq, Eq)]
pub enum Task {
    Keys(u32),
    Batch(TableId),
}

// Puts the task of a feed's satellite at the end, where it has one.
fn add_sat(tasks: &mut List<Task>, feed: u32, definition: &FeedDef) -> Result<(), Memory>
    ensures { OnOk result (tasks.new ≡ tasks.old ++ map (λ table. Task.Batch table) (catalog_tables.sat_tables feed definition.now.sub definition.now.attrs)) }
{
    if definition.attrs.items().is_empty() {
        return Ok(());
    }
    let table = if definition.sub.items().is_empty() {
        TableId::Sat(feed)
    } else {
        TableId::Multi(feed)
    };
    tasks.push(Task::Batch(table))
}

// Puts the task of a feed's effectivity at the end, where it has one.
fn add_effect(tasks: &mut List<Task>, feed: u32, definition: &FeedDef) -> Result<(), Memory>
    ensures { OnOk result (tasks.new ≡ tasks.old ++ map (λ table. Task.Batch table) (catalog_tables.effect_tables feed definition.now.driver)) }
{
    if definition.driver.items().is_empty() {
        return Ok(());
    }
    tasks.push(Task::Batch(TableId::Effect(feed)))
}

// Puts the tasks of a feed at the end: its keys, then its tables.
fn add_feed(tasks: &mut List<Task>, catalog: &Catalog, feed: u32) -> Result<(), Memory>
    requires { feed < length catalog.now.feeds }
    ensures { OnOk result (tasks.new ≡ tasks.old ++ spec.feed_tasks catalog.now feed) }
{
    let definition = catalog.feed(feed);
    tasks.push(Task::Keys(feed))?;
    add_sat(tasks, feed, definition)?;
    tasks.push(Task::Batch(TableId::Status(feed)))?;
    add_effect(tasks, feed, definition)
}

/// The tasks of a window, in the order of their numbers, which count from 0. Condition: it is a window of the mapping.
pub fn tasks_of(alloc: Global, catalog: &Catalog, window: &Window) -> Result<List<Task>, Memory>
    requires valid { IsTrue (is_valid catalog.now) }
    requires window { IsTrue (is_window catalog.now window.now) }
    ensures tasks { IfOk result (λ tasks. tasks ≡ spec.tasks catalog.now window.now) }
    ensures few { length (spec.tasks catalog.now window.now) ≤ 256 }
{
    let mut tasks = List::new(alloc);
    for staged in window.extracts.items() {
        add_feed(&mut tasks, catalog, staged.feed)?;
    }
    Ok(tasks)
}
