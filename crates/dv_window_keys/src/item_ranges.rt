// Which of a window's items each of its tasks offers.
ghost use Rattle.std.specs.Prelude.{◌≡◌, ◌≤◌, IfOk, length};
ghost use Rattle.dv_window_keys.specs.WindowItems as spec;

use crate::items::WindowItem;
use crate::offered_items::ItemRange;
use crate::tasks::Task;
use dv_text::Memory;
use std::alloc::Global;

// Where the items of a feed end, of those with the numbers from `from` up to `to`.
fn end_of(items: &[WindowItem<'_>], from: u32, to: u32, feed: u32) -> u32
    requires range { (from ≤ to) × (to ≤ length items.now) }
    ensures { (from ≤ result) × (result ≤ to) }
{
    'numbers: for item in from..to {
        if items[item as usize].offer.feed != feed {
            return item;
        }
    }
    to
}

// The items that a task offers, of those with the numbers from `from` up to `to`: a keys task those of its feed, and
// another one none.
fn range_of(items: &[WindowItem<'_>], task: Task, from: u32, to: u32) -> ItemRange
    requires range { (from ≤ to) × (to ≤ length items.now) }
    ensures from { result.from ≡ from }
    ensures to { (from ≤ result.to) × (result.to ≤ to) }
{
    match task {
        Task::Keys(feed) => ItemRange {
            from,
            to: end_of(items, from, to, feed),
        },
        Task::Batch(_) => ItemRange { from, to: from },
    }
}

/// The items that each task offers, by the places of the tasks, and the number behind the last of them. Condition: there
/// are at most 2,000,000 items.
pub fn ranges_of(
    alloc: Global,
    tasks: &[Task],
    items: &[WindowItem<'_>],
) -> Result<(Vec<ItemRange>, u32), Memory>
    requires few { length items.now ≤ 2000000 }
    ensures ranges { IfOk result (λ r. spec.AreRanges (length items.now) r.0.items) }
    ensures many { IfOk result (λ r. length r.0.items ≡ length tasks.now) }
    ensures all { IfOk result (λ r. spec.AreUpTo r.0.items r.1) }
    ensures last { IfOk result (λ r. r.1 ≤ length items.now) }
{
    let count = items.len() as u32;
    let mut ranges = Vec::new(alloc);
    let mut end = 0u32;
    for task in tasks {
        let range = range_of(items, *task, end, count);
        ranges.push(range)?;
        end = range.to;
    }
    Ok((ranges, end))
}
