// Load dates that are looked up.
ghost use Rattle.std.specs.Prelude.{◌≡◌, ℕ, IfOk, map, nat_eq};
ghost use Rattle.std.specs.List.{list_any};
ghost use Rattle.dv_catalog.specs.Mappings.{has_number};
ghost use Rattle.dv_store_rules.specs.FormRules.{is_delivered, is_loaded};

use dv_text::{Memory, Stamp, WindowHead};
use std::alloc::Global;
use std::marker::Model;

/// Load dates, in order. Contracts see them as numbers.
#[derive(Drop)]
pub(crate) struct Loads {
    dates: Vec<Stamp>,
}

impl Model for Loads {
    ghost use Rattle.std.specs.Prelude.{List, ℕ};
    ghost use Rattle.std.specs.List.Sorted.{IsSorted};
    ghost use Rattle.std.specs.Ordering.{nat_cmp};

    ghost Value = { List ℕ };

    ghost view = { λ t. t.dates.items };

    ghost invariant = { λ t. IsSorted nat_cmp t.dates.items };
}

// Whether a window has a feed.
fn has_feed(head: &WindowHead, feed: u32) -> bool
    ensures { result ≡ list_any (λ other. nat_eq other feed) head.now.feeds }
{
    head.feeds.items().contains(&feed)
}

// The load dates of the windows.
fn all_dates(alloc: Global, heads: &[WindowHead]) -> Result<Vec<Stamp>, Memory>
    ensures { IfOk result (λ made. made.items ≡ map (λ head. head.load) heads.now) }
{
    Ok(heads.iter().map(|head| head.load).collect(alloc)?)
}

// The load dates of the windows that have a feed.
fn dates_with(alloc: Global, heads: &[WindowHead], feed: u32) -> Result<Vec<Stamp>, Memory>
    ensures { IfOk result (λ made. (load : ℕ) → has_number made.items load ≡ is_delivered heads.now feed load) }
{
    let mut made = Vec::new(alloc);
    for head in heads {
        if has_feed(head, feed) {
            made.push(head.load)?;
        }
    }
    Ok(made)
}

// Load dates in order.
fn in_order(dates: Vec<Stamp>) -> Loads
    ensures { (load : ℕ) → has_number result load ≡ has_number dates.items load }
{
    let mut dates = dates;
    dates.sort_unstable();
    Loads { dates }
}

impl Loads {
    /// The load dates of windows.
    pub(crate) fn of(alloc: Global, heads: &[WindowHead]) -> Result<Loads, Memory>
        ensures { IfOk result (λ loads. (load : ℕ) → has_number loads load ≡ is_loaded heads.now load) }
    {
        let dates = all_dates(alloc, heads)?;
        Ok(in_order(dates))
    }

    /// The load dates of the windows that have a feed.
    pub(crate) fn of_feed(alloc: Global, heads: &[WindowHead], feed: u32) -> Result<Loads, Memory>
        ensures { IfOk result (λ loads. (load : ℕ) → has_number loads load ≡ is_delivered heads.now feed load) }
    {
        let dates = dates_with(alloc, heads, feed)?;
        Ok(in_order(dates))
    }

    /// Whether a load date is among these: a binary search. Takes no memory.
    pub(crate) fn has(&self, load: Stamp) -> bool
        ensures { result ≡ has_number self.now load }
    {
        self.dates.binary_search(&load).is_ok()
    }
}
