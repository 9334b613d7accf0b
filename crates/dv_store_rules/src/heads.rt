// The form of the heads of sealed windows, and of the open window.
ghost use Rattle.std.specs.Prelude.{◌≡◌, ◌<◌, IfOk, Some, nat_lt, slice_get, take};
ghost use Rattle.std.specs.List.{list_all};
ghost use Rattle.dv_records.specs.States as states;
ghost use Rattle.dv_store_rules.specs.StoredHeads as spec;

use crate::flaws::Flaw;
use dv_catalog::Catalog;
use dv_text::{Memory, Stamp, Window, WindowHead};
use dv_window_rules::{MOST_WINDOWS, is_window};

// Whether numbers ascend, each but the first greater than the one before it.
fn ascend(numbers: &[u32]) -> bool
    ensures { result ≡ states.ascends numbers.now }
{
    for place in 1..numbers.len() {
        if numbers[place] <= numbers[place - 1] {
            return false;
        }
    }
    true
}

// Whether numbers are below another one.
fn are_below(numbers: &[u32], limit: u32) -> bool
    ensures { result ≡ list_all (λ number. nat_lt number limit) numbers.now }
{
    numbers.iter().all(|number| *number < limit)
}

// Whether there is a feed, and the feeds ascend and are in the mapping.
fn are_feeds(catalog: &Catalog, feeds: &[u32]) -> bool
    ensures { result ≡ spec.are_feeds catalog.now feeds.now }
{
    !feeds.is_empty() && ascend(feeds) && are_below(feeds, catalog.feed_count())
}

/// Whether a date is later than that of the last of these windows, if there is one.
pub(crate) fn is_later(heads: &[WindowHead], load: Stamp) -> bool
    ensures { result ≡ spec.is_later heads.now load }
{
    match heads.last() {
        Some(last) => last.load < load,
        None => true,
    }
}

// Whether the window at a place has the form of a sealed one, behind those before it.
fn is_head(catalog: &Catalog, heads: &[WindowHead], place: usize, head: &WindowHead) -> bool
    requires { slice_get heads.now place ≡ Some head.now }
    ensures { result ≡ spec.is_head catalog.now (take place heads.now) head.now }
{
    is_later(&heads[..place], head.load)
        && are_feeds(catalog, head.feeds.items())
        && place < MOST_WINDOWS
}

/// The first sealed window, in the order in which they were sealed, whose head breaks the rule F2: it is later than
/// the one before it, has feeds of the mapping, ascending, at least one, and is one of the first 10,000. None where
/// no head breaks it. Takes no memory; one walk over the heads.
pub fn head_flaw(catalog: &Catalog, heads: &[WindowHead]) -> Option<Flaw>
    ensures { result ≡ spec.head_flaw catalog.now heads.now }
{
    for place in 0..heads.len() {
        if !is_head(catalog, heads, place, &heads[place]) {
            return Some(Flaw {
                row: place as u64 + 1,
                rule: 2,
            });
        }
    }
    None
}

/// Whether the open window has the form of one, by the rule F3: it is later than the last sealed window, and its extracts
/// are such as reading them leaves. Want of memory is the error.
pub fn is_stage(catalog: &Catalog, heads: &[WindowHead], window: &Window) -> Result<bool, Memory>
    ensures { IfOk result (λ whole. whole ≡ spec.is_stage catalog.now heads.now window.now) }
{
    if !is_later(heads, window.load) {
        return Ok(false);
    }
    is_window(catalog, window)
}
