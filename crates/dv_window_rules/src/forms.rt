// Whether a stored window is such as reading extracts leaves.
ghost use Rattle.std.specs.Prelude.{◌≡◌, ◌==◌, ◌||◌, IfOk, is_none, length, map, nat_le, sum_by};
ghost use Rattle.std.specs.List.{list_all};
ghost use Rattle.std.specs.Ordering.{is_lt, nat_cmp};
ghost use Rattle.dv_records.specs.Limits.{most_window_records};
ghost use Rattle.dv_records.specs.States as states;

use crate::limits::{MOST_RECORDS, MOST_WINDOW_RECORDS};
use crate::row_forms::is_row_of;
use crate::row_orders::are_in_order;
use dv_catalog::{Catalog, FeedDef, Rule};
use dv_stage::two_drivers;
use dv_text::{Memory, NRow, Staged, Window};
use std::alloc::Global;

fn is_earlier(some: &Staged, other: &Staged) -> bool
    ensures { result ≡ is_lt (nat_cmp some.now.feed other.now.feed) }
{
    some.feed.cmp(&other.feed).is_lt()
}

fn feeds_ascend(extracts: &[Staged]) -> bool
    ensures { result ≡ states.ascends (map (λ staged. staged.feed) extracts.now) }
{
    extracts.is_sorted_by(|before, staged| is_earlier(before, staged))
}

// Whether the rows of extracts together are no more than those of a window may be.
fn are_few(extracts: &[Staged]) -> bool
    ensures { result ≡ nat_le (sum_by (λ staged. length staged.rows) extracts.now) most_window_records }
{
    let mut room = MOST_WINDOW_RECORDS;
    for staged in extracts {
        let count = staged.rows.items().len();
        if count > room {
            return false;
        }
        room -= count;
    }
    true
}

// Whether a rule is kept, of the answer of a test for it.
fn is_kept(broken: Option<Rule>) -> bool
    ensures { result ≡ is_none broken }
{
    broken.is_none()
}

// Whether no two rows with the same driving keys have other references, where the feed has a driver.
fn have_one_partner(alloc: Global, feed: &FeedDef, rows: &[NRow]) -> Result<bool, Memory>
    ensures { IfOk result (λ one. one ≡ ((length feed.now.driver == 0) || states.holds_of_each_two (states.is_one_partner feed.now) rows.now)) }
{
    Ok(is_kept(two_drivers(alloc, feed, rows)?))
}

fn are_in_form(catalog: &Catalog, feed: &FeedDef, rows: &[NRow]) -> bool
    ensures { result ≡ list_all (states.is_row_of catalog.now feed.now) rows.now }
{
    rows.iter().all(|row| is_row_of(catalog, feed, row))
}

// Whether rows are such as reading an extract of a feed leaves.
fn are_rows_of(catalog: &Catalog, feed: &FeedDef, rows: &[NRow]) -> Result<bool, Memory>
    ensures { IfOk result (λ whole. whole ≡ states.are_rows_of catalog.now feed.now rows.now) }
{
    if rows.len() > MOST_RECORDS || !are_in_order(rows) || !are_in_form(catalog, feed, rows) {
        return Ok(false);
    }
    have_one_partner(catalog.allocator(), feed, rows)
}

// Whether the feed of an extract is in the mapping, and its rows are such as reading leaves.
fn is_staged(catalog: &Catalog, staged: &Staged) -> Result<bool, Memory>
    ensures { IfOk result (λ whole. whole ≡ states.is_staged catalog.now staged.now) }
{
    match catalog.feeds().get(staged.feed as usize) {
        Some(feed) => are_rows_of(catalog, feed, staged.rows.items()),
        None => Ok(false),
    }
}

fn are_staged(catalog: &Catalog, extracts: &[Staged]) -> Result<bool, Memory>
    ensures { IfOk result (λ whole. whole ≡ list_all (states.is_staged catalog.now) extracts.now) }
{
    for staged in extracts {
        if !is_staged(catalog, staged)? {
            return Ok(false);
        }
    }
    Ok(true)
}

/// Whether a window is such as reading extracts leaves. It has at least one extract, and their feeds ascend and
/// are in the mapping. The rows of each ascend and are distinct, at most 200,000, and at most 400,000 in the
/// window. Each row has the form of its feed: as many references, parts of each key, columns of the sub and
/// attributes, each text in its normal form and of at most 4,096 bytes, some reference that isn't missing, and no
/// missing driving key. No two rows of an extract have the same references and sub, and where the feed has a
/// driver none with the same driving keys have other references. Want of memory is the error: the driving keys
/// are copied and sorted, and each other rule is a walk over the rows.
pub fn is_window(catalog: &Catalog, window: &Window) -> Result<bool, Memory>
    ensures { IfOk result (λ whole. whole ≡ states.is_window catalog.now window.now) }
{
    let extracts = window.extracts.items();
    if extracts.is_empty() || !feeds_ascend(extracts) || !are_few(extracts) {
        return Ok(false);
    }
    are_staged(catalog, extracts)
}
