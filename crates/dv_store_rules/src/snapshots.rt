// The form of the heads of stored snapshots.
ghost use Rattle.std.specs.Prelude.{◌≡◌, Some, slice_get, take};
ghost use Rattle.dv_store_rules.specs.SnapshotHeads as spec;

use crate::flaws::Flaw;
use crate::heads::is_later;
use dv_records::SnapHead;
use dv_text::{Stamp, WindowHead};

/// What all snapshots may weigh together.
pub const MOST_SNAPSHOT_WEIGHT: u64 = 268_435_456;

/// How many snapshots may be stored.
pub const MOST_SNAPSHOTS: usize = 1_000;

// Whether a date is later than that of the last of these snapshots, if there is one.
fn is_after(heads: &[SnapHead], date: Stamp) -> bool
    ensures { result ≡ spec.is_after heads.now date }
{
    match heads.last() {
        Some(last) => last.date < date,
        None => true,
    }
}

// Whether the snapshot at a place has the form of a stored one, behind those before it, which weigh so much.
fn is_snapshot(
    windows: &[WindowHead],
    heads: &[SnapHead],
    place: usize,
    weight: u64,
    head: &SnapHead,
) -> bool
    requires there { slice_get heads.now place ≡ Some head.now }
    requires weight { weight ≡ spec.heads_weight (take place heads.now) }
    ensures { result ≡ spec.is_snapshot windows.now (take place heads.now) head.now }
{
    is_after(&heads[..place], head.date)
        && !is_later(windows, head.date)
        && weight.saturating_add(head.weight) <= MOST_SNAPSHOT_WEIGHT
        && place < MOST_SNAPSHOTS
}

/// The first snapshot by date whose head breaks the rule F14, where these windows are sealed: it is later than the one
/// before it and not later than the last window, weighs no more than 268,435,456 together with those before it, and is one of the first 1,000.
/// None where no head breaks it. Takes no memory; one walk over the heads.
pub fn snapshot_flaw(windows: &[WindowHead], heads: &[SnapHead]) -> Option<Flaw>
    ensures { result ≡ spec.snapshot_flaw windows.now heads.now }
{
    let mut weight: u64 = 0;
    for place in 0..heads.len() {
        let head = &heads[place];
        if !is_snapshot(windows, heads, place, weight, head) {
            return Some(Flaw {
                row: place as u64 + 1,
                rule: 14,
            });
        }
        weight += head.weight;
    }
    None
}
