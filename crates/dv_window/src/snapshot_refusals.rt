// Why no snapshot is made at a date.
ghost use Rattle.std.specs.Prelude.{◌≡◌, ◌+◌, ◌==◌, IfOk};
ghost use Rattle.std.specs.List.{list_any};
ghost use Rattle.dv_store_rules.specs.SnapshotHeads.{heads_weight};
ghost use Rattle.dv_window.specs.SnapshotRefusals as spec;

use dv_records::{SnapAnswer, SnapHead};
use dv_store_rules::{MOST_SNAPSHOT_WEIGHT, MOST_SNAPSHOTS};
use dv_text::{Memory, Stamp};

// The refusal of a date that is later than the last sealed load date, or where none is sealed.
fn future(last: Option<Stamp>, date: Stamp) -> Option<SnapAnswer>
    ensures { result ≡ spec.future_after last date }
{
    match last {
        Some(last) if date <= last => None,
        Some(last) => Some(SnapAnswer::Future { last: Some(last) }),
        None => Some(SnapAnswer::Future { last: None }),
    }
}

// Whether a snapshot is stored at a date.
fn is_taken(heads: &[SnapHead], date: Stamp) -> bool
    ensures { result ≡ list_any (λ head. head.date == date) heads.now }
{
    heads.iter().any(|head| head.date == date)
}

/// Why no snapshot is made at a date, as far as that is told before its tables are made: the date
/// is later than the last sealed load date, or none is sealed; or a snapshot is stored at it. Takes
/// no memory.
pub(crate) fn early_refusal(
    last: Option<Stamp>,
    heads: &[SnapHead],
    date: Stamp,
) -> Option<SnapAnswer>
    ensures { result ≡ spec.early_refusal last heads.now date }
{
    if let Some(answer) = future(last, date) {
        return Some(answer);
    }
    if is_taken(heads, date) {
        return Some(SnapAnswer::Repeated);
    }
    None
}

// What stored snapshots and a new one weigh together. What a number of 64 bits has no room for
// finds no room in memory.
fn weight_with(heads: &[SnapHead], head: &SnapHead) -> Result<u64, Memory>
    ensures { IfOk result (λ weight. weight ≡ heads_weight heads.now + head.now.weight) }
{
    let mut sum: u64 = 0;
    for stored in heads {
        sum = sum.checked_add(stored.weight).ok_or(Memory)?;
    }
    sum.checked_add(head.weight).ok_or(Memory)
}

/// Why a snapshot with this head is not stored beside those that are: they would weigh too much
/// together, or there are as many as there may be. Takes no memory; the error is that a number of
/// 64 bits has no room for what they weigh.
pub(crate) fn late_refusal(
    heads: &[SnapHead],
    head: &SnapHead,
) -> Result<Option<SnapAnswer>, Memory>
    ensures { IfOk result (λ answer. answer ≡ spec.late_refusal heads.now head.now) }
{
    let weight = weight_with(heads, head)?;
    if weight > MOST_SNAPSHOT_WEIGHT || heads.len() >= MOST_SNAPSHOTS {
        return Ok(Some(SnapAnswer::Full { weight }));
    }
    Ok(None)
}
