// The status rows of digests that appeared or vanished.
ghost use Rattle.std.specs.Prelude.{◌≡◌, ◌++◌, IfOk, OnOk};
ghost use Rattle.std.specs.Option.{option_map, option_to_list};
ghost use Rattle.std.specs.List.Sorted.{IsStrictlySortedBy};
ghost use Rattle.dv_records.specs.Batches.{digest_cmp};
ghost use Rattle.dv_records.specs.Statuses as statuses;
ghost use Rattle.dv_track.specs.Presences as spec;

use crate::heads::{least, left};
use dv_records::{Code, StatusRow};
use dv_text::{Digest, Duplicate, List, Memory, Stamp, Text};
use std::alloc::Global;

fn code_between(was: bool, now: bool) -> Option<Code>
    ensures { result ≡ statuses.code_between was now }
{
    match (was, now) {
        (false, true) => Some(Code::I),
        (true, false) => Some(Code::D),
        (true, true) | (false, false) => None,
    }
}

// The row of a digest that was there or not, and is there or not.
fn change(
    parent: &Digest,
    load: Stamp,
    source: &Text,
    was: bool,
    now: bool,
) -> Result<Option<StatusRow>, Memory>
    ensures { IfOk result (λ row. row ≡ option_map (λ code. record { parent = parent.now; load = load; source = source.now; code = code }) (statuses.code_between was now)) }
{
    match code_between(was, now) {
        Some(code) => {
            let source = source.copy()?;
            Ok(Some(StatusRow {
                parent: *parent,
                load,
                source,
                code,
            }))
        }
        None => Ok(None),
    }
}

/// Puts a row, if there is one, at the end.
pub(crate) fn add<R: Drop>(rows: &mut List<R>, row: Option<R>) -> Result<(), Memory>
    ensures { OnOk result (rows.new ≡ rows.old ++ option_to_list row) }
{
    match row {
        Some(row) => rows.push(row),
        None => Ok(()),
    }
}

// The rows of the digests that appeared or vanished from one ascending list to another. One walk over both.
pub(crate) fn changes_between(
    alloc: Global,
    load: Stamp,
    source: &Text,
    was: &[Digest],
    now: &[Digest],
) -> Result<List<StatusRow>, Memory>
    requires was { IsStrictlySortedBy digest_cmp was.now }
    requires now { IsStrictlySortedBy digest_cmp now.now }
    ensures { IfOk result (λ made. made ≡ spec.changes_between source.now load was.now now.now) }
{
    let (mut was, mut now) = (was, now);
    let mut made = List::new(alloc);
    while let Some(head) = least(was, now) {
        let row = change(&head.parent, load, source, head.was, head.now)?;
        add(&mut made, row)?;
        was = left(was, head.was);
        now = left(now, head.now);
    }
    Ok(made)
}
