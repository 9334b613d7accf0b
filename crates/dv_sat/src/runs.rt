// Rows that stand together among rows in order.
ghost use Rattle.std.specs.Prelude.{◌≡◌, ◌==◌, ◌&&◌, filter};
ghost use Rattle.std.specs.List.Sorted.{IsStrictlySortedBy};
ghost use Rattle.std.specs.Str.{bytes_eq};
ghost use Rattle.std.specs.Ordering.{is_gt, is_lt};
ghost use Rattle.dv_text.specs.Orders.{row_cmp};
ghost use Rattle.dv_records.specs.Satellites.{rows_of};
ghost use Rattle.dv_sat.specs.MultiRows.{multi_order};
ghost use Rattle.dv_sat.specs.RowPlaces.{place_cmp};

use dv_records::MultiRow;
use dv_text::{Digest, Key, List, NRow, Stamp};
use std::cmp::Ordering;

fn compared(row: &MultiRow, parent: &Digest, load: Stamp) -> Ordering
    ensures { result ≡ place_cmp load parent.now row.now }
{
    row.load.cmp(&load).then_with(|| row.parent.cmp(parent))
}

/// The rows of a parent with a load date, which stand together. Takes no memory.
pub(crate) fn rows_with<'a>(rows: &'a [MultiRow], parent: &Digest, load: Stamp) -> &'a [MultiRow]
    requires { IsStrictlySortedBy multi_order rows.now }
    ensures { result.now ≡ filter (λ row. bytes_eq row.parent parent.now && row.load == load) rows.now }
{
    let start = rows.partition_point(|row| compared(row, parent, load).is_lt());
    let rest = &rows[start..];
    let end = rest.partition_point(|row| !compared(row, parent, load).is_gt());
    &rest[..end]
}

/// The rows of a reference list, which stand together. Takes no memory.
pub(crate) fn rows_of_list<'a>(rows: &'a [NRow], refs: &List<Key>) -> &'a [NRow]
    requires { IsStrictlySortedBy row_cmp rows.now }
    ensures { result.now ≡ rows_of rows.now refs.now }
{
    let start = rows.partition_point(|row| row.refs.cmp(refs).is_lt());
    let rest = &rows[start..];
    let end = rest.partition_point(|row| !row.refs.cmp(refs).is_gt());
    &rest[..end]
}
