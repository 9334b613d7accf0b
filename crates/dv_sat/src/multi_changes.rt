// The multi-active row of an extract's row, beside those that are valid for its parent.
ghost use Rattle.std.specs.Prelude.{◌≡◌, IfOk, IsTrue, map};
ghost use Rattle.std.specs.List.{list_all, zip};
ghost use Rattle.std.specs.List.Sorted.{IsStrictlySortedBy};
ghost use Rattle.std.specs.Cmp.Lexicographic.{pointwise};
ghost use Rattle.dv_text.specs.Keys.{hashes_of, row_eq};
ghost use Rattle.dv_text.specs.Orders.{row_cmp};
ghost use Rattle.dv_digest.specs.Fits as fits;
ghost use Rattle.dv_records.specs.Reconstruction.{described_row};
ghost use Rattle.dv_sat.specs.MultiRows.{multi_change_from};

use crate::runs::rows_of_list;
use crate::sat_changes::diff;
use dv_digest::Room;
use dv_records::MultiRow;
use dv_text::{Digest, Duplicate, Key, KeyDigest, List, Memory, NRow, Stamp, Text};

fn describes(valid: &MultiRow, refs: &List<Key>, row: &NRow) -> bool
    ensures { result ≡ row_eq (described_row refs.now valid.now) row.now }
{
    *refs == row.refs && valid.sub == row.sub && valid.attrs == row.attrs
}

// Whether each row describes what the row beside it does.
fn each_describes(valid: &[MultiRow], refs: &List<Key>, rows: &[NRow]) -> bool
    ensures { result ≡ list_all (λ (valid, row). row_eq (described_row refs.now valid) row) (zip valid.now rows.now) }
{
    valid
        .iter()
        .zip(rows)
        .all(|(valid, row)| describes(valid, refs, row))
}

// Whether rows of a satellite are those of a reference list, one by one. Takes no memory.
#[tactic(auto, using(crate::proofs::PointWise::unequal, crate::proofs::PointWise::zipped))]
fn are_described(valid: &[MultiRow], refs: &List<Key>, rows: &[NRow]) -> bool
    ensures { result ≡ pointwise row_eq (map (described_row refs.now) valid.now) rows.now }
{
    valid.len() == rows.len() && each_describes(valid, refs, rows)
}

// A row of these values, with the sub and the attributes of an extract's row.
fn new_multi_row(
    parent: Digest,
    load: Stamp,
    source: &Text,
    diff: Digest,
    row: &NRow,
) -> Result<MultiRow, Memory>
    ensures { IfOk result (λ made. made ≡ record { parent = parent; load = load; source = source.now; diff = diff; sub = row.now.sub; attrs = row.now.attrs }) }
{
    let source = source.copy()?;
    let sub = row.sub.copy()?;
    let attrs = row.attrs.copy()?;
    Ok(MultiRow {
        parent,
        load,
        source,
        diff,
        sub,
        attrs,
    })
}

/// The row that an extract's row adds, where the parent is the hash key of its reference list: none where the rows
/// that are valid for the parent are all those of the list.
pub(crate) fn change<H: KeyDigest>(
    valid: &[MultiRow],
    load: Stamp,
    source: &Text,
    staged: &[NRow],
    row: &NRow,
    parent: &Digest,
    digest: &H,
    room: &mut Room,
) -> Result<Option<MultiRow>, Memory>
    requires ascending { IsStrictlySortedBy row_cmp staged.now }
    requires key { parent.now ≡ (hashes_of H.function).hash row.now.refs }
    requires attrs_fit { IsTrue (fits.attrs_fit row.now.attrs) }
    ensures { IfOk result (λ made. made ≡ multi_change_from (hashes_of H.function) source.now valid.now load staged.now row.now) }
{
    if are_described(valid, &row.refs, rows_of_list(staged, &row.refs)) {
        return Ok(None);
    }
    let diff = diff(digest, &row.attrs, room);
    let made = new_multi_row(*parent, load, source, diff, row)?;
    Ok(Some(made))
}
