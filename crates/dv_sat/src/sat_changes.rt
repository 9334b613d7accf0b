// The satellite row of an extract's row, beside the one that is valid for its parent.
ghost use Rattle.std.specs.Prelude.{◌≡◌, ◌++◌, IfOk, IsTrue, OnOk, option_map};
ghost use Rattle.std.specs.Option.{option_to_list};
ghost use Rattle.dv_text.specs.Keys.{hashes_of};
ghost use Rattle.dv_digest.specs.Fits as fits;
ghost use Rattle.dv_sat.specs.SatRows as spec;
ghost use Rattle.dv_sat.specs.SatRows.{sat_change_from};

use dv_digest::{Room, hash_diff};
use dv_records::SatRow;
use dv_text::{Digest, Duplicate, KeyDigest, List, Memory, NRow, Stamp, Text};

/// The hash difference of attributes that are no longer than those of staged rows.
pub(crate) fn diff<H: KeyDigest>(digest: &H, attrs: &List<Text>, room: &mut Room) -> Digest
    requires { IsTrue (fits.attrs_fit attrs.now) }
    ensures { result ≡ (hashes_of H.function).diff attrs.now }
{
    hash_diff(digest, attrs, room)
}

// A row of these values.
fn new_row(
    parent: Digest,
    load: Stamp,
    source: &Text,
    diff: Digest,
    attrs: &List<Text>,
) -> Result<SatRow, Memory>
    ensures { IfOk result (λ row. row ≡ record { parent = parent; load = load; source = source.now; diff = diff; attrs = attrs.now }) }
{
    let source = source.copy()?;
    let attrs = attrs.copy()?;
    Ok(SatRow {
        parent,
        load,
        source,
        diff,
        attrs,
    })
}

// Whether a row is there and has these attributes.
fn has_attrs(valid: Option<&SatRow>, attrs: &List<Text>) -> bool
    ensures { result ≡ spec.has_attrs (option_map (λ row. row.now) valid.entry) attrs.now }
{
    match valid {
        Some(row) => row.attrs == *attrs,
        None => false,
    }
}

/// The row that an extract's row adds, where the parent is the hash key of its reference list: none where the row
/// that is valid for the parent has its attributes.
pub(crate) fn change<H: KeyDigest>(
    valid: Option<&SatRow>,
    load: Stamp,
    source: &Text,
    row: &NRow,
    parent: &Digest,
    digest: &H,
    room: &mut Room,
) -> Result<Option<SatRow>, Memory>
    requires key { parent.now ≡ (hashes_of H.function).hash row.now.refs }
    requires attrs_fit { IsTrue (fits.attrs_fit row.now.attrs) }
    ensures { IfOk result (λ made. made ≡ sat_change_from (hashes_of H.function) source.now (option_map (λ row. row.now) valid.entry) load row.now) }
{
    if has_attrs(valid, &row.attrs) {
        return Ok(None);
    }
    let diff = diff(digest, &row.attrs, room);
    let made = new_row(*parent, load, source, diff, &row.attrs)?;
    Ok(Some(made))
}

/// Puts a row, if there is one, at the end.
pub(crate) fn add<R: Drop>(rows: &mut Vec<R>, row: Option<R>) -> Result<(), Memory>
    ensures { OnOk result (rows.new.items ≡ rows.old.items ++ option_to_list row) }
{
    if let Some(row) = row {
        rows.push(row)?;
    }
    Ok(())
}
