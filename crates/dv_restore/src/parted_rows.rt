// Rows of a table in two by their load date.
ghost use Rattle.std.specs.Prelude.{◌≡◌, [], IfOk, IsTrue, false, filter, length};
ghost use Rattle.dv_index.specs.Places.{are_in_load_order};
ghost use Rattle.dv_restore.specs.PartedRows.{ArePartedRows, are_rows_up_to, is_of_other};

use dv_index::Placed;
use dv_text::{List, Memory, Stamp};

// Whether rows end in one of a load date. Conditions: their load dates do not fall, and none is later than this one.
pub(crate) fn ends_at<R: Placed>(rows: &[R], load: Stamp) -> bool
    requires order { IsTrue (are_in_load_order R.place rows.now) }
    requires dated { IsTrue (are_rows_up_to R.place load rows.now) }
    ensures { result ≡ false → ArePartedRows R.place load rows.now rows.now [] }
{
    match rows.last() {
        Some(row) => row.load() == load,
        None => false,
    }
}

// How many rows have another load date than this one.
fn count_others<R: Placed>(rows: &[R], load: Stamp) -> usize
    ensures { result ≡ length (filter (is_of_other R.place load) rows.now) }
{
    let mut count = 0;
    for row in rows {
        if row.load() != load {
            count += 1;
        }
    }
    count
}

// Rows in two: those of other load dates than one, and those of it. Conditions: their load dates do not fall, and none is
// later than this one; so those of it stand last.
pub(crate) fn part_rows<R: Placed>(rows: List<R>, load: Stamp) -> Result<(List<R>, List<R>), Memory>
    requires order { IsTrue (are_in_load_order R.place rows) }
    requires dated { IsTrue (are_rows_up_to R.place load rows) }
    ensures { IfOk result (λ parts. ArePartedRows R.place load rows parts.0 parts.1) }
{
    let count = count_others(rows.items(), load);
    let mut sealed = rows.into_vec()?;
    let opened = sealed.split_off(count)?;
    Ok((List::from_vec(sealed), List::from_vec(opened)))
}
