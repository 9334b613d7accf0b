// The order of stored rows.
ghost use Rattle.std.specs.Prelude.{◌≡◌, ◌&&◌};
ghost use Rattle.std.specs.Cmp.Lexicographic.{pointwise};
ghost use Rattle.std.specs.Ordering.{is_lt};
ghost use Rattle.dv_text.specs.Keys.{row_eq};
ghost use Rattle.dv_text.specs.Orders.{row_cmp};
ghost use Rattle.dv_text.specs.Sorting.{sorted_by};
ghost use Rattle.dv_records.specs.States as states;
ghost use Rattle.dv_window_rules.specs.Forms as spec;

use dv_text::NRow;

// Whether a row is before another by references, then sub.
fn is_named_before(some: &NRow, other: &NRow) -> bool
    ensures { result ≡ is_lt (spec.row_name_cmp some.now other.now) }
{
    some.refs
        .cmp(&other.refs)
        .then_with(|| some.sub.cmp(&other.sub))
        .is_lt()
}

/// Whether rows ascend, each once, and no two of them have the same references and the same sub: then each is
/// before the next by these two alone. Takes no memory; each row is compared with the next.
pub(crate) fn are_in_order(rows: &[NRow]) -> bool
    ensures { result ≡ (pointwise row_eq (sorted_by row_cmp rows.now) rows.now && states.holds_of_each_two states.is_one_row rows.now) }
{
    rows.is_sorted_by(|before, row| is_named_before(before, row))
}
