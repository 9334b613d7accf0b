ghost use Rattle.std.specs.Prelude.{◌≡◌, ◌↔◌, Contains};
ghost use Rattle.std.specs.List.Sorted.{IsStrictlySortedBy};
ghost use Rattle.dv_text.specs.Orders.{row_cmp};
ghost use Rattle.dv_text.specs.Sorting.{sorted_by};

use crate::digests::Digest;
use crate::lists::List;
use crate::rows::{Key, NRow};
use crate::texts::Text;

/// A type whose order tells all values apart: values that tie are equal.
pub trait Exact: Ord + Drop {
    ghost use Rattle.std.specs.FinMap.{IsAntisymmetric};

    ghost tells_apart: { IsAntisymmetric Self.cmp };
}

impl Exact for Text {
    ghost use Rattle.dv_text.specs.Exact.{text_cmp-IsAntisymmetric};

    ghost tells_apart = { text_cmp-IsAntisymmetric };
}

impl Exact for Digest {
    ghost use Rattle.dv_text.specs.Exact.{text_cmp-IsAntisymmetric};

    ghost tells_apart = { text_cmp-IsAntisymmetric };
}

impl Exact for Key {
    ghost use Rattle.dv_text.specs.Exact.{key_cmp-IsAntisymmetric};

    ghost tells_apart = { key_cmp-IsAntisymmetric };
}

impl Exact for NRow {
    ghost use Rattle.dv_text.specs.Exact.{row_cmp-IsAntisymmetric};

    ghost tells_apart = { row_cmp-IsAntisymmetric };
}

impl<T: Exact> Exact for List<T> {
    ghost use Rattle.std.specs.FinMap.{slice_cmp-IsAntisymmetric};

    ghost tells_apart = { slice_cmp-IsAntisymmetric T.tells_apart };
}

/// The items in order, each once. Takes no memory. Of the texts `b`, `ab`, `b` and `a` these are
/// `a`, `ab` and `b`.
pub fn sorted_distinct<T: Exact>(items: Vec<T>) -> List<T>
    ensures value { result ≡ sorted_by T.cmp items.items }
    ensures ascending { IsStrictlySortedBy T.cmp result }
    ensures members { (x : T) → Contains result x ↔ Contains items.items x }
{
    let mut items = items;
    items.sort_unstable();
    items.dedup();
    List::from_vec(items)
}

/// The items of a list in order, each once: of the texts `b`, `ab`, `b` and `a` these are `a`, `ab`
/// and `b`. Takes no memory.
pub fn sorted_list<T: Exact>(items: List<T>) -> List<T>
    ensures value { result ≡ sorted_by T.cmp items }
    ensures ascending { IsStrictlySortedBy T.cmp result }
    ensures members { (x : T) → Contains result x ↔ Contains items x }
{
    match items.into_many() {
        Ok(many) => sorted_distinct(many),
        Err(few) => few,
    }
}

/// The rows in order, each once: by references, then by sub, then by attributes. Takes no memory.
/// Two rows of the key `K1` and the attribute `n` are one; a row of the key `1` is before one of
/// the key `2`, also where its attribute is `y` and the other's `x`.
pub fn sorted_rows(rows: List<NRow>) -> List<NRow>
    ensures value { result ≡ sorted_by row_cmp rows }
    ensures ascending { IsStrictlySortedBy row_cmp result }
    ensures members { (row : _) → Contains result row ↔ Contains rows row }
{
    sorted_list(rows)
}
