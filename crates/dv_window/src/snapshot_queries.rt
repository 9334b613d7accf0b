// What is asked for of a stored snapshot.
ghost use Rattle.std.specs.Prelude.{◌≡◌};
ghost use Rattle.dv_window.specs.StoredRows as spec;

use dv_records::{SnapHead, SnapId};
use dv_text::Stamp;

/// What is asked for of a stored snapshot: rows of one of its tables, the first ones and at most so
/// many.
#[derive(Clone, Copy)]
pub(crate) struct SnapshotQuery {
    pub(crate) date: Stamp,
    pub(crate) id: SnapId,
    pub(crate) most: u64,
}

/// The head of the snapshot at a date; none where none is stored at it. Takes no memory.
pub(crate) fn head_at(heads: &[SnapHead], date: Stamp) -> Option<SnapHead>
    ensures { result ≡ spec.head_at date heads.now }
{
    heads.iter().copied().find(|head| head.date == date)
}

/// What is asked for of a table in the snapshot with a head. Takes no memory.
pub(crate) fn asked_of(id: SnapId, head: SnapHead) -> SnapshotQuery
    ensures { result ≡ spec.asked_of id head }
{
    SnapshotQuery {
        date: head.date,
        id,
        most: head.rows,
    }
}
