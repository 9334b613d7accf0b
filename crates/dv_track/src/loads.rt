// The load dates of rows in load order, which the last row tells.
ghost use Rattle.std.specs.Prelude.{◌≡◌, IsTrue};
ghost use Rattle.std.specs.List.Sorted.{IsStrictlySortedBy};
ghost use Rattle.dv_index.specs.Places as places;
ghost use Rattle.dv_index.specs.Places.{are_in_load_order, none_later};
ghost use Rattle.dv_records.specs.StatusPlaces.{status_place};
ghost use Rattle.dv_track.specs.Tracks.{status_order};

use dv_index::Placed;
use dv_records::StatusRow;
use dv_text::Stamp;

// A date that no row is later than. Takes no memory.
pub(crate) fn last_load<R: Placed>(rows: &[R]) -> Stamp
    requires { IsTrue (are_in_load_order R.place rows.now) }
    ensures { IsTrue (none_later R.place rows.now result) }
{
    match rows.last() {
        Some(row) => row.load(),
        None => Stamp::OPEN,
    }
}

// Whether a row has this load date, where none is later. Takes no memory.
pub(crate) fn has_load(rows: &[StatusRow], load: Stamp) -> bool
    requires order { IsStrictlySortedBy status_order rows.now }
    requires not_later { IsTrue (none_later status_place rows.now load) }
    ensures { result ≡ places.has_load status_place rows.now load }
{
    match rows.last() {
        Some(row) => row.load == load,
        None => false,
    }
}
