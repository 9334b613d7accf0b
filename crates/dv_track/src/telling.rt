// What the rows of a table say of their parents.
ghost use Rattle.std.specs.Prelude.{◌≡◌, Bool, false, None, Option, Some, refl};
ghost use Rattle.dv_records.specs.Reconstruction.{says_present};
ghost use Rattle.dv_track.specs.EffectRows.{says_in_effect};

use crate::effect_changes::opened;
use dv_index::Placed;
use dv_records::{Code, EffectRow, StatusRow};

/// A row that says whether its parent is there from its load date on.
pub(crate) trait Telling: Placed {
    /// What the last row of a parent says, if it has one.
    ghost says: { Option Self → Bool };

    /// A parent without a row is not there.
    ghost nothing: { says None ≡ false };

    /// Whether the parent is there. Takes no memory.
    fn is_there(&self) -> bool
        ensures { result ≡ says (Some self.now) };
}

impl Telling for StatusRow {
    ghost says = { says_present };

    ghost nothing = { refl };

    fn is_there(&self) -> bool {
        matches!(self.code, Code::I)
    }
}

impl Telling for EffectRow {
    ghost says = { says_in_effect };

    ghost nothing = { refl };

    fn is_there(&self) -> bool {
        opened(self).is_some()
    }
}
