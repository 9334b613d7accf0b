ghost use Rattle.dv_records.specs.StatusPlaces.{status_place};

use crate::raw_rows::StatusRow;
use dv_index::Placed;
use dv_text::{Digest, Stamp};

impl Placed for StatusRow {
    ghost place = { status_place };

    fn parent(&self) -> &Digest {
        &self.parent
    }

    fn load(&self) -> Stamp {
        self.load
    }
}
