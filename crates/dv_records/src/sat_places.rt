ghost use Rattle.dv_records.specs.SatPlaces.{sat_place};

use crate::raw_rows::SatRow;
use dv_index::Placed;
use dv_text::{Digest, Stamp};

impl Placed for SatRow {
    ghost place = { sat_place };

    fn parent(&self) -> &Digest {
        &self.parent
    }

    fn load(&self) -> Stamp {
        self.load
    }
}
