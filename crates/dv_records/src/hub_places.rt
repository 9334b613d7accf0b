ghost use Rattle.dv_records.specs.HubPlaces.{hub_place};

use crate::raw_rows::HubRow;
use dv_index::Placed;
use dv_text::{Digest, Stamp};

impl Placed for HubRow {
    ghost place = { hub_place };

    fn parent(&self) -> &Digest {
        &self.digest
    }

    fn load(&self) -> Stamp {
        self.load
    }
}
