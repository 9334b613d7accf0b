ghost use Rattle.dv_records.specs.MultiPlaces.{multi_place};

use crate::raw_rows::MultiRow;
use dv_index::Placed;
use dv_text::{Digest, Stamp};

impl Placed for MultiRow {
    ghost place = { multi_place };

    fn parent(&self) -> &Digest {
        &self.parent
    }

    fn load(&self) -> Stamp {
        self.load
    }
}
