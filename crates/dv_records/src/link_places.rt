ghost use Rattle.dv_records.specs.LinkPlaces.{link_place};

use crate::raw_rows::LinkRow;
use dv_index::Placed;
use dv_text::{Digest, Stamp};

impl Placed for LinkRow {
    ghost place = { link_place };

    fn parent(&self) -> &Digest {
        &self.digest
    }

    fn load(&self) -> Stamp {
        self.load
    }
}
