ghost use Rattle.dv_records.specs.EffectPlaces.{effect_place};

use crate::raw_rows::EffectRow;
use dv_index::Placed;
use dv_text::{Digest, Stamp};

impl Placed for EffectRow {
    ghost place = { effect_place };

    fn parent(&self) -> &Digest {
        &self.parent
    }

    fn load(&self) -> Stamp {
        self.load
    }
}
