ghost use Rattle.std.specs.Prelude.{◌≡◌};
ghost use Rattle.dv_index.specs.Places.{Place};

use dv_text::{Digest, Stamp};

/// A row that is looked up by a digest, its parent, and that has a load date.
pub trait Placed: Drop {
    /// The parent and the load date of a row.
    ghost place: { Self → Place };

    /// The digest by which the row is looked up. Takes no memory.
    fn parent(&self) -> &Digest
        ensures { result.now ≡ (place self.now).parent };

    /// The row's load date. Takes no memory.
    fn load(&self) -> Stamp
        ensures { result ≡ (place self.now).load };
}
