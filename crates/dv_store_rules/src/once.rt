// Hash keys that stand once.
ghost use Rattle.std.specs.Prelude.{is_none};

use dv_index::Succession;

/// Each parent has one row.
pub(crate) struct Once;

impl<R> Succession<R> for Once {
    ghost fits = { λ once last row. is_none last };

    fn fits(&self, last: Option<&R>, _row: &R) -> bool {
        last.is_none()
    }
}
