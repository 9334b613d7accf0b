// The date of a command.
ghost use Rattle.std.specs.Prelude.{◌≡◌, Some, IfOk, IfErr};
ghost use Rattle.dv_text.specs.Stamps.{stamp_of};
ghost use Rattle.dv_given.specs.Endings.{DateEnds};

use crate::endings::Ending;
use dv_print::QueryRule;
use dv_text::{Duplicate, Stamp, Text};

/// The date that a text is.
pub fn check_date(date: &Text) -> Result<Stamp, Ending>
    ensures ok { IfOk result (λ stamp. stamp_of date.now ≡ Some stamp) }
    ensures ends { IfErr result (DateEnds date.now) }
{
    match Stamp::read(date.bytes()) {
        Some(stamp) => Ok(stamp),
        None => {
            let text = date.copy()?;
            Err(Ending::BadQuery(QueryRule::BadDate { text }))
        }
    }
}
