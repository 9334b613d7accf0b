ghost use Rattle.std.specs.Prelude.{◌≡◌, IfOk};

use dv_text::{Duplicate, Key, List, Memory};
use std::alloc::Global;

/// A copy of a lent reference list.
pub(crate) fn copied(alloc: Global, refs: &[Key]) -> Result<List<Key>, Memory>
    ensures { IfOk result (λ made. made ≡ refs.now) }
{
    let mut made = List::with_room(alloc, refs.len())?;
    for key in refs {
        made.push(key.copy()?)?;
    }
    Ok(made)
}
