// The opening of what is kept.
ghost use Rattle.dv_outside.specs.Seen.{seen};
ghost use Rattle.dv_app.specs.Openings.{Opening};

use dv_given::Ending;
use dv_records::Keeper;
use dv_text::KeyDigest;
use dv_window::Office;
use std::alloc::Global;

/// The office over the keeper's store, which is read whole, or why there is none.
pub(crate) fn open_office<K: Keeper, H: KeyDigest>(
    alloc: Global,
    keeper: &mut K,
    digest: &H,
) -> Result<Office, Ending>
    ensures { Opening H.function (seen K.store K.faults keeper.old keeper.new) result }
{
    Ok(Office::start(alloc, keeper, digest)?)
}
