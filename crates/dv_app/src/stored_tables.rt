// The commands `pit` and `bridge`: the text of a table of a stored snapshot.
ghost use Rattle.std.specs.Prelude.{◌≡◌, IfErr, IfOk, Some};
ghost use Rattle.dv_window.specs.StoredTexts.{HasTable};
ghost use Rattle.dv_app.specs.Kept.{stored_id};
ghost use Rattle.dv_app.specs.Lent.{Same, places};
ghost use Rattle.dv_app.specs.Openings.{IsOpen};
ghost use Rattle.dv_app.specs.Queries.{StoredEnds, ending_of_stored};
ghost use Rattle.dv_app.specs.Words as words;
ghost use Rattle.dv_app.specs.Words.{stored_of};
ghost use Rattle.dv_app.specs.Works.{WorksBehind};

use crate::queries::unknown_mart;
use crate::replies::Reply;
use crate::words::StoredTable;
use crate::works::Work;
use dv_catalog::Catalog;
use dv_given::{Ending, check_date};
use dv_outside::{Folder, Gate};
use dv_print::QueryRule;
use dv_records::{Keeper, SnapId};
use dv_text::{KeyDigest, Stamp, Text};
use dv_window::{Office, StoredFault, stored_text};
use std::alloc::Global;

// The table that is asked for, by the place of its hub or its path.
fn check_stored(catalog: &Catalog, table: &StoredTable<'_>) -> Result<SnapId, Ending>
    ensures ok { IfOk result (λ id. stored_id catalog.now (stored_of table.now) ≡ Some id) }
    ensures there { IfOk result (HasTable catalog.now) }
    ensures ends { IfErr result (StoredEnds catalog.now (stored_of table.now)) }
{
    match table {
        StoredTable::Pit { hub } => match catalog.find_hub(hub) {
            Some(place) => Ok(SnapId::Pit(place)),
            None => Err(unknown_mart(hub)),
        },
        StoredTable::Bridge { path } => match catalog.find_path(path) {
            Some(place) => Ok(SnapId::Bridge(place)),
            None => Err(unknown_mart(path)),
        },
    }
}

// How a command ends for which there is no text of the snapshot at a date.
fn ending_of(fault: StoredFault, date: Stamp) -> Ending
    ensures { result ≡ ending_of_stored date fault }
{
    match fault {
        StoredFault::NoSnapshot => Ending::BadQuery(QueryRule::NoSnapshot { date }),
        StoredFault::Damaged(damage) => Ending::Damaged(damage),
        StoredFault::KeeperFault => Ending::KeeperFault,
        StoredFault::Memory => Ending::Memory,
    }
}

impl<R, F: Folder, K: Keeper, H: KeyDigest, G: Gate> Work<'_, '_, '_, '_, '_, R, F, K, H, G> {
    /// The text of a table of the snapshot that is stored at a date.
    pub(crate) fn stored(
        &mut self,
        alloc: Global,
        office: &mut Office,
        table: &StoredTable<'_>,
        date: &Text,
    ) -> Result<Reply, Ending>
        requires open { IsOpen H.function (K.store self.old.keeper.now) office.old }
        ensures works { WorksBehind (words.Stored (stored_of table.now) date.now) H.function office.old (places F.Folder K.Keeper self.old self.new) result }
        ensures same { Same self.old self.new }
    {
        let id = check_stored(office.catalog(), table)?;
        let date = check_date(date)?;
        match stored_text(alloc, office, self.keeper, id, date) {
            Ok(text) => Ok(Reply::Text(text)),
            Err(fault) => Err(ending_of(fault, date)),
        }
    }
}
