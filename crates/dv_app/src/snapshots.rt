// The command `snapshot`: a snapshot of the sealed windows of what is kept is stored beside them.
ghost use Rattle.dv_app.specs.Kept.{snapshot_said};
ghost use Rattle.dv_app.specs.Lent.{Same, places};
ghost use Rattle.dv_app.specs.Openings.{IsOpen};
ghost use Rattle.dv_app.specs.Words as words;
ghost use Rattle.dv_app.specs.Works.{Tells, WorksBehind};

use crate::lines::{SNAPSHOT_REPEATED, SNAPSHOT_STORED};
use crate::replies::{Reply, done, done_with};
use crate::works::Work;
use dv_catalog::Catalog;
use dv_given::{Ending, check_date};
use dv_mart::{What, too_large};
use dv_outside::{Folder, Gate};
use dv_print::QueryRule;
use dv_records::{Keeper, SnapAnswer};
use dv_text::{KeyDigest, Text};
use dv_window::Office;
use std::alloc::Global;

// What is said of an answer.
fn answered(alloc: Global, catalog: &Catalog, answer: SnapAnswer) -> Result<Reply, Ending>
    ensures { Tells (snapshot_said catalog.now answer) result }
{
    match answer {
        SnapAnswer::Stored { rows } => done_with(alloc, SNAPSHOT_STORED, rows),
        SnapAnswer::Repeated => done(alloc, SNAPSHOT_REPEATED),
        SnapAnswer::Future { last } => Err(Ending::BadQuery(QueryRule::Future { last })),
        SnapAnswer::TooLarge { path } => {
            let rule = too_large(alloc, catalog, &What::Path(path))?;
            Err(Ending::BadQuery(rule))
        }
        SnapAnswer::Full { weight } => Err(Ending::BadQuery(QueryRule::SnapshotsFull { weight })),
        SnapAnswer::KeeperFault => Err(Ending::KeeperFault),
        SnapAnswer::Memory => Err(Ending::Memory),
    }
}

impl<R, F: Folder, K: Keeper, H: KeyDigest, G: Gate> Work<'_, '_, '_, '_, '_, R, F, K, H, G> {
    /// Stores a snapshot at a date.
    pub(crate) fn snapshot(
        &mut self,
        alloc: Global,
        office: &mut Office,
        date: &Text,
    ) -> Result<Reply, Ending>
        requires open { IsOpen H.function (K.store self.old.keeper.now) office.old }
        ensures works { WorksBehind (words.Snapshot date.now) H.function office.old (places F.Folder K.Keeper self.old self.new) result }
        ensures same { Same self.old self.new }
    {
        let date = check_date(date)?;
        let answer = dv_window::snapshot(alloc, office, self.keeper, date);
        answered(alloc, office.catalog(), answer)
    }
}
