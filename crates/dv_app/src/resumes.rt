// The command `resume`: the open window of what is kept is completed.
ghost use Rattle.dv_app.specs.Kept.{resume_said};
ghost use Rattle.dv_app.specs.Lent.{Same, places};
ghost use Rattle.dv_app.specs.Openings.{IsOpen};
ghost use Rattle.dv_app.specs.Words as words;
ghost use Rattle.dv_app.specs.Works.{Tells, WorksBehind};

use crate::lines::RESUME_LOADED;
use crate::replies::{Reply, done_with};
use crate::works::Work;
use dv_given::Ending;
use dv_outside::{Folder, Gate};
use dv_print::QueryRule;
use dv_records::{Keeper, ResumeAnswer};
use dv_text::KeyDigest;
use dv_window::Office;
use std::alloc::Global;

// What is said of an answer.
fn answered(alloc: Global, answer: ResumeAnswer) -> Result<Reply, Ending>
    ensures { Tells (resume_said answer) result }
{
    match answer {
        ResumeAnswer::Loaded { rows } => done_with(alloc, RESUME_LOADED, rows),
        ResumeAnswer::NothingOpen => Err(Ending::BadQuery(QueryRule::NothingOpen)),
        ResumeAnswer::Damaged(damage) => Err(Ending::Damaged(damage)),
        ResumeAnswer::KeeperFault => Err(Ending::KeeperFault),
        ResumeAnswer::Memory => Err(Ending::Memory),
    }
}

impl<R, F: Folder, K: Keeper, H: KeyDigest, G: Gate> Work<'_, '_, '_, '_, '_, R, F, K, H, G> {
    /// Completes the open window.
    pub(crate) fn resume(&mut self, alloc: Global, office: &mut Office) -> Result<Reply, Ending>
        requires open { IsOpen H.function (K.store self.old.keeper.now) office.old }
        ensures works { WorksBehind words.Resume H.function office.old (places F.Folder K.Keeper self.old self.new) result }
        ensures same { Same self.old self.new }
    {
        let answer = office.resume(self.keeper, self.digest);
        answered(alloc, answer)
    }
}
