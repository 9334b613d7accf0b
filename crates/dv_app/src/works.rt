// The commands on what is kept, and what they are lent.
ghost use Rattle.dv_app.specs.Lent.{Same, places};
ghost use Rattle.dv_app.specs.Openings.{IsOpen};
ghost use Rattle.dv_app.specs.Words.{kept_of, office_command};
ghost use Rattle.dv_app.specs.Works.{Replied, Works, WorksBehind};

use crate::openings::open_office;
use crate::queries::{mart_of, table_of, text_reply, windows_of};
use crate::replies::{Reply, reply_of};
use crate::words::{KeptCommand, OfficeCommand};
use dv_given::Ending;
use dv_outside::{Folder, Gate};
use dv_records::Keeper;
use dv_text::KeyDigest;
use dv_window::Office;
use std::alloc::Global;
use std::thread::Threads;

/// What a command on what is kept works on and with: the runtime, whose threads it may use, the folder that it
/// reads and the keeper, and the digest and the gate.
#[derive(Drop)]
pub(crate) struct Work<'r, 'f, 'k, 'd, 'g, R, F: Folder, K: Keeper, H: KeyDigest, G: Gate> {
    pub(crate) rt: &'r R,
    pub(crate) folder: &'f mut F,
    pub(crate) keeper: &'k mut K,
    pub(crate) digest: &'d H,
    pub(crate) gate: &'g G,
}

impl<R, F: Folder, K: Keeper, H: KeyDigest, G: Gate> Work<'_, '_, '_, '_, '_, R, F, K, H, G>
where
    R: Threads + Sync,
{
    // The work of a command over the office, which was opened by what the keeper has.
    fn work_on(
        &mut self,
        alloc: Global,
        office: &mut Office,
        command: &OfficeCommand<'_>,
    ) -> Result<Reply, Ending>
        requires open { IsOpen H.function (K.store self.old.keeper.now) office.old }
        ensures works { WorksBehind (office_command command.now) H.function office.old (places F.Folder K.Keeper self.old self.new) result }
        ensures same { Same self.old self.new }
    {
        match command {
            OfficeCommand::Load { manifest, options } => {
                self.load(alloc, office, manifest, *options)
            }
            OfficeCommand::Resume => self.resume(alloc, office),
            OfficeCommand::Mart { what, date } => text_reply(mart_of(alloc, office, what, date)),
            OfficeCommand::Table { name } => text_reply(table_of(alloc, office, name)),
            OfficeCommand::Windows => text_reply(windows_of(alloc, office)),
            OfficeCommand::Snapshot { date } => self.snapshot(alloc, office, date),
            OfficeCommand::Stored { table, date } => self.stored(alloc, office, table, date),
        }
    }

    // The office is opened, lent to the work of a command, and let go.
    fn work_by_office(
        &mut self,
        alloc: Global,
        command: &OfficeCommand<'_>,
    ) -> Result<Reply, Ending>
        ensures works { Works (office_command command.now) H.function (places F.Folder K.Keeper self.old self.new) result }
        ensures same { Same self.old self.new }
    {
        let mut office = open_office(alloc, self.keeper, self.digest)?;
        let came = self.work_on(alloc, &mut office, command);
        office.close();
        came
    }

    // The work of a command: its reply, or how it ends without one. Nothing is written yet.
    fn work_by(&mut self, alloc: Global, command: &KeptCommand<'_>) -> Result<Reply, Ending>
        ensures works { Works (kept_of command.now) H.function (places F.Folder K.Keeper self.old self.new) result }
        ensures same { Same self.old self.new }
    {
        match command {
            KeptCommand::Init => self.init(alloc),
            KeptCommand::OnOffice(command) => self.work_by_office(alloc, command),
        }
    }

    /// What a command on what is kept replies.
    pub(crate) fn reply_to(&mut self, alloc: Global, command: &KeptCommand<'_>) -> Reply
        ensures replied { Replied (kept_of command.now) H.function (places F.Folder K.Keeper self.old self.new) result }
        ensures same { Same self.old self.new }
    {
        match self.work_by(alloc, command) {
            Ok(reply) => reply,
            Err(ending) => reply_of(alloc, &ending),
        }
    }
}
