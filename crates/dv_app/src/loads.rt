// The command `load`: the window of a manifest is given to the office over what is kept.
ghost use Rattle.std.specs.Prelude.{◌≡◌, false};
ghost use Rattle.dv_text.specs.Keys.{hashes_of};
ghost use Rattle.dv_outside.specs.Seen.{seen};
ghost use Rattle.dv_window.specs.Offices.{AgreesUnlessStale};
ghost use Rattle.dv_given.specs.Readings.{arrival_of};
ghost use Rattle.dv_app.specs.Kept.{load_said};
ghost use Rattle.dv_app.specs.Lent.{Same, places};
ghost use Rattle.dv_app.specs.Openings.{IsOpen};
ghost use Rattle.dv_app.specs.GivenArrivals.{Gave, taken_said};
ghost use Rattle.dv_app.specs.Words as words;
ghost use Rattle.dv_app.specs.Works.{Tells, WorksBehind};

use crate::load_options::LoadOptions;
use crate::loadings::Tools;
use crate::replies::Reply;
use crate::works::Work;
use dv_given::{Arrived, Ending, Taken, bring, is_refusal, status_of_windows, window_line};
use dv_outside::{Folder, Gate};
use dv_records::{Keeper, LoadAnswer};
use dv_text::{KeyDigest, Text};
use dv_window::{Office, workers_for};
use std::alloc::Global;
use std::thread::Threads;

// Gives what a manifest brought to the office, where it is a window.
fn give<R: Threads + Sync, K: Keeper, H: KeyDigest, G: Gate>(
    office: &mut Office,
    keeper: &mut K,
    arrived: Arrived,
    tools: &Tools<'_, '_, '_, R, H, G>,
) -> LoadAnswer
    requires agrees { AgreesUnlessStale office.old (K.store keeper.old) }
    requires fresh { office.old.stale ≡ false }
    ensures { Gave (hashes_of H.function) office.old (arrival_of arrived) (seen K.store K.faults keeper.old keeper.new) result }
{
    match arrived {
        Arrived::Broken(rule) => LoadAnswer::Refused(rule),
        Arrived::Brought(given) => {
            let workers = workers_for(&given, tools.options.workers);
            let order = tools.options.order;
            office.load(
                tools.rt,
                keeper,
                &given,
                workers,
                order,
                tools.digest,
                tools.gate,
            )
        }
    }
}

// The reply of a command that gave one window.
fn reply_of_taken(alloc: Global, name: &Text, taken: &Taken) -> Result<Reply, Ending>
    ensures { Tells (taken_said name.now taken.now) result }
{
    let line = window_line(alloc, name, taken)?;
    Ok(Reply::Line {
        line,
        status: status_of_windows(is_refusal(taken)),
    })
}

// What is said of an answer.
fn answered(alloc: Global, name: &Text, answer: LoadAnswer) -> Result<Reply, Ending>
    ensures { Tells (load_said name.now answer) result }
{
    match answer {
        LoadAnswer::Loaded { rows } => reply_of_taken(alloc, name, &Taken::Loaded { rows }),
        LoadAnswer::Repeated => reply_of_taken(alloc, name, &Taken::Repeated),
        LoadAnswer::Refused(rule) => reply_of_taken(alloc, name, &Taken::Refused(rule)),
        LoadAnswer::Damaged(damage) => Err(Ending::Damaged(damage)),
        LoadAnswer::KeeperFault => Err(Ending::KeeperFault),
        LoadAnswer::Memory => Err(Ending::Memory),
    }
}

impl<R, F: Folder, K: Keeper, H: KeyDigest, G: Gate> Work<'_, '_, '_, '_, '_, R, F, K, H, G>
where
    R: Threads + Sync,
{
    /// Loads the window of a manifest.
    pub(crate) fn load(
        &mut self,
        alloc: Global,
        office: &mut Office,
        name: &Text,
        options: LoadOptions,
    ) -> Result<Reply, Ending>
        requires open { IsOpen H.function (K.store self.old.keeper.now) office.old }
        ensures works { WorksBehind (words.Load name.now) H.function office.old (places F.Folder K.Keeper self.old self.new) result }
        ensures same { Same self.old self.new }
    {
        let arrived = bring(alloc, self.folder, name)?;
        let tools = Tools {
            alloc,
            rt: self.rt,
            options,
            digest: self.digest,
            gate: self.gate,
        };
        let answer = give(office, self.keeper, arrived, &tools);
        answered(alloc, name, answer)
    }
}
