ghost use Rattle.std.specs.Prelude.{◌≡◌};
ghost use Rattle.dv_outside.specs.declared.statuses.Status.TheVariants as statuses;
ghost use Rattle.dv_text.specs.Keys.{hashes_of};
ghost use Rattle.dv_given.specs.Worlds.{world};
ghost use Rattle.dv_app.specs.Changes.{LeavesStore};
ghost use Rattle.dv_app.specs.Kept.{IsStanding};
ghost use Rattle.dv_app.specs.Lent.{Same};
ghost use Rattle.dv_app.specs.Run.{ChangesAsSaid, DamageIsNamed, IsApart, IsRunCause, NoneFell, Ran, RunCompletes, RunSays};
ghost use Rattle.dv_app.specs.Words.{asked_of};

use crate::exercises::exercise_command;
use crate::loadings::Tools;
use crate::replies::say;
use crate::tries::try_command;
use crate::words::{Command, asked_command, parts_of};
use crate::works::Work;
use dv_given::{MEMORY, USAGE};
use dv_outside::{Folder, Gate, Sink, Status, end};
use dv_records::Keeper;
use dv_text::{KeyDigest, Memory};
use std::alloc::Global;
use std::thread::Threads;

impl<R, F: Folder, K: Keeper, H: KeyDigest, G: Gate> Work<'_, '_, '_, '_, '_, R, F, K, H, G>
where
    R: Threads + Sync,
{
    // All that the program does.
    fn run<O: Sink, E: Sink>(
        &mut self,
        alloc: Global,
        words: &[String],
        out: &mut O,
        err: &mut E,
    ) -> Status
        ensures ran { Ran words.now H.function (world F.Folder K.Keeper O.Sink E.Sink (self.old.folder.now, self.old.keeper.now, out.old, err.old) (self.new.folder.now, self.new.keeper.now, out.new, err.new)) result }
        ensures untouched { IsApart (asked_of words.now) → self.new.keeper.now ≡ self.old.keeper.now }
        ensures same { Same self.old self.new }
    {
        let parts = match parts_of(alloc, words) {
            Ok(Some(parts)) => parts,
            Ok(None) => return end(err, USAGE, Status::Usage),
            Err(Memory) => return end(err, MEMORY, Status::Memory),
        };
        match asked_command(&parts) {
            None => end(err, USAGE, Status::Usage),
            Some(Command::Try(asked)) => {
                let tools = Tools {
                    alloc,
                    rt: self.rt,
                    options: asked.options,
                    digest: self.digest,
                    gate: self.gate,
                };
                try_command(&asked, self.folder, out, err, &tools)
            }
            Some(Command::Exercise { count, options }) => {
                let tools = Tools {
                    alloc,
                    rt: self.rt,
                    options,
                    digest: self.digest,
                    gate: self.gate,
                };
                exercise_command(count, out, err, &tools)
            }
            Some(Command::OnKeeper(command)) => {
                let reply = self.reply_to(alloc, &command);
                say(&reply, out, err)
            }
        }
    }
}

/// The top call: all that the program does. It takes the words of the command line without the program's
/// name, writes texts to `out` and lines to `err`, and answers the program's exit status. Windows are loaded
/// on threads of the runtime: how many, and in which order of their tasks, the options `--workers` and `--order`
/// of `try`, `load` and `exercise` say; all that is said and kept is the same for each.
///
/// `init` stores the mapping's file in the keeper, `load MANIFEST` gives a window to what is kept, `resume` completes one
/// that broke off, and `mart WHAT DATE`, `table NAME` and `windows` write texts of it. `snapshot DATE` stores a snapshot of
/// the sealed windows, and `pit HUB DATE` and `bridge PATH DATE` write a table of a stored one. `try WHAT DATE
/// MANIFEST...` keeps nothing, and leaves the keeper; so does `exercise N`, which makes windows of N items.
pub fn run<R: Threads + Sync, F: Folder, K: Keeper, O: Sink, E: Sink, H: KeyDigest, G: Gate>(
    rt: &R,
    alloc: Global,
    words: &[String],
    folder: &mut F,
    keeper: &mut K,
    out: &mut O,
    err: &mut E,
    digest: &H,
    gate: &G,
) -> Status
    // What is written, what the keeper has then, and the status, by what the words ask for.
    ensures says { RunSays words.now H.function (world F.Folder K.Keeper O.Sink E.Sink (folder.old, keeper.old, out.old, err.old) (folder.new, keeper.new, out.new, err.new)) result }

    // With no fault and memory enough, it is what the definitions say.
    ensures complete { RunCompletes words.now H.function (world F.Folder K.Keeper O.Sink E.Sink (folder.old, keeper.old, out.old, err.old) (folder.new, keeper.new, out.new, err.new)) result }

    // Each status has its cause, and its line, whatever the objects tell of their contents.
    ensures causes { IsRunCause words.now (world F.Folder K.Keeper O.Sink E.Sink (folder.old, keeper.old, out.old, err.old) (folder.new, keeper.new, out.new, err.new)) result }

    // Whatever the keeper's store stands for: a text and each refusal leave it, and it changes only
    // where that is said.
    ensures leaves { LeavesStore (asked_of words.now) result → K.store keeper.new ≡ K.store keeper.old }
    ensures changes { ChangesAsSaid (asked_of words.now) (world F.Folder K.Keeper O.Sink E.Sink (folder.old, keeper.old, out.old, err.old) (folder.new, keeper.new, out.new, err.new)) result }

    // The damage that is named is one that the store has; one that stands for a state has none.
    ensures damaged { result ≡ statuses.Damaged → DamageIsNamed (asked_of words.now) H.function
        (world F.Folder K.Keeper O.Sink E.Sink (folder.old, keeper.old, out.old, err.old) (folder.new, keeper.new, out.new, err.new)) }
    ensures sound { result ≡ statuses.Damaged → IsStanding (hashes_of H.function) (K.store keeper.old) → ⊥ }

    // A command that keeps nothing leaves the keeper; the folder's files are as they were; no count falls.
    ensures untouched { IsApart (asked_of words.now) → keeper.new ≡ keeper.old }
    ensures kept { F.files folder.new ≡ F.files folder.old }
    ensures later { NoneFell (world F.Folder K.Keeper O.Sink E.Sink (folder.old, keeper.old, out.old, err.old) (folder.new, keeper.new, out.new, err.new)) }
{
    let mut work = Work {
        rt,
        folder,
        keeper,
        digest,
        gate,
    };
    work.run(alloc, words, out, err)
}
