ghost use Rattle.std.specs.Prelude.{◌≡◌, ◌≤◌};
ghost use Rattle.dv_outside.specs.declared.statuses.Status.TheVariants as statuses;
ghost use Rattle.dv_text.specs.Keys.{hashes_of};
ghost use Rattle.dv_given.specs.Worlds.{world};
ghost use Rattle.dv_app.specs.Kept.{IsStanding};
ghost use Rattle.dv_program.specs.Programs as spec;
ghost use Rattle.dv_program.specs.Programs.{Completes, HasWorkers, IsAside, IsCause, OpensNothing, ReadsNothing, Says, told};

use dv_app::run;
use dv_desk::{ServeWords, serve, serve_words};
use dv_given::USAGE;
use dv_outside::{Doors, Folder, Gate, Sink, Status, end};
use dv_records::Keeper;
use dv_text::KeyDigest;
use std::alloc::Global;
use std::thread::Threads;

// What the words ask for.
#[derive(Clone, Copy)]
enum Invocation {
    /// A command.
    Runs,
    /// Connections are to be served.
    Serves(ServeWords),
    /// The words behind `serve` are none of it.
    Misused,
}

fn asked_of(words: &[String]) -> Invocation
    ensures words { spec.asked_as result ≡ spec.asked_of words.now }
    ensures workers { HasWorkers (spec.asked_as result) }
{
    match words {
        [first, behind @ ..] if first.as_str() == "serve" => match serve_words(behind) {
            Some(words) => Invocation::Serves(words),
            None => Invocation::Misused,
        },
        _ => Invocation::Runs,
    }
}

/// All that the program does. Where the first word isn't `serve`, it is `run`, and the doors are left. Where it is, and the
/// words behind it are a port and perhaps the workers, it names the port to the doors and serves the connections that
/// come; the folder and standard output are left. Else the words are no command. Windows are loaded on threads of the
/// runtime.
pub fn program<
    R: Threads + Sync,
    F: Folder,
    D: Doors,
    K: Keeper,
    O: Sink,
    E: Sink,
    H: KeyDigest,
    G: Gate,
>(
    rt: &R,
    alloc: Global,
    words: &[String],
    folder: &mut F,
    doors: &mut D,
    keeper: &mut K,
    out: &mut O,
    err: &mut E,
    digest: &H,
    gate: &G,
) -> Status
    // What is written, what the doors and the keeper have then, and the status, by what the words ask for.
    ensures says { Says words.now H.function (told D.Doors D.Line.Link doors.old doors.new)
        (world F.Folder K.Keeper O.Sink E.Sink (folder.old, keeper.old, out.old, err.old) (folder.new, keeper.new, out.new, err.new)) result }

    // With no fault and memory enough, it is what the definitions say.
    ensures complete { Completes words.now H.function (told D.Doors D.Line.Link doors.old doors.new)
        (world F.Folder K.Keeper O.Sink E.Sink (folder.old, keeper.old, out.old, err.old) (folder.new, keeper.new, out.new, err.new)) result }

    // Each status has its cause, whatever the objects tell of their contents.
    ensures causes { IsCause words.now (told D.Doors D.Line.Link doors.old doors.new)
        (world F.Folder K.Keeper O.Sink E.Sink (folder.old, keeper.old, out.old, err.old) (folder.new, keeper.new, out.new, err.new)) result }

    // A store that stands for a state is never called damaged.
    ensures sound { result ≡ statuses.Damaged → IsStanding (hashes_of H.function) (K.store keeper.old) → ⊥ }

    // What keeps nothing leaves the keeper, what serves nothing the doors, and what is no command the folder and standard
    // output; the folder's files are as they were; no count falls.
    ensures untouched { IsAside words.now → keeper.new ≡ keeper.old }
    ensures unopened { OpensNothing (spec.asked_of words.now) → doors.new ≡ doors.old }
    ensures unread { ReadsNothing (spec.asked_of words.now) → (folder.new ≡ folder.old) × (out.new ≡ out.old) }
    ensures kept { F.files folder.new ≡ F.files folder.old }
    ensures later_in { (F.faults folder.old ≤ F.faults folder.new) × (D.faults doors.old ≤ D.faults doors.new) }
    ensures later_out { (O.faults out.old ≤ O.faults out.new) × (E.faults err.old ≤ E.faults err.new) }
{
    match asked_of(words) {
        Invocation::Runs => run(rt, alloc, words, folder, keeper, out, err, digest, gate),
        Invocation::Serves(asked) => {
            doors.listen(asked.port);
            let workers = asked.workers;
            serve(rt, alloc, doors, keeper, err, workers, digest, gate)
        }
        Invocation::Misused => end(err, USAGE, Status::Usage),
    }
}
