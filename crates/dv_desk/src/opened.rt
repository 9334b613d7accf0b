// The connections of doors are served, one after another.
ghost use Rattle.std.specs.Prelude.{◌≡◌, ◌≤◌, Some};
ghost use Rattle.dv_text.specs.Keys.{hashes_of};
ghost use Rattle.dv_outside.specs.Seen.{seen};
ghost use Rattle.dv_outside.specs.declared.statuses.Status.TheVariants as statuses;
ghost use Rattle.dv_catalog.specs.Entries.{Mapping};
ghost use Rattle.dv_records.specs.Standing.{Stands};
ghost use Rattle.dv_records.specs.States.{State};
ghost use Rattle.dv_records.specs.declared.stores.Store.{Store};
ghost use Rattle.dv_window.specs.Offices.{AgreesUnlessStale};
ghost use Rattle.dv_given.specs.Endings.{EndsBy, ending_of_start};
ghost use Rattle.dv_desk.specs.Doors.{EndsAs, IsServeCause, ServeCompletes, ServeSays, ServesBy, tells};
ghost use Rattle.dv_desk.specs.Turns.{moment};

use crate::desks::{Desk, Loading};
use dv_given::{Ending, READ_FAULT, end_command};
use dv_outside::{Doors, Failed, Gate, Sink, Status, end_named};
use dv_records::Keeper;
use dv_restore::StartFault;
use dv_text::KeyDigest;
use dv_window::Office;
use std::alloc::Global;
use std::thread::Threads;

/// Serves the connections that come through the doors, one after another, over the vault that a keeper has.
///
/// An office is started over the keeper's store, which is read whole; where it can't be, nothing is taken from the doors,
/// and the line and the status are those of any command on what is kept. Each connection that the doors give is served by
/// `serve_link` with this office, and given back, whatever came of it. `Done` comes where the doors have no connection
/// left, or 4,294,967,295 were served. `ReadFault` comes only where the doors' count of faults rose, with the line
/// `vaultdesk: read fault doors`; `WriteFault` only where that of the sink did. Condition: 1 to 64 workers.
pub fn serve<R: Threads + Sync, D: Doors, K: Keeper, E: Sink, H: KeyDigest, G: Gate>(
    rt: &R,
    alloc: Global,
    doors: &mut D,
    keeper: &mut K,
    err: &mut E,
    workers: u32,
    digest: &H,
    gate: &G,
) -> Status
    requires workers { (1 ≤ workers) × (workers ≤ 64) }
    ensures says { ServeSays H.function (tells D.Line.Link) (D.lines doors.old) (D.lines doors.new)
        (seen K.store K.faults keeper.old keeper.new) (seen E.contents E.faults err.old err.new) result }
    ensures cause { IsServeCause (D.faults doors.old) (D.faults doors.new)
        (seen K.store K.faults keeper.old keeper.new) (seen E.contents E.faults err.old err.new) result }

    // With no fault of the doors, the keeper and the sink, and memory enough, all connections were served, or no office could be
    // started by what is stored; over a store that stands for a state all were, and no answer was that the keeper failed.
    ensures complete { ServeCompletes H.function (tells D.Line.Link) (D.lines doors.old) (D.lines doors.new) (D.faults doors.old) (D.faults doors.new)
        (seen K.store K.faults keeper.old keeper.new) (seen E.contents E.faults err.old err.new) result }

    // A store that stands for a state is never called damaged.
    ensures sound { result ≡ statuses.Damaged → (mapping : Mapping) (state : State) (store : Store) → K.store keeper.old ≡ Some store
        → Stands mapping (hashes_of H.function) state store → ⊥ }
    ensures port { D.named doors.new ≡ D.named doors.old }
    ensures later { (D.faults doors.old ≤ D.faults doors.new) × (E.faults err.old ≤ E.faults err.new) }
{
    let loading = Loading {
        rt,
        workers,
        digest,
        gate,
    };
    serve_by(alloc, doors, keeper, err, loading)
}

// Says how the serving of doors ended.
fn end_doors<E: Sink>(err: &mut E, ended: Result<(), Failed>) -> Status
    ensures ends { EndsAs ended (seen E.contents E.faults err.old err.new) result }
    ensures later { E.faults err.old ≤ E.faults err.new }
{
    match ended {
        Ok(()) => Status::Done,
        Err(Failed) => end_named(err, READ_FAULT, b"doors", Status::ReadFault),
    }
}

// The connections of the doors are served with an office that was started.
fn serve_with<R: Threads + Sync, D: Doors, K: Keeper, E: Sink, H: KeyDigest, G: Gate>(
    alloc: Global,
    doors: &mut D,
    office: &mut Office,
    keeper: &mut K,
    err: &mut E,
    loading: Loading<'_, '_, '_, R, H, G>,
) -> Status
    requires agrees { AgreesUnlessStale office.old (K.store keeper.old) }
    ensures serves { ServesBy H.function D.Doors D.Line.Link doors.old doors.new (moment K.store K.faults office.old keeper.old)
        (moment K.store K.faults office.new keeper.new) (seen E.contents E.faults err.old err.new) result }
    ensures port { D.named doors.new ≡ D.named doors.old }
    ensures later { E.faults err.old ≤ E.faults err.new }
{
    let mut desk = Desk {
        office,
        keeper,
        loading,
    };
    let ended = desk.serve_doors(alloc, doors);
    end_doors(err, ended)
}

// Says why no office could be started.
fn end_unstarted<E: Sink>(alloc: Global, err: &mut E, fault: StartFault) -> Status
    ensures says { EndsBy (ending_of_start fault) (seen E.contents E.faults err.old err.new) result }
    ensures later { E.faults err.old ≤ E.faults err.new }
{
    end_command(alloc, err, &Ending::from(fault))
}

// What `serve` does, by how windows are loaded: nothing is chosen here.
fn serve_by<R: Threads + Sync, D: Doors, K: Keeper, E: Sink, H: KeyDigest, G: Gate>(
    alloc: Global,
    doors: &mut D,
    keeper: &mut K,
    err: &mut E,
    loading: Loading<'_, '_, '_, R, H, G>,
) -> Status
    ensures says { ServeSays H.function (tells D.Line.Link) (D.lines doors.old) (D.lines doors.new)
        (seen K.store K.faults keeper.old keeper.new) (seen E.contents E.faults err.old err.new) result }
    ensures cause { IsServeCause (D.faults doors.old) (D.faults doors.new)
        (seen K.store K.faults keeper.old keeper.new) (seen E.contents E.faults err.old err.new) result }
    ensures sound { result ≡ statuses.Damaged → (mapping : Mapping) (state : State) (store : Store) → K.store keeper.old ≡ Some store
        → Stands mapping (hashes_of H.function) state store → ⊥ }
    ensures port { D.named doors.new ≡ D.named doors.old }
    ensures later { (D.faults doors.old ≤ D.faults doors.new) × (E.faults err.old ≤ E.faults err.new) }
{
    let mut office = match Office::start(alloc, keeper, loading.digest) {
        Ok(office) => office,
        Err(fault) => return end_unstarted(alloc, err, fault),
    };
    let status = serve_with(alloc, doors, &mut office, keeper, err, loading);
    office.close();
    status
}
