// A connection is served by the desk.
ghost use Rattle.std.specs.Prelude.{◌≤◌};
ghost use Rattle.dv_outside.specs.Seen.{NoFault};
ghost use Rattle.dv_serving.specs.Serving.{IsServedCause, tells};
ghost use Rattle.dv_serving.specs.declared.served.Served.{Served};
ghost use Rattle.dv_serving.specs.declared.served.Served.TheVariants as served;
ghost use Rattle.dv_window.specs.Offices.{AgreesUnlessStale};
ghost use Rattle.dv_desk.specs.Serving.{LinkCompletes, Serves};
ghost use Rattle.dv_desk.specs.Turns.{moment};

use crate::desks::{Desk, Loading};
use dv_outside::{Gate, Link};
use dv_records::Keeper;
use dv_serving::Served;
use dv_text::KeyDigest;
use dv_window::Office;
use std::alloc::Global;
use std::thread::Threads;

/// Serves a connection: takes requests from it and answers them in their order.
///
/// It ends where the input does between requests (`Ended`) or in one, for which nothing is written (`Cut`); after the reply
/// to a request that is the last one (`Closed`); after the reply where no request can be taken and the end of what stands
/// there can't be told (`Wire`); and after 10,000 replies (`Enough`). These tell how many replies were written whole.
/// `ReadFault` and `WriteFault` come only where the connection's count of faults rose; with `ReadFault` all replies were
/// written whole, with `WriteFault` the last one wasn't. `Memory` comes for want of memory to take a request or to make a
/// reply; all replies but the last were written whole then. Conditions: 1 to 64 workers, and the keeper's store, where it
/// is told, is what the office holds, unless this is stale.
pub fn serve_link<R: Threads + Sync, L: Link, K: Keeper, H: KeyDigest, G: Gate>(
    rt: &R,
    alloc: Global,
    link: &mut L,
    office: &mut Office,
    keeper: &mut K,
    workers: u32,
    digest: &H,
    gate: &G,
) -> Served
    requires workers { (1 ≤ workers) × (workers ≤ 64) }
    requires agrees { AgreesUnlessStale office.old (K.store keeper.old) }

    // What was read of the connection and written to it, and what came of the warehouse, by how it ended.
    ensures serves { Serves H.function (tells L.Link) link.old link.new
        (moment K.store K.faults office.old keeper.old) (moment K.store K.faults office.new keeper.new) result }

    // A fault of the connection comes only where its count of faults rose.
    ensures cause { IsServedCause (L.faults link.old) (L.faults link.new) result }

    // With no fault of the connection and memory enough, all that was taken was answered, and each reply was written whole; with
    // no fault of the keeper either none was that it failed.
    ensures complete { NoFault (L.faults link.old) (L.faults link.new) → LinkCompletes H.function (tells L.Link) link.old link.new
        (moment K.store K.faults office.old keeper.old) (moment K.store K.faults office.new keeper.new) result }
    ensures agrees { AgreesUnlessStale office.new (K.store keeper.new) }
    ensures later { L.faults link.old ≤ L.faults link.new }
{
    let loading = Loading {
        rt,
        workers,
        digest,
        gate,
    };
    let mut desk = Desk {
        office,
        keeper,
        loading,
    };
    desk.serve_connection(alloc, link)
}
