// What a window adds, or the rule of the collision that it makes.
ghost use Rattle.std.specs.Prelude.{◌≡◌, ◌≤◌, IfErr, IfOk, IsTrue, None};
ghost use Rattle.dv_text.specs.Keys.{hashes_of};
ghost use Rattle.dv_records.specs.Outcomes.{late_after};
ghost use Rattle.dv_records.specs.States.{is_window, last_sealed};
ghost use Rattle.dv_vault.specs.Additions.{Fits, IsAddition};
ghost use Rattle.dv_window.specs.Plans as spec;

use crate::stops::Stop;
use dv_catalog::{Catalog, Rule};
use dv_crew::Order;
use dv_outside::Gate;
use dv_text::{KeyDigest, Memory, Window};
use dv_vault::{AdditionFault, Begun, Vault};
use std::thread::Threads;

// What a fault of an addition is answered as.
fn refusal(catalog: &Catalog, fault: AdditionFault) -> Result<Stop, Memory>
    requires { IsTrue (spec.names_table catalog.now fault) }
    ensures { IfOk result (λ stop. spec.IsRefusal catalog.now fault stop) }
{
    let AdditionFault::Collision {
        table,
        first,
        second,
    } = fault
    else {
        return Err(Memory);
    };
    let table = catalog.table_name(table)?;
    Ok(Stop::Refused(Rule::Collision {
        table,
        first,
        second,
    }))
}

/// What a window adds to a vault, or the rule of the collision that it makes.
pub(crate) fn addition<R: Threads + Sync, H: KeyDigest, G: Gate>(
    rt: &R,
    vault: &Vault,
    window: Window,
    workers: u32,
    order: Order,
    digest: &H,
    gate: &G,
) -> Result<Begun, Stop>
    requires later { late_after (last_sealed vault.now.heads) window.load ≡ None }
    requires window { IsTrue (is_window vault.now.mapping window) }
    requires workers { (1 ≤ workers) × (workers ≤ 64) }
    ensures adds { IfOk result (IsAddition (hashes_of H.function) vault.now window) }
    ensures fits { IfOk result (Fits vault.now) }
    ensures stops { IfErr result (spec.StopsRows (hashes_of H.function) vault.now window) }
{
    match vault.addition_by(rt, window, workers, order, digest, gate) {
        Ok(begun) => Ok(begun),
        Err(fault) => Err(refusal(vault.catalog(), fault)?),
    }
}
