// What is stored as the snapshot of a vault at a date, or why there is none.
ghost use Rattle.std.specs.Prelude.{IfOk};
ghost use Rattle.dv_text.specs.Keys.{Hashes};
ghost use Rattle.dv_bridge.specs.ZeroKeys.{HasZeroKeys};
ghost use Rattle.dv_records.specs.States.{State};
ghost use Rattle.dv_window.specs.SnapshotPlans.{IsOf, IsPlanned, Plans};

use crate::snapshot_heads::snapshot_head;
use crate::snapshot_refusals::{early_refusal, late_refusal};
use crate::snapshot_tables::{TablesFault, snapshot_tables};
use dv_records::{Snap, SnapAnswer, SnapHead};
use dv_text::{Memory, Stamp};
use dv_vault::Vault;
use std::alloc::Global;

/// What is to be stored, or the answer that refuses it.
#[derive(Drop)]
pub(crate) enum Planned {
    New(Snap),
    Refused(SnapAnswer),
}

/// The snapshot of a vault at a date, beside stored ones with these heads; or why it is refused. No
/// table is made where the date alone refuses it.
pub(crate) fn plan(
    alloc: Global,
    vault: &Vault,
    heads: &[SnapHead],
    date: Stamp,
) -> Result<Planned, Memory>
    ensures state { IfOk result (λ planned. (hashes : Hashes) (state : State) → HasZeroKeys hashes → IsOf hashes state vault.now heads.now → Plans vault.now.mapping hashes state date planned) }
    ensures planned { IfOk result (IsPlanned heads.now date) }
{
    if let Some(answer) = early_refusal(vault.last(), heads, date) {
        return Ok(Planned::Refused(answer));
    }
    let tables = match snapshot_tables(alloc, vault, date) {
        Ok(tables) => tables,
        Err(TablesFault::TooLarge { path }) => {
            return Ok(Planned::Refused(SnapAnswer::TooLarge { path }));
        }
        Err(TablesFault::Memory) => return Err(Memory),
    };
    let head = snapshot_head(date, tables.items())?;
    match late_refusal(heads, &head)? {
        Some(answer) => Ok(Planned::Refused(answer)),
        None => Ok(Planned::New(Snap { head, tables })),
    }
}
