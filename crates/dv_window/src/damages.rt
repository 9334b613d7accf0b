// The damage that a row of a stored table of a snapshot shows.
ghost use Rattle.std.specs.Prelude.{◌≡◌, ◌++◌, IfOk};
ghost use Rattle.dv_records.specs.declared.answers.Damage.{Damage};
ghost use Rattle.dv_window.specs.StoredTexts as spec;

use crate::stored::StoredFault;
use dv_catalog::Catalog;
use dv_records::{Damage, SnapId};
use dv_text::{Memory, Text};
use std::alloc::Global;

// The rule that a row's form breaks.
const FORM: u8 = 4;

// A name behind what it is of.
fn name_behind(alloc: Global, kind: &[u8], name: &[u8]) -> Result<Text, Memory>
    ensures { IfOk result (λ text. text ≡ kind.now ++ name.now) }
{
    let mut bytes = Vec::from_slice(alloc, kind)?;
    bytes.extend_from_slice(name)?;
    Text::from_vec(bytes)
}

// The name of a table.
fn snap_name(alloc: Global, catalog: &Catalog, id: SnapId) -> Result<Text, Memory>
    requires { spec.HasTable catalog.now id }
    ensures { IfOk result (λ name. name ≡ spec.snap_name catalog.now id) }
{
    match id {
        SnapId::Pit(hub) => name_behind(alloc, b"pit_", catalog.hub(hub).name.bytes()),
        SnapId::Bridge(path) => name_behind(alloc, b"bridge_", catalog.path(path).name.bytes()),
    }
}

/// That a row of a table, counted from 1, has not the form of its rows; or want of memory.
/// Condition: the mapping has the table's hub or path.
pub(crate) fn damaged(alloc: Global, catalog: &Catalog, id: SnapId, row: u64) -> StoredFault
    requires { spec.HasTable catalog.now id }
    ensures damage { (damage : Damage) → result ≡ StoredFault.Damaged damage → damage ≡ record { table = spec.snap_name catalog.now id; row = row; rule = 4 } }
    ensures snapshot { result ≡ StoredFault.NoSnapshot → ⊥ }
    ensures keeper { result ≡ StoredFault.KeeperFault → ⊥ }
{
    match snap_name(alloc, catalog, id) {
        Ok(table) => StoredFault::Damaged(Damage {
            table,
            row,
            rule: FORM,
        }),
        Err(Memory) => StoredFault::Memory,
    }
}
