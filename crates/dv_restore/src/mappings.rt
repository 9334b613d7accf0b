// The mapping that a keeper has stored.
ghost use Rattle.std.specs.Prelude.{◌≡◌, ◌≤◌, IfOk, IsErrOf, Ok};
ghost use Rattle.dv_text.specs.Causes.{Rose};
ghost use Rattle.dv_text.specs.Told.{Told};
ghost use Rattle.dv_catalog.specs.MappingFiles.{read_mapping};
ghost use Rattle.dv_catalog.specs.Entries.{Mapping};
ghost use Rattle.dv_records.specs.declared.answers.Damage.{Damage as Damaged};
ghost use Rattle.dv_restore.specs.Damages.{IsMappedAs, IsNotRead, mapping_damage as spec_damage};

use crate::faults::StoreFault;
use dv_catalog::{Catalog, MapError};
use dv_mapfile::read_catalog;
use dv_records::{Damage, Keeper};
use dv_text::{Memory, Text};
use std::alloc::Global;

/// The damage of a stored mapping that can't be read, F1.
pub fn mapping_damage(alloc: Global) -> Result<Damage, Memory>
    ensures { IfOk result (λ damage. damage ≡ spec_damage) }
{
    let table = Text::of(alloc, b"mapping")?;
    Ok(Damage {
        table,
        row: 1,
        rule: 1,
    })
}

// The mapping that a stored text is read as.
fn read_text(alloc: Global, text: &Text) -> Result<Catalog, StoreFault>
    ensures reads { IfOk result (λ catalog. read_mapping text.now ≡ Ok catalog) }
    ensures damaged { (damage : Damaged) → IsErrOf result (StoreFault.Damaged damage) → ((mapping : Mapping) → read_mapping text.now ≡ Ok mapping → ⊥) × (damage ≡ spec_damage) }
    ensures sound { IsErrOf result StoreFault.KeeperFault → ⊥ }
{
    match read_catalog(alloc, text.bytes()) {
        Ok(catalog) => Ok(catalog),
        Err(e) if e == MapError::Memory => Err(StoreFault::Memory),
        Err(_) => Err(StoreFault::Damaged(mapping_damage(alloc)?)),
    }
}

/// The mapping that a keeper has stored, and None exactly where none is. `Damaged` comes exactly where the text is not
/// read as a mapping (F1). `KeeperFault` comes only where the keeper's count of faults rose. The store is as before.
pub fn stored_mapping<K: Keeper>(
    alloc: Global,
    keeper: &mut K,
) -> Result<Option<Catalog>, StoreFault>
    ensures read { IfOk result (λ stored. Told (K.store keeper.old) (IsMappedAs stored)) }
    ensures damaged { (damage : Damaged) → IsErrOf result (StoreFault.Damaged damage) → Told (K.store keeper.old) (λ s. IsNotRead s damage) }
    ensures formed { (damage : Damaged) → IsErrOf result (StoreFault.Damaged damage) → damage ≡ spec_damage }
    ensures store { K.store keeper.new ≡ K.store keeper.old }
    ensures cause { IsErrOf result StoreFault.KeeperFault → Rose (K.faults keeper.old) (K.faults keeper.new) }
    ensures later { K.faults keeper.old ≤ K.faults keeper.new }
{
    match keeper.mapping(alloc)? {
        Some(text) => Ok(Some(read_text(alloc, &text)?)),
        None => Ok(None),
    }
}
