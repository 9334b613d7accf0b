// The raw tables of a keeper, read in table order and held to the rules of form.
ghost use Rattle.std.specs.Option.{option_to_list};
ghost use Rattle.std.specs.Prelude.{◌≡◌, ◌++◌, ◌≤◌, [], IfOk, IsErrOf, None, Some, length, map};
ghost use Rattle.dv_text.specs.Causes.{Rose};
ghost use Rattle.dv_text.specs.Keys.{hashes_of};
ghost use Rattle.dv_text.specs.Told.{Told};
ghost use Rattle.dv_catalog.specs.Tables.{tables};
ghost use Rattle.dv_records.specs.declared.answers.Damage.{Damage};
ghost use Rattle.dv_records.specs.States.{head_of};
ghost use Rattle.dv_records.specs.Weights.{tables_weight};
ghost use Rattle.dv_store_rules.specs.Damages.{raw_damage, stored_entries};
ghost use Rattle.dv_vault.specs.Vaults.{IsVaultOf, entry_of};
ghost use Rattle.dv_restore.specs.declared.faults.StoreFault.TheVariants.{Damaged};
ghost use Rattle.dv_restore.specs.Damages.{IsNamed};
ghost use Rattle.dv_restore.specs.Readings.{AreGathered, AreInForm, IsRawDamage, known_first};

use crate::faults::StoreFault;
use crate::gathered::Gathered;
use crate::table_reads::read_table;
use dv_catalog::{Catalog, TableId};
use dv_records::Keeper;
use dv_text::{KeyDigest, WindowHead};
use dv_vault::Table;
use std::alloc::Global;

/// The raw tables of a keeper in table order, and what all weigh.
#[derive(Drop)]
pub(crate) struct Tables {
    pub tables: Vec<Table>,
    pub weight: u64,
}

// Reads the tables of a mapping one after the other, each behind those before it.
fn gather<K: Keeper, H: KeyDigest>(
    alloc: Global,
    keeper: &mut K,
    catalog: &Catalog,
    heads: &[WindowHead],
    ids: &[TableId],
    digest: &H,
) -> Result<Gathered, StoreFault>
    requires { ids.now ≡ tables catalog.now }
    ensures gathered { IfOk result (AreGathered (known_first catalog.now (hashes_of H.function) H.function.width heads.now) (K.store keeper.old) ids.now (length ids.now)) }
    ensures damaged { (damage : Damage) → IsErrOf result (Damaged damage) → IsRawDamage (known_first catalog.now (hashes_of H.function) H.function.width heads.now) (K.store keeper.old) damage }
    ensures formed { (damage : Damage) → IsErrOf result (Damaged damage) → IsNamed catalog.now damage }
    ensures store { K.store keeper.new ≡ K.store keeper.old }
    ensures cause { IsErrOf result StoreFault.KeeperFault → Rose (K.faults keeper.old) (K.faults keeper.new) }
    ensures later { K.faults keeper.old ≤ K.faults keeper.new }
{
    let mut gathered = Gathered::new(alloc);
    for id in ids {
        let known = gathered.known(catalog, heads);
        let made = read_table(alloc, keeper, &known, *id, digest)?;
        gathered.put(made)?;
    }
    Ok(gathered)
}

/// Reads the raw tables of a keeper, in table order, of a mapping with these heads: those of the sealed windows, and behind
/// them that of the open one. Where the store has these heads, `Damaged` comes exactly where a row breaks a rule of form,
/// with the first such row and its first rule. `KeeperFault` comes only where the keeper's count of faults rose. The store
/// is as before.
pub(crate) fn read_tables<K: Keeper, H: KeyDigest>(
    alloc: Global,
    keeper: &mut K,
    catalog: &Catalog,
    heads: &[WindowHead],
    digest: &H,
) -> Result<Tables, StoreFault>
    ensures ids { IfOk result (λ read. IsVaultOf catalog.now (map entry_of read.tables.items)) }
    ensures weight { IfOk result (λ read. read.weight ≡ tables_weight (map entry_of read.tables.items)) }
    ensures clear { IfOk result (λ read. AreInForm (record { mapping = catalog.now; hashes = hashes_of H.function; width = H.function.width; heads = heads.now; tables = [] }) (map entry_of read.tables.items)) }
    ensures told { IfOk result (λ read. Told (K.store keeper.old) (λ s. map entry_of read.tables.items ≡ stored_entries s (tables catalog.now))) }
    ensures undamaged { IfOk result (λ read. Told (K.store keeper.old) (λ s. s.windows ++ map head_of (option_to_list s.stage) ≡ heads.now → raw_damage catalog.now (hashes_of H.function) H.function.width s ≡ None)) }
    ensures damaged { (damage : Damage) → IsErrOf result (Damaged damage) → Told (K.store keeper.old) (λ s. s.windows ++ map head_of (option_to_list s.stage) ≡ heads.now → raw_damage catalog.now (hashes_of H.function) H.function.width s ≡ Some damage) }
    ensures formed { (damage : Damage) → IsErrOf result (Damaged damage) → IsNamed catalog.now damage }
    ensures store { K.store keeper.new ≡ K.store keeper.old }
    ensures cause { IsErrOf result StoreFault.KeeperFault → Rose (K.faults keeper.old) (K.faults keeper.new) }
    ensures later { K.faults keeper.old ≤ K.faults keeper.new }
{
    let ids = catalog.tables()?;
    let gathered = gather(alloc, keeper, catalog, heads, ids.items(), digest)?;
    let weight = gathered.weight;
    let tables = gathered.together(alloc)?;
    Ok(Tables { tables, weight })
}
