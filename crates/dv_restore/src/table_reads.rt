// One raw table of a keeper, read and held to the rules of form.
ghost use Rattle.std.specs.Prelude.{◌≡◌, ◌+◌, ◌≤◌, IfOk, IsErrOf, IsTrue, None, Some};
ghost use Rattle.dv_text.specs.Causes.{Rose};
ghost use Rattle.dv_text.specs.Keys.{hashes_of};
ghost use Rattle.dv_text.specs.Told.{Told};
ghost use Rattle.dv_catalog.specs.TableLookups.{is_table_of};
ghost use Rattle.dv_catalog.specs.Tables.{table_name};
ghost use Rattle.dv_records.specs.declared.answers.Damage as damages;
ghost use Rattle.dv_records.specs.Stores.{rows_in};
ghost use Rattle.dv_records.specs.Weights.{rows_weight};
ghost use Rattle.dv_store_rules.specs.Damages.{damage_at};
ghost use Rattle.dv_store_rules.specs.FormRules as spec;
ghost use Rattle.dv_store_rules.specs.KnownTables.{IsKnown};
ghost use Rattle.dv_store_rules.specs.Pages.{IsOfTable, TellsRows};
ghost use Rattle.dv_store_rules.specs.StoredRows.{flaw_in};
ghost use Rattle.dv_vault.specs.Vaults.{entry_of};
ghost use Rattle.dv_restore.specs.declared.faults.StoreFault.TheVariants.{Damaged};
ghost use Rattle.dv_restore.specs.Damages.{IsNamed};
ghost use Rattle.dv_restore.specs.Readings.{IsTableDamage, flaw_damage, flaw_read};

use crate::checked_tables::checked_table;
use crate::faults::StoreFault;
use dv_catalog::{Catalog, TableId};
use dv_records::{Damage, Keeper, KeeperError};
use dv_store_rules::{Checked, Fault, Flaw, Known, Read, read_rows};
use dv_text::{KeyDigest, Memory};
use dv_vault::Table;
use std::alloc::Global;

// The damage of a flaw, by the name of its table.
fn damaged(catalog: &Catalog, table: TableId, flaw: Flaw) -> Result<StoreFault, Memory>
    requires { IsTrue (is_table_of catalog.now table) }
    ensures { IfOk result (λ fault. fault ≡ Damaged (damage_at (table_name catalog.now table) flaw)) }
{
    let table = catalog.table_name(table)?;
    Ok(StoreFault::Damaged(Damage {
        table,
        row: flaw.row,
        rule: flaw.rule,
    }))
}

// What reading a table comes to, where the tables before weigh so much.
fn stored_rows<K: Keeper>(
    alloc: Global,
    keeper: &mut K,
    table: TableId,
    weight: u64,
) -> Result<Read, StoreFault>
    ensures told { IfOk result (λ read. Told (K.store keeper.old) (λ s. TellsRows table weight (rows_in table s.tables) read)) }
    ensures kind { IfOk result (λ read. IsOfTable table read) }
    ensures sound { (damage : damages.Damage) → IsErrOf result (Damaged damage) → ⊥ }
    ensures store { K.store keeper.new ≡ K.store keeper.old }
    ensures cause { IsErrOf result StoreFault.KeeperFault → Rose (K.faults keeper.old) (K.faults keeper.new) }
    ensures later { K.faults keeper.old ≤ K.faults keeper.new }
{
    match read_rows(alloc, keeper, table, weight) {
        Ok(read) => Ok(read),
        Err(KeeperError::Failed) => Err(StoreFault::KeeperFault),
        Err(KeeperError::Memory) => Err(StoreFault::Memory),
    }
}

// The table of what was read, or the damage of its first row that breaks a rule of form.
fn table_of<H: KeyDigest>(
    known: &Known<'_>,
    id: TableId,
    read: Read,
    digest: &H,
) -> Result<Checked<Table>, StoreFault>
    requires table { IsTrue (is_table_of known.now.catalog.now id) }
    requires kind { IsOfTable id read }
    ensures told { IfOk result (λ made. read ≡ Read.Rows (entry_of made.table).rows) }
    ensures id { IfOk result (λ made. (entry_of made.table).table ≡ id) }
    ensures weight { IfOk result (λ made. made.weight ≡ known.now.weight + rows_weight (entry_of made.table).rows) }
    ensures clear { (before : spec.Known) → IsKnown (hashes_of H.function) H.function.width known.now before → IfOk result (λ made. flaw_in before id (entry_of made.table).rows ≡ None) }
    ensures damaged { (before : spec.Known) → IsKnown (hashes_of H.function) H.function.width known.now before → (damage : damages.Damage) → IsErrOf result (Damaged damage) → flaw_damage known.now.catalog.now id (flaw_read before id read) ≡ Some damage }
    ensures sound { IsErrOf result StoreFault.KeeperFault → ⊥ }
{
    let rows = match read {
        Read::Rows(rows) => rows,
        Read::OtherKind { row } => {
            return Err(damaged(known.catalog, id, Flaw { row, rule: 4 })?);
        }
    };
    match checked_table(known, id, rows, digest) {
        Ok(made) => Ok(made),
        Err(Fault::Flawed(flaw)) => Err(damaged(known.catalog, id, flaw)?),
        Err(Fault::Memory) => Err(StoreFault::Memory),
    }
}

/// Reads a raw table of a keeper, where `known` is what was read before it, and holds its rows to the rules of form.
/// `Damaged` is of the first row that breaks one. Condition: the mapping has its hub, link or feed.
pub(crate) fn read_table<K: Keeper, H: KeyDigest>(
    alloc: Global,
    keeper: &mut K,
    known: &Known<'_>,
    id: TableId,
    digest: &H,
) -> Result<Checked<Table>, StoreFault>
    requires { IsTrue (is_table_of known.now.catalog.now id) }
    ensures id { IfOk result (λ made. (entry_of made.table).table ≡ id) }
    ensures weight { IfOk result (λ made. made.weight ≡ known.now.weight + rows_weight (entry_of made.table).rows) }
    ensures clear { (before : spec.Known) → IsKnown (hashes_of H.function) H.function.width known.now before → IfOk result (λ made. flaw_in before id (entry_of made.table).rows ≡ None) }
    ensures told { (before : spec.Known) → IsKnown (hashes_of H.function) H.function.width known.now before → IfOk result (λ made. Told (K.store keeper.old) (λ s. (entry_of made.table).rows ≡ rows_in id s.tables)) }
    ensures damaged { (before : spec.Known) → IsKnown (hashes_of H.function) H.function.width known.now before → (damage : damages.Damage) → IsErrOf result (Damaged damage) → IsTableDamage known.now.catalog.now before id (K.store keeper.old) damage }
    ensures formed { (before : spec.Known) → IsKnown (hashes_of H.function) H.function.width known.now before → (damage : damages.Damage) → IsErrOf result (Damaged damage) → IsNamed known.now.catalog.now damage }
    ensures store { K.store keeper.new ≡ K.store keeper.old }
    ensures cause { IsErrOf result StoreFault.KeeperFault → Rose (K.faults keeper.old) (K.faults keeper.new) }
    ensures later { K.faults keeper.old ≤ K.faults keeper.new }
{
    let read = stored_rows(alloc, keeper, id, known.weight)?;
    table_of(known, id, read, digest)
}
