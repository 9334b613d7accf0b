//! Changes of the file, each of which is one transaction.
ghost use Rattle.std.specs.Prelude.{◌≡◌, Ok, OnOk, IsTrue};
ghost use Rattle.sqlite.specs.Values.{bound};
ghost use Rattle.sqlite.specs.State.{HasCleanDisk, ExecutesInside as Executes, Survives};
ghost use Rattle.sqlite.specs.Held.{state};
ghost use Rattle.dv_sqlite.specs.Changes.{ChangedBoth};

use crate::refusals::{Refusal, Result};
use sqlite::types::ValueRef;
use sqlite::{Alter, Connection, Transaction};

/// A transaction, which leaves the file as it is where it is not committed.
pub(crate) fn begun<S: Alter>(conn: &mut Connection<S>) -> Result<Transaction<'_, S>> {
    if !conn.is_autocommit() {
        return Err(Refusal::Fault);
    }
    Ok(conn.transaction())
}

/// Runs a statement that changes so many rows. A fault where it changed another number of them.
pub(crate) fn change_rows<S: Alter>(
    tx: &mut Transaction<'_, S>,
    sql: &str,
    values: &[ValueRef<'_>],
    rows: usize,
) -> Result<()>
    ensures same_reference { tx.new.conn.ghost_name ≡ tx.old.conn.ghost_name }
    ensures asked { HasCleanDisk (state S.Store tx.new.conn.now) → IsTrue (state S.Store tx.old.conn.now).in_transaction → OnOk result (Executes 0 sql.now (bound values.now) (state S.Store tx.old.conn.now) (state S.Store tx.new.conn.now) (Ok rows)) }
    ensures survives { Survives (state S.Store tx.old.conn.now) (state S.Store tx.new.conn.now) (λ _. ⊥) }
{
    if tx.execute(sql, values)? != rows {
        return Err(Refusal::Fault);
    }
    Ok(())
}

/// Runs two statements, each of which changes one row, in one transaction.
pub(crate) fn change_both<S: Alter>(
    conn: &mut Connection<S>,
    first: &str,
    first_values: &[ValueRef<'_>],
    second: &str,
    second_values: &[ValueRef<'_>],
) -> Result<()>
    ensures both { HasCleanDisk (state S.Store conn.new) → OnOk result (ChangedBoth S.Store first.now (bound first_values.now) second.now (bound second_values.now) conn.old (state S.Store conn.new).committed) }
    ensures crash { Survives (state S.Store conn.old) (state S.Store conn.new) (λ trees. (db : _) × ChangedBoth S.Store first.now (bound first_values.now) second.now (bound second_values.now) conn.old db × (trees ≡ db.trees)) }
{
    if !conn.is_autocommit() {
        return Err(Refusal::Fault);
    }
    let mut tx = conn.transaction();
    change_rows(&mut tx, first, first_values, 1)?;
    change_rows(&mut tx, second, second_values, 1)?;
    tx.commit()?;
    Ok(())
}
