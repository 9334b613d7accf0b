ghost use Rattle.std.specs.Prelude.{◌≡◌, OnOk, OnErr};
ghost use Rattle.std.specs.List.{position};
ghost use Rattle.dv_records.specs.Stores.{appended_to, table_eq};

use crate::pages::is_same_table;
use crate::stores::{Rows, TableRows};
use dv_catalog::TableId;
use dv_text::{List, Memory};
use std::alloc::Global;
use std::mem;

fn place_of(tables: &[TableRows], table: TableId) -> Option<usize>
    ensures { result ≡ position (λ entry. table_eq entry.table table) tables.now }
{
    tables
        .iter()
        .position(|entry| is_same_table(entry.table, table))
}

fn append_entry(entries: &mut Vec<TableRows>, table: TableId, rows: Rows) -> Result<(), Memory>
    ensures ok { OnOk result (entries.new.items ≡ appended_to table rows entries.old.items) }
    ensures err { OnErr result (entries.new.items ≡ entries.old.items) }
{
    match place_of(entries, table) {
        None => {
            entries.push(TableRows { table, rows })?;
            Ok(())
        }
        Some(at) => {
            let entry = &mut entries[at];
            entry.rows.put_behind(rows)?;
            Ok(())
        }
    }
}

/// Puts rows at the end of a table. For want of memory the tables are as before. A table that has
/// `a` has `a`, `b` and `c` once `b` and `c` are put there; one without an entry gets its entry
/// behind the others.
pub fn append(
    alloc: Global,
    tables: &mut List<TableRows>,
    table: TableId,
    rows: Rows,
) -> Result<(), Memory>
    ensures ok { OnOk result (tables.new ≡ appended_to table rows tables.old) }
    ensures err { OnErr result (tables.new ≡ tables.old) }
{
    match mem::replace(tables, List::new(alloc)).into_vec() {
        Ok(mut entries) => {
            let done = append_entry(&mut entries, table, rows);
            *tables = List::from_vec(entries);
            done
        }
        Err(failed) => {
            *tables = failed.value;
            Err(Memory)
        }
    }
}
