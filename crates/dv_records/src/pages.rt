ghost use Rattle.std.specs.Prelude.{◌≡◌, IfOk, take, drop};
ghost use Rattle.dv_records.specs.Stores.{page, rows_in, table_eq};

use crate::stores::{Rows, TableRows};
use dv_catalog::TableId;
use dv_text::{Duplicate, List, Memory};
use std::alloc::Global;

/// How many rows a page has that is read of a keeper's table, but for the last one.
pub const PAGE_ROWS: u32 = 1000;

/// Whether two tables are one.
pub(crate) fn is_same_table(a: TableId, b: TableId) -> bool
    ensures { result ≡ table_eq a b }
{
    a == b
}

fn copies<T: Duplicate>(alloc: Global, items: &[T]) -> Result<List<T>, Memory>
    ensures { IfOk result (λ made. made ≡ items.now) }
{
    let mut made = List::new(alloc);
    for item in items {
        made.push(item.copy()?)?;
    }
    Ok(made)
}

/// At most `most` of the items, from place `from` on.
pub(crate) fn part<T: Duplicate>(
    alloc: Global,
    items: &[T],
    from: u64,
    most: u32,
) -> Result<List<T>, Memory>
    ensures { IfOk result (λ made. made ≡ take most (drop from items.now)) }
{
    let from = (from as usize).min(items.len());
    let rest = &items[from..];
    let most = (most as usize).min(rest.len());
    copies(alloc, &rest[..most])
}

/// At most `most` of a table's rows, from place `from` on. Of `a`, `b`, `c` and `d` the two from
/// place 1 on are `b` and `c`; of a table without an entry there are none.
pub fn table_page(
    alloc: Global,
    tables: &[TableRows],
    table: TableId,
    from: u64,
    most: u32,
) -> Result<Rows, Memory>
    ensures { IfOk result (λ made. made ≡ page from most (rows_in table tables.now)) }
{
    for entry in tables {
        if is_same_table(entry.table, table) {
            return entry.rows.page(alloc, from, most);
        }
    }
    Ok(Rows::none_of(alloc, table))
}
