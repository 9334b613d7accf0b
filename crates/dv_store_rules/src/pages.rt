// The rows of a table of a keeper, read page after page.
ghost use Rattle.std.specs.Prelude.{◌≡◌, ◌+◌, IfOk, IsTrue, None, Some, if◌then◌else◌, nat_le};
ghost use Rattle.dv_text.specs.Told.{Told};
ghost use Rattle.dv_records.specs.Changes.{KeeperCause};
ghost use Rattle.dv_records.specs.Limits.{most_weight};
ghost use Rattle.dv_records.specs.Stores as stores;
ghost use Rattle.dv_records.specs.Stores.{rows_in};
ghost use Rattle.dv_records.specs.Weights.{rows_weight};
ghost use Rattle.dv_store_rules.specs.Pages.{AreFirst, IsGrown, IsOfTable, TellsPage, TellsRows};

use dv_catalog::TableId;
use dv_records::{Keeper, KeeperError, PAGE_ROWS, Rows, weight};
use dv_window_rules::MOST_WEIGHT;
use std::alloc::Global;

/// What reading a table came to: its rows, or so many of its first ones that they weigh too much with what was read
/// before; or that a row, which is counted from 1, is of another kind than the table's.
#[derive(Debug, Drop)]
pub enum Read {
    Rows(Rows),
    OtherKind { row: u64 },
}

// What taking a page came to: its rows were put behind those read before, there may be more, and all that was read weighs
// this; or all that is read of the table is read; or its rows are of another kind than the table's.
#[derive(Clone, Copy)]
enum Page {
    More { weight: u64 },
    Last,
    Foreign,
}

// A weight with that of rows; none where that is too much. Takes no memory.
fn added(sum: u64, rows: &Rows) -> Option<u64>
    ensures { result ≡ if nat_le (sum + rows_weight rows.now) most_weight then Some (sum + rows_weight rows.now) else None }
{
    let sum = u128::from(sum).saturating_add(weight(rows));
    if sum <= MOST_WEIGHT {
        Some(sum as u64)
    } else {
        None
    }
}

// Takes the page behind the rows read so far, and puts its rows behind them, where all that was read weighs so much.
fn take_page<K: Keeper>(
    alloc: Global,
    keeper: &mut K,
    table: TableId,
    rows: &mut Rows,
    weight: u64,
) -> Result<Page, KeeperError>
    requires kind { IsTrue (stores.is_of_kind table rows.old) }
    requires told { Told (K.store keeper.old) (λ s. AreFirst table (rows_in table s.tables) rows.old) }
    ensures kind { IsTrue (stores.is_of_kind table rows.new) }
    ensures grown { IfOk result (λ page. IsGrown weight rows.old rows.new page) }
    ensures told { IfOk result (λ page. Told (K.store keeper.old) (λ s. TellsPage table weight (rows_in table s.tables) rows.old rows.new page)) }
    ensures kept { K.store keeper.new ≡ K.store keeper.old }
    ensures cause { KeeperCause (K.faults keeper.old) (K.faults keeper.new) result }
{
    let page = keeper.rows(alloc, table, rows.count(), PAGE_ROWS)?;
    let taken = page.count();
    if taken == 0 {
        return Ok(Page::Last);
    }
    if !page.is_of_kind(table) {
        return Ok(Page::Foreign);
    }
    let sum = added(weight, &page);
    rows.put_behind(page)?;
    match sum {
        Some(weight) if taken >= u64::from(PAGE_ROWS) => Ok(Page::More { weight }),
        _ => Ok(Page::Last),
    }
}

/// The rows of a table that a keeper keeps, read from the first on in pages of 1,000, where the tables read before weigh
/// `weight`. They are all, or a front: the rows up to the end of the page with which they weigh, with `weight`, more than
/// a vault may. So no keeper holds the call for ever. Where a page has rows of another kind than the table's, its first
/// row is answered in place of rows.
/// `Failed` comes only where the keeper's count of faults rose, and `Memory` where memory ran out; the store is as before.
pub fn read_rows<K: Keeper>(
    alloc: Global,
    keeper: &mut K,
    table: TableId,
    weight: u64,
) -> Result<Read, KeeperError>
    ensures told { IfOk result (λ read. Told (K.store keeper.old) (λ s. TellsRows table weight (rows_in table s.tables) read)) }
    ensures kind { IfOk result (λ read. IsOfTable table read) }
    ensures kept { K.store keeper.new ≡ K.store keeper.old }
    ensures cause { KeeperCause (K.faults keeper.old) (K.faults keeper.new) result }
{
    let mut rows = Rows::none_of(alloc, table);
    let mut sum = weight;
    'pages: loop {
        match take_page(alloc, keeper, table, &mut rows, sum)? {
            Page::More { weight } => sum = weight,
            Page::Last => return Ok(Read::Rows(rows)),
            Page::Foreign => {
                return Ok(Read::OtherKind {
                    row: rows.count() + 1,
                });
            }
        }
    }
}
