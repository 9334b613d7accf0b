// The periods of a feed at a date, read back from the vault: those that the effectivity table tells, each with its
// business keys (Linstedt and Olschimke 2015, chapter 5, on effectivity satellites).
ghost use Rattle.std.specs.Prelude.{◌≡◌, ◌<◌, Contains, IfOk, List as list_of, Some, length, slice_get};
ghost use Rattle.std.specs.List.{filter_map};
ghost use Rattle.dv_text.specs.declared.rows.Window.{Window};
ghost use Rattle.dv_text.specs.Keys.{Hashes};
ghost use Rattle.dv_catalog.specs.declared.entries.FeedDef.{FeedDef};
ghost use Rattle.dv_catalog.specs.Tables.{tables};
ghost use Rattle.dv_records.specs.Marts.{period_mart};
ghost use Rattle.dv_records.specs.ReadBack as spec;
ghost use Rattle.dv_vault.specs.Vaults.{HasSealed};

use crate::content_rows::copied_keys;
use crate::contents::add;
use crate::lenders::{Lender, missing_keys};
use dv_catalog::TableId;
use dv_records::{Period, PeriodRow, sorted_firsts};
use dv_text::{List, Memory, Stamp};
use dv_vault::Vault;

// The row of a period; none where no row has its parent's hash key.
fn period_read(lender: &Lender, feed: u32, period: &Period) -> Result<Option<PeriodRow>, Memory>
    requires { feed < length lender.now.vault.now.mapping.feeds }
    ensures { IfOk result (λ row. (definition : FeedDef) → slice_get lender.now.vault.now.mapping.feeds feed ≡ Some definition → row ≡ spec.period_read lender.now.vault.now.mapping lender.now.vault.now.tables definition period.now) }
{
    let definition = lender.feed(feed);
    let Some(refs) = lender.refs(definition.parent, &period.parent)? else {
        return Ok(None);
    };
    let refs = copied_keys(&refs)?;
    Ok(Some(PeriodRow {
        refs,
        begin: period.begin,
        end: period.end,
    }))
}

// The rows of periods.
fn periods_read(lender: &Lender, feed: u32, periods: &[Period]) -> Result<Vec<PeriodRow>, Memory>
    requires { feed < length lender.now.vault.now.mapping.feeds }
    ensures { IfOk result (λ rows. (defined : FeedDef) → slice_get lender.now.vault.now.mapping.feeds feed ≡ Some defined
        → rows.items ≡ filter_map (spec.period_read lender.now.vault.now.mapping lender.now.vault.now.tables defined) periods.now) }
{
    let mut rows = Vec::with_capacity(lender.alloc, periods.len())?;
    for period in periods {
        let row = period_read(lender, feed, period)?;
        add(&mut rows, row)?;
    }
    Ok(rows)
}

/// From when to when each reference list of a feed was delivered without a break, in the sealed windows that are
/// not later than the date, read back from the tables, by references, then begin; the end of a run that ends
/// later is open. Condition: the feed has driving keys.
pub fn periods(vault: &Vault, feed: u32, date: Stamp) -> Result<List<PeriodRow>, Memory>
    requires driven { Contains (tables vault.now.mapping) (TableId.Effect feed) }
    ensures read { IfOk result (λ rows. rows ≡ spec.periods_read vault.now.mapping vault.now.tables feed date) }
    ensures told { IfOk result (λ rows. (hashes : Hashes) (sealed : list_of Window) → HasSealed hashes sealed vault.now → rows ≡ period_mart sealed feed date) }
{
    let missing = missing_keys(vault)?;
    let lender = Lender::new(vault, missing.items());
    let Some(table) = vault.effect(feed) else {
        unreachable!();
    };
    let periods = table.periods(date)?;
    let rows = periods_read(&lender, feed, periods.items())?;
    let rows = sorted_firsts(rows)?;
    Ok(rows)
}
