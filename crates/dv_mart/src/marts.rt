//! The marts of feeds and of their periods over the sealed windows of a vault, and the text of what is offered, at a date.

ghost use Rattle.std.specs.Prelude.{◌≡◌, ◌<◌, Contains, IfErr, IfOk, IsErrOf, List as list_of, Ok, length, slice_get};
ghost use Rattle.dv_text.specs.declared.rows.Window.{Window};
ghost use Rattle.dv_text.specs.Keys.{Hashes};
ghost use Rattle.dv_catalog.specs.Tables.{tables};
ghost use Rattle.dv_records.specs.Marts as marts;
ghost use Rattle.dv_vault.specs.Vaults.{HasSealed};
ghost use Rattle.dv_records.specs.Snapshots as snapshots;
ghost use Rattle.dv_bridge.specs.ZeroKeys.{HasZeroKeys};
ghost use Rattle.dv_mart.specs.MartTexts as spec;
ghost use Rattle.dv_print.specs.Texts as texts;
ghost use Rattle.dv_mart.specs.OfferedMarts.{IsOffered};

use crate::hub_marts::hub_mart_text;
use crate::lent_texts::lent_feed_text;
use crate::mart_faults::MartFault;
use crate::path_marts::path_mart_text;
use crate::vault_tables::table_text;
use crate::whats::What;
use dv_bridge::bridge_rows;
use dv_catalog::TableId;
use dv_contents::{content, lent_content, missing_keys, periods};
use dv_pit::pit_rows;
use dv_print::{bridge_text, period_text, pit_text};
use dv_records::PeriodRow;
use dv_text::{List, Memory, NRow, Stamp, Text};
use dv_vault::Vault;
use std::alloc::Global;

/// The rows of a feed in the last sealed window that has it and is not later than the date, by
/// references, then sub, then attributes. Condition: the feed is in the mapping. With windows of 1
/// and 4 March, the mart at 3 March has the rows of the first.
pub fn feed_mart(vault: &Vault, feed: u32, date: Stamp) -> Result<List<NRow>, Memory>
    requires { feed < length vault.now.mapping.feeds }
    ensures { IfOk result (λ rows. (hashes : Hashes) (sealed : list_of Window) → HasSealed hashes sealed vault.now → rows ≡ marts.feed_mart sealed feed date) }
{
    content(vault, feed, date)
}

// The text of a feed's mart.
fn feed_mart_text(alloc: Global, vault: &Vault, feed: u32, date: Stamp) -> Result<Text, Memory>
    requires { feed < length vault.now.mapping.feeds }
    ensures { IfOk result (λ text. (hashes : Hashes) (sealed : list_of Window) → HasSealed hashes sealed vault.now → text ≡ spec.feed_text_by sealed feed date (slice_get vault.now.mapping.feeds feed)) }
{
    let missing = missing_keys(vault)?;
    let rows = lent_content(vault, missing.items(), feed, date)?;
    lent_feed_text(alloc, vault.catalog().feed(feed), rows.items())
}

/// From when to when each reference list of a feed was in force, by the sealed windows that are not
/// later than the date, by references, then by begin; what is in force at the date is open.
/// Condition: the feed has an effectivity table, as one with a driver has. Where the employee `1`
/// is in the department `P` by the window of 1 March, and in `Q` by that of 4 March, at 4 March
/// `1`, `P` was in force from 1 to 4 March, and `1`, `Q` is from 4 March to `Stamp::OPEN`.
pub fn period_mart(vault: &Vault, feed: u32, date: Stamp) -> Result<List<PeriodRow>, Memory>
    requires { Contains (tables vault.now.mapping) (TableId.Effect feed) }
    ensures { IfOk result (λ rows. (hashes : Hashes) (sealed : list_of Window) → HasSealed hashes sealed vault.now → rows ≡ marts.period_mart sealed feed date) }
{
    periods(vault, feed, date)
}

// The text of the mart of a feed's periods.
fn period_mart_text(alloc: Global, vault: &Vault, feed: u32, date: Stamp) -> Result<Text, Memory>
    requires { Contains (tables vault.now.mapping) (TableId.Effect feed) }
    ensures { IfOk result (λ text. (hashes : Hashes) (sealed : list_of Window) → HasSealed hashes sealed vault.now → text ≡ spec.period_text_by sealed feed date (slice_get vault.now.mapping.feeds feed)) }
{
    let rows = period_mart(vault, feed, date)?;
    period_text(alloc, vault.catalog().feed(feed), rows.items())
}

// The text of a hub's point-in-time table.
fn pit_mart_text(alloc: Global, vault: &Vault, hub: u32, date: Stamp) -> Result<Text, Memory>
    requires { hub < length vault.now.mapping.hubs }
    ensures { IfOk result (λ text. (hashes : Hashes) (sealed : list_of Window) → HasSealed hashes sealed vault.now → text ≡ texts.pit_text vault.now.mapping hub date (snapshots.pit vault.now.mapping hashes sealed hub date)) }
{
    let rows = pit_rows(alloc, vault, hub, date)?;
    pit_text(alloc, vault.catalog(), hub, date, rows.items())
}

// The text of a path's bridge table.
fn bridge_mart_text(alloc: Global, vault: &Vault, path: u32, date: Stamp) -> Result<Text, MartFault>
    requires { path < length vault.now.mapping.paths }
    ensures text { IfOk result (λ text. (hashes : Hashes) (sealed : list_of Window) → HasZeroKeys hashes → HasSealed hashes sealed vault.now
        → spec.mart_text vault.now.mapping hashes sealed vault.now.tables (What.Bridge path) date ≡ Ok text) }
    ensures too_large { IsErrOf result MartFault.TooLarge → spec.RefusesPath vault.now (What.Bridge path) date }
{
    let rows = bridge_rows(alloc, vault, path, date)?;
    let catalog = vault.catalog();
    let text = bridge_text(alloc, catalog, catalog.path(path), date, rows.items())?;
    Ok(text)
}

/// The text of a mart over the sealed windows, or of a table with its rows that are not later than the date.
/// Condition: a word names the mart or the table. `TooLarge` comes exactly where a mart or a bridge table is of a path
/// of which some first steps give more than 1,000,000 rows.
///
/// The mart of a feed with the customer `1`, named `abc`, is `CUST_NO,NAME\n1,abc\n`, and before
/// its first window it is `CUST_NO,NAME\n`.
pub fn mart_text(alloc: Global, vault: &Vault, what: &What, date: Stamp) -> Result<Text, MartFault>
    requires offered { IsOffered vault.now.mapping what.now }
    ensures text { IfOk result (λ text. (hashes : Hashes) (sealed : list_of Window) → HasZeroKeys hashes → HasSealed hashes sealed vault.now
        → spec.mart_text vault.now.mapping hashes sealed vault.now.tables what.now date ≡ Ok text) }
    ensures too_large { IfErr result (λ fault. fault ≡ MartFault.TooLarge → spec.RefusesPath vault.now what.now date) }
{
    match what {
        What::Path(path) => path_mart_text(alloc, vault, *path, date),
        What::Bridge(path) => bridge_mart_text(alloc, vault, *path, date),
        What::Feed(feed) => Ok(feed_mart_text(alloc, vault, *feed, date)?),
        What::Period(feed) => Ok(period_mart_text(alloc, vault, *feed, date)?),
        What::Hub(hub) => Ok(hub_mart_text(alloc, vault, *hub, date)?),
        What::Table(table) => Ok(table_text(alloc, vault, *table, date)?),
        What::Pit(hub) => Ok(pit_mart_text(alloc, vault, *hub, date)?),
    }
}
