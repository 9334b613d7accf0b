//! Hub marts over the sealed windows of a vault.

ghost use Rattle.std.specs.Prelude.{◌≡◌, ◌<◌, ◌∷◌, List as list_of, length, map, IfOk};
ghost use Rattle.dv_text.specs.declared.rows.Window.{Window};
ghost use Rattle.dv_text.specs.Keys.{Hashes};
ghost use Rattle.dv_records.specs.Marts as marts;
ghost use Rattle.dv_records.specs.ReadBack.{any_content_read};
ghost use Rattle.dv_vault.specs.Vaults.{HasSealed};
ghost use Rattle.dv_mart.specs.HubContents as spec;
ghost use Rattle.dv_print.specs.Texts as texts;
ghost use Rattle.dv_print.specs.Texts.{csv_text, hub_record};

use crate::hub_columns::columns_of;
use crate::hub_contents::{FeedRows, contents_of, keys_of};
use crate::hub_rows::{copied_rows, lent_rows, lent_text};
use dv_contents::missing_keys;
use dv_print::{Fields, feeds_of, hub_header};
use dv_records::HubMartRow;
use dv_text::{List, Memory, Stamp, Text};
use dv_vault::Vault;
use std::alloc::Global;

// The rows of contents, with copies of what these lend.
fn rows_of(alloc: Global, contents: &[FeedRows<'_>]) -> Result<List<HubMartRow>, Memory>
    requires { spec.AreInOrder contents.now }
    ensures { IfOk result (λ rows. rows ≡ spec.rows_of contents.now) }
{
    let keys = keys_of(alloc, contents)?;
    let columns = columns_of(alloc, contents, keys.items())?;
    let rows = lent_rows(alloc, keys.items(), columns.as_slice())?;
    let made = copied_rows(alloc, rows.as_slice())?;
    Ok(made)
}

// The text of a header and of the rows of contents, which are lent.
fn text_of(alloc: Global, header: Fields, contents: &[FeedRows<'_>]) -> Result<Text, Memory>
    requires { spec.AreInOrder contents.now }
    ensures { IfOk result (λ text. text ≡ csv_text (header ∷ map hub_record (spec.rows_of contents.now))) }
{
    let keys = keys_of(alloc, contents)?;
    let columns = columns_of(alloc, contents, keys.items())?;
    let rows = lent_rows(alloc, keys.items(), columns.as_slice())?;
    let text = lent_text(alloc, header, rows.as_slice())?;
    Ok(text)
}

/// A row for each key in the content of at least one feed of the hub at a date, by key, with a cell
/// for each feed in declared order: whether the feed's content has the key, and its attributes or
/// as many blanks; of a feed with a sub nothing but the first. Condition: the mapping has the hub.
/// Where one feed has the customers `1` and `2` with a name, and another `2` and `3` with a tier,
/// there are three rows: that of `1` has its name, and for the other feed that it isn't there, and
/// one blank.
pub fn hub_mart(
    alloc: Global,
    vault: &Vault,
    hub: u32,
    date: Stamp,
) -> Result<List<HubMartRow>, Memory>
    requires { hub < length vault.now.mapping.hubs }
    ensures read { IfOk result (λ rows. rows ≡ marts.hub_rows vault.now.mapping (λ feed. any_content_read vault.now.mapping vault.now.tables feed date) hub) }
    ensures told { IfOk result (λ rows. (hashes : Hashes) (sealed : list_of Window) → HasSealed hashes sealed vault.now → rows ≡ marts.hub_mart vault.now.mapping sealed hub date) }
{
    let catalog = vault.catalog();
    catalog.note_valid();
    let feeds = feeds_of(alloc, catalog, hub)?;
    let missing = missing_keys(vault)?;
    let contents = contents_of(alloc, vault, missing.items(), feeds.as_slice(), date)?;
    rows_of(alloc, contents.as_slice())
}

/// The text of a hub's mart at a date, written of rows that are lent. Condition: the mapping has the hub.
pub(crate) fn hub_mart_text(
    alloc: Global,
    vault: &Vault,
    hub: u32,
    date: Stamp,
) -> Result<Text, Memory>
    requires { hub < length vault.now.mapping.hubs }
    ensures { IfOk result (λ text. (hashes : Hashes) (sealed : list_of Window) → HasSealed hashes sealed vault.now → text ≡ texts.hub_text vault.now.mapping hub (marts.hub_mart vault.now.mapping sealed hub date)) }
{
    let catalog = vault.catalog();
    catalog.note_valid();
    let feeds = feeds_of(alloc, catalog, hub)?;
    let missing = missing_keys(vault)?;
    let contents = contents_of(alloc, vault, missing.items(), feeds.as_slice(), date)?;
    let header = hub_header(alloc, catalog, hub)?;
    text_of(alloc, header, contents.as_slice())
}
