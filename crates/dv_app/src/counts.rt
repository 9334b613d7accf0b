// How many rows a vault has, as a text of lines.
ghost use Rattle.std.specs.Prelude.{◌≡◌, ◌<◌, ◌++◌, Contains, IfOk, List as list_of, OnOk, length, sum_by};
ghost use Rattle.std.specs.List.{flat_map, range_with_len};
ghost use Rattle.dv_text.specs.Keys.{Hashes};
ghost use Rattle.dv_text.specs.declared.rows.Window.{Window};
ghost use Rattle.dv_catalog.specs.Tables.{tables};
ghost use Rattle.dv_mart.specs.MartTexts.{HasKind};
ghost use Rattle.dv_vault.specs.Vaults.{HasSealed};
ghost use Rattle.dv_app.specs.Exercised as spec;

use dv_catalog::TableId;
use dv_mart::feed_mart;
use dv_text::{Memory, Stamp, Text};
use dv_vault::Vault;
use std::alloc::Global;

// Puts a line of a name and a number at the end.
fn push_count(alloc: Global, text: &mut Vec<u8>, name: &[u8], count: u64) -> Result<(), Memory>
    ensures { OnOk result (text.new.items ≡ text.old.items ++ spec.count_line name.now count) }
{
    let shown = count.to_string(alloc)?;
    text.extend_from_slice(name)?;
    text.push(b' ')?;
    text.extend_from_slice(shown.as_bytes())?;
    text.push(b'\n')?;
    Ok(())
}

// How many rows a table of a vault has. Takes no memory.
fn table_count(vault: &Vault, table: TableId) -> u64
    requires among { Contains (tables vault.now.mapping) table }
    requires kind { HasKind vault.now.tables table }
    ensures { result ≡ spec.table_count vault.now.tables table }
{
    match table {
        TableId::Hub(hub) => vault.hub(hub).rows().len() as u64,
        TableId::Link(link) => vault.link(link).rows().len() as u64,
        TableId::Sat(feed) => match vault.sat(feed) {
            Some(table) => table.rows().len() as u64,
            None => unreachable!(),
        },
        TableId::Multi(feed) => match vault.multi(feed) {
            Some(table) => table.rows().len() as u64,
            None => unreachable!(),
        },
        TableId::Status(feed) => vault.status(feed).rows().len() as u64,
        TableId::Effect(feed) => match vault.effect(feed) {
            Some(table) => table.rows().len() as u64,
            None => unreachable!(),
        },
    }
}

// How many rows tables of a vault have together. More than a number of 64 bits has room for find no
// room in memory.
fn count_all(vault: &Vault, ids: &[TableId]) -> Result<u64, Memory>
    requires tables { ids.now ≡ tables vault.now.mapping }
    requires kinds { spec.HasKinds vault.now }
    ensures { IfOk result (λ count. count ≡ sum_by (spec.table_count vault.now.tables) ids.now) }
{
    let mut count: u64 = 0;
    for table in ids {
        count = count.checked_add(table_count(vault, *table)).ok_or(Memory)?;
    }
    Ok(count)
}

// Puts the line of a table of a vault at the end.
fn push_table(
    alloc: Global,
    text: &mut Vec<u8>,
    vault: &Vault,
    table: TableId,
) -> Result<(), Memory>
    requires among { Contains (tables vault.now.mapping) table }
    requires kind { HasKind vault.now.tables table }
    ensures { OnOk result (text.new.items ≡ text.old.items ++ spec.table_line vault.now.mapping vault.now.tables table) }
{
    let name = vault.catalog().table_name(table)?;
    push_count(alloc, text, name.bytes(), table_count(vault, table))
}

// Puts the lines of tables of a vault at the end.
fn push_tables(
    alloc: Global,
    text: &mut Vec<u8>,
    vault: &Vault,
    ids: &[TableId],
) -> Result<(), Memory>
    requires tables { ids.now ≡ tables vault.now.mapping }
    requires kinds { spec.HasKinds vault.now }
    ensures { OnOk result (text.new.items ≡ text.old.items ++ flat_map (spec.table_line vault.now.mapping vault.now.tables) ids.now) }
{
    for table in ids {
        push_table(alloc, text, vault, *table)?;
    }
    Ok(())
}

// Puts the line of a feed's mart at a date at the end.
fn push_feed(
    alloc: Global,
    text: &mut Vec<u8>,
    vault: &Vault,
    feed: u32,
    date: Stamp,
) -> Result<(), Memory>
    requires { feed < length vault.now.mapping.feeds }
    ensures { OnOk result ((hashes : Hashes) (sealed : list_of Window) → HasSealed hashes sealed vault.now
        → text.new.items ≡ text.old.items ++ spec.feed_line vault.now.mapping sealed date feed) }
{
    let rows = feed_mart(vault, feed, date)?;
    let name = &vault.catalog().feed(feed).name;
    text.extend_from_slice(b"feed:")?;
    push_count(alloc, text, name.bytes(), rows.items().len() as u64)
}

// Puts the lines of all feeds' marts at a date at the end.
fn push_feeds(alloc: Global, text: &mut Vec<u8>, vault: &Vault, date: Stamp) -> Result<(), Memory>
    ensures { OnOk result ((hashes : Hashes) (sealed : list_of Window) → HasSealed hashes sealed vault.now
        → text.new.items ≡ text.old.items ++ flat_map (spec.feed_line vault.now.mapping sealed date) (range_with_len 0 (length vault.now.mapping.feeds))) }
{
    for feed in 0..vault.catalog().feed_count() {
        push_feed(alloc, text, vault, feed, date)?;
    }
    Ok(())
}

/// The counts of a vault: its windows, their rows, the rows of each table in table order, and of the
/// mart of each feed at a date.
pub(crate) fn counts_text(alloc: Global, vault: &Vault, date: Stamp) -> Result<Text, Memory>
    requires kinds { spec.HasKinds vault.now }
    ensures { IfOk result (λ text. (hashes : Hashes) (sealed : list_of Window) → HasSealed hashes sealed vault.now
        → text ≡ spec.counts_text vault.now.mapping sealed vault.now.tables date) }
{
    let ids = vault.catalog().tables()?;
    let rows = count_all(vault, ids.items())?;
    let mut text = Vec::new(alloc);
    push_count(
        alloc,
        &mut text,
        b"windows",
        vault.heads().items().len() as u64,
    )?;
    push_count(alloc, &mut text, b"rows", rows)?;
    push_tables(alloc, &mut text, vault, ids.items())?;
    push_feeds(alloc, &mut text, vault, date)?;
    Text::from_vec(text)
}
