//! The texts of the raw tables of a vault at a date.

ghost use Rattle.std.specs.Prelude.{◌≡◌, Contains, IfOk};
ghost use Rattle.dv_catalog.specs.Tables.{tables};
ghost use Rattle.dv_mart.specs.MartTexts.{HasKind, raw_text};

use dv_catalog::TableId;
use dv_print as texts;
use dv_text::{Memory, Stamp, Text};
use dv_vault::Vault;
use std::alloc::Global;

/// The text of a raw table with its rows that are not later than the date.
pub(crate) fn table_text(
    alloc: Global,
    vault: &Vault,
    table: TableId,
    date: Stamp,
) -> Result<Text, Memory>
    requires { Contains (tables vault.now.mapping) table }
    ensures { IfOk result (λ text. HasKind vault.now.tables table → text ≡ raw_text vault.now.mapping vault.now.tables table date) }
{
    let catalog = vault.catalog();
    match table {
        TableId::Hub(hub) => texts::table_text(alloc, catalog, hub, vault.hub(hub).rows(), date),
        TableId::Link(link) => {
            texts::table_text(alloc, catalog, link, vault.link(link).rows(), date)
        }
        TableId::Sat(feed) => match vault.sat(feed) {
            Some(table) => texts::table_text(alloc, catalog, feed, table.rows(), date),
            None => unreachable!(),
        },
        TableId::Multi(feed) => match vault.multi(feed) {
            Some(table) => texts::table_text(alloc, catalog, feed, table.rows(), date),
            None => unreachable!(),
        },
        TableId::Status(feed) => {
            texts::table_text(alloc, catalog, feed, vault.status(feed).rows(), date)
        }
        TableId::Effect(feed) => match vault.effect(feed) {
            Some(table) => texts::table_text(alloc, catalog, feed, table.rows(), date),
            None => unreachable!(),
        },
    }
}
