//! The text of a raw table with all its rows.

ghost use Rattle.std.specs.Prelude.{◌≡◌, [], Contains, IfOk, IfSome, IsTrue, OnOk, option_map};
ghost use Rattle.std.specs.Io.KnownBytes.{Appends};
ghost use Rattle.std.specs.Option.{option_map_or};
ghost use Rattle.csv.specs.Writing.{text_written};
ghost use Rattle.dv_catalog.specs.Tables.{tables};
ghost use Rattle.dv_records.specs.Stores.{is_of_kind, rows_in};
ghost use Rattle.dv_print.specs.TableTexts.{table_text};
ghost use Rattle.dv_mart.specs.MartTexts.{HasKind};
ghost use Rattle.dv_print.specs.TableTexts.{raw_records, rows_behind};
ghost use Rattle.dv_print.specs.Texts.{csv_text};
ghost use Rattle.dv_print.specs.Writers.{IsBetweenRecords};

use csv::Writer;
use dv_catalog::TableId;
use dv_print::{Fields, new_writer, put_record, put_rows, table_header, text_of};
use dv_records::Rows;
use dv_text::{Memory, Text};
use dv_vault::Vault;
use std::alloc::Global;
use std::io::Write;

// Writes the records of rows of a raw table.
fn put_raw_rows<W: Write + Drop>(
    writer: &mut Writer<W>,
    fields: &mut Fields,
    rows: &Rows,
) -> Result<(), Memory>
    requires { IsBetweenRecords writer.old }
    ensures text { OnOk result (Appends (text_written W.contents writer.old) (text_written W.contents writer.new) (csv_text (raw_records rows.now))) }
    ensures between { OnOk result (IsBetweenRecords writer.new) }
{
    match rows {
        Rows::Hubs(rows) => put_rows(writer, fields, rows.items()),
        Rows::Links(rows) => put_rows(writer, fields, rows.items()),
        Rows::Sats(rows) => put_rows(writer, fields, rows.items()),
        Rows::Multis(rows) => put_rows(writer, fields, rows.items()),
        Rows::Statuses(rows) => put_rows(writer, fields, rows.items()),
        Rows::Effects(rows) => put_rows(writer, fields, rows.items()),
        // Rows of a snapshot stand in no raw table.
        Rows::Pits(_) | Rows::Bridges(_) => Ok(()),
    }
}

// Writes the records of rows of a raw table, where there are any.
fn put_behind<W: Write + Drop>(
    writer: &mut Writer<W>,
    fields: &mut Fields,
    behind: Option<&Rows>,
) -> Result<(), Memory>
    requires { IsBetweenRecords writer.old }
    ensures text { OnOk result (Appends (text_written W.contents writer.old) (text_written W.contents writer.new) (csv_text (option_map_or (λ rows. raw_records rows.now) behind.entry []))) }
    ensures between { OnOk result (IsBetweenRecords writer.new) }
{
    match behind {
        Some(rows) => put_raw_rows(writer, fields, rows),
        None => Ok(()),
    }
}

// Writes the records of the rows that a vault has of a table.
fn put_vault_rows<W: Write + Drop>(
    writer: &mut Writer<W>,
    fields: &mut Fields,
    vault: &Vault,
    table: TableId,
) -> Result<(), Memory>
    requires among { Contains (tables vault.now.mapping) table }
    requires between { IsBetweenRecords writer.old }
    ensures text { OnOk result (HasKind vault.now.tables table → Appends (text_written W.contents writer.old) (text_written W.contents writer.new) (csv_text (raw_records (rows_in table vault.now.tables)))) }
    ensures between { OnOk result (IsBetweenRecords writer.new) }
{
    match table {
        TableId::Hub(hub) => put_rows(writer, fields, vault.hub(hub).rows()),
        TableId::Link(link) => put_rows(writer, fields, vault.link(link).rows()),
        TableId::Sat(feed) => match vault.sat(feed) {
            Some(table) => put_rows(writer, fields, table.rows()),
            None => unreachable!(),
        },
        TableId::Multi(feed) => match vault.multi(feed) {
            Some(table) => put_rows(writer, fields, table.rows()),
            None => unreachable!(),
        },
        TableId::Status(feed) => put_rows(writer, fields, vault.status(feed).rows()),
        TableId::Effect(feed) => match vault.effect(feed) {
            Some(table) => put_rows(writer, fields, table.rows()),
            None => unreachable!(),
        },
    }
}

/// The text of a raw table with all its rows: those of the vault, and behind them those of the open
/// window that the table has. Conditions: the table is in the mapping, and the rows behind are of
/// its kind. Where the key `1` is sealed in a hub, and the open window has appended `2`, the text
/// has a line for each.
pub fn whole_table_text(
    alloc: Global,
    vault: &Vault,
    table: TableId,
    behind: Option<&Rows>,
) -> Result<Text, Memory>
    requires among { Contains (tables vault.now.mapping) table }
    requires kind { IfSome behind (λ rows. IsTrue (is_of_kind table rows.now)) }
    ensures { IfOk result (λ text. HasKind vault.now.tables table
        → text ≡ table_text vault.now.mapping table (rows_behind (rows_in table vault.now.tables) (option_map (λ rows. rows.now) behind.entry))) }
{
    let mut fields = table_header(alloc, vault.catalog(), table)?;
    let mut writer = new_writer(alloc);
    put_record(&mut writer, &fields)?;
    put_vault_rows(&mut writer, &mut fields, vault, table)?;
    put_behind(&mut writer, &mut fields, behind)?;
    text_of(writer)
}
