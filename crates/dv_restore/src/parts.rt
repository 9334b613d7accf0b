// The tables of a vault in two: their rows of sealed windows, and those of the open one.
ghost use Rattle.std.specs.Prelude.{◌≡◌, ◌-◌, ◌≤◌, IfOk, IsTrue, map, sum_by};
ghost use Rattle.dv_records.specs.EffectPlaces.{effect_place};
ghost use Rattle.dv_records.specs.HubPlaces.{hub_place};
ghost use Rattle.dv_records.specs.LinkPlaces.{link_place};
ghost use Rattle.dv_records.specs.MultiPlaces.{multi_place};
ghost use Rattle.dv_records.specs.RowViews.{are_up_to, is_up_to};
ghost use Rattle.dv_records.specs.SatPlaces.{sat_place};
ghost use Rattle.dv_records.specs.StatusPlaces.{status_place};
ghost use Rattle.dv_records.specs.Weights.{rows_weight, tables_weight};
ghost use Rattle.dv_vault.specs.Vaults.{entry_of};
ghost use Rattle.dv_restore.specs.PartedRows.{ArePartedRows};
ghost use Rattle.dv_restore.specs.Parts.{AreParted, IsParted};

use crate::parted_rows::{ends_at, part_rows};
use dv_hub_link::{HubTable, LinkTable};
use dv_records::{EffectRow, HubRow, LinkRow, MultiRow, Rows, SatRow, StatusRow, weight};
use dv_sat::{MultiTable, SatTable};
use dv_text::{List, Memory, Stamp};
use dv_track::{EffectTable, StatusTable};
use dv_vault::Table;
use std::alloc::Global;

/// The tables of the sealed windows, the rows of the open load date of each table, and what the sealed ones weigh.
#[derive(Drop)]
pub(crate) struct Parts {
    pub sealed: Vec<Table>,
    pub opened: List<Rows>,
    pub weight: u64,
}

// The rows of a hub in two. A table without rows of the load date stays as it is.
fn hub_parts(
    alloc: Global,
    table: HubTable,
    load: Stamp,
) -> Result<(HubTable, List<HubRow>), Memory>
    requires { IsTrue (is_up_to load (Rows.Hubs table.rows)) }
    ensures { IfOk result (λ parts. ArePartedRows hub_place load table.rows parts.0.rows parts.1) }
{
    if !ends_at(table.rows(), load) {
        return Ok((table, List::new(alloc)));
    }
    let (sealed, opened) = part_rows(table.into_rows(), load)?;
    let table = HubTable::from_rows(alloc, sealed)?;
    Ok((table, opened))
}

// The same of a link.
fn link_parts(
    alloc: Global,
    table: LinkTable,
    load: Stamp,
) -> Result<(LinkTable, List<LinkRow>), Memory>
    requires { IsTrue (is_up_to load (Rows.Links table.rows)) }
    ensures { IfOk result (λ parts. ArePartedRows link_place load table.rows parts.0.rows parts.1) }
{
    if !ends_at(table.rows(), load) {
        return Ok((table, List::new(alloc)));
    }
    let (sealed, opened) = part_rows(table.into_rows(), load)?;
    let table = LinkTable::from_rows(alloc, sealed)?;
    Ok((table, opened))
}

// The same of a satellite.
fn sat_parts(
    alloc: Global,
    table: SatTable,
    load: Stamp,
) -> Result<(SatTable, List<SatRow>), Memory>
    requires { IsTrue (is_up_to load (Rows.Sats table.rows)) }
    ensures { IfOk result (λ parts. ArePartedRows sat_place load table.rows parts.0.rows parts.1) }
{
    if !ends_at(table.rows(), load) {
        return Ok((table, List::new(alloc)));
    }
    let (sealed, opened) = part_rows(table.into_rows(), load)?;
    let table = SatTable::from_rows(alloc, sealed)?;
    Ok((table, opened))
}

// The same of a multi-active satellite.
fn multi_parts(
    alloc: Global,
    table: MultiTable,
    load: Stamp,
) -> Result<(MultiTable, List<MultiRow>), Memory>
    requires { IsTrue (is_up_to load (Rows.Multis table.rows)) }
    ensures { IfOk result (λ parts. ArePartedRows multi_place load table.rows parts.0.rows parts.1) }
{
    if !ends_at(table.rows(), load) {
        return Ok((table, List::new(alloc)));
    }
    let (sealed, opened) = part_rows(table.into_rows(), load)?;
    let table = MultiTable::from_rows(alloc, sealed)?;
    Ok((table, opened))
}

// The same of a status table.
fn status_parts(
    alloc: Global,
    table: StatusTable,
    load: Stamp,
) -> Result<(StatusTable, List<StatusRow>), Memory>
    requires { IsTrue (is_up_to load (Rows.Statuses table.rows)) }
    ensures { IfOk result (λ parts. ArePartedRows status_place load table.rows parts.0.rows parts.1) }
{
    if !ends_at(table.rows(), load) {
        return Ok((table, List::new(alloc)));
    }
    let (sealed, opened) = part_rows(table.into_rows(), load)?;
    let table = StatusTable::from_rows(alloc, sealed)?;
    Ok((table, opened))
}

// The same of an effectivity table.
fn effect_parts(
    alloc: Global,
    table: EffectTable,
    load: Stamp,
) -> Result<(EffectTable, List<EffectRow>), Memory>
    requires { IsTrue (is_up_to load (Rows.Effects table.rows)) }
    ensures { IfOk result (λ parts. ArePartedRows effect_place load table.rows parts.0.rows parts.1) }
{
    if !ends_at(table.rows(), load) {
        return Ok((table, List::new(alloc)));
    }
    let (sealed, opened) = part_rows(table.into_rows(), load)?;
    let table = EffectTable::from_rows(alloc, sealed)?;
    Ok((table, opened))
}

// A table in two.
fn table_parts(alloc: Global, table: Table, load: Stamp) -> Result<(Table, Rows), Memory>
    requires { IsTrue (is_up_to load (entry_of table).rows) }
    ensures { IfOk result (λ parts. IsParted load (entry_of table) (entry_of parts.0) parts.1) }
{
    match table {
        Table::Hub { hub, rows } => {
            let (rows, opened) = hub_parts(alloc, rows, load)?;
            Ok((Table::Hub { hub, rows }, Rows::Hubs(opened)))
        }
        Table::Link { link, rows } => {
            let (rows, opened) = link_parts(alloc, rows, load)?;
            Ok((Table::Link { link, rows }, Rows::Links(opened)))
        }
        Table::Sat { feed, rows } => {
            let (rows, opened) = sat_parts(alloc, rows, load)?;
            Ok((Table::Sat { feed, rows }, Rows::Sats(opened)))
        }
        Table::Multi { feed, rows } => {
            let (rows, opened) = multi_parts(alloc, rows, load)?;
            Ok((Table::Multi { feed, rows }, Rows::Multis(opened)))
        }
        Table::Status { feed, rows } => {
            let (rows, opened) = status_parts(alloc, rows, load)?;
            Ok((Table::Status { feed, rows }, Rows::Statuses(opened)))
        }
        Table::Effect { feed, rows } => {
            let (rows, opened) = effect_parts(alloc, rows, load)?;
            Ok((Table::Effect { feed, rows }, Rows::Effects(opened)))
        }
    }
}

// All tables in two.
fn all_parts(
    alloc: Global,
    tables: Vec<Table>,
    load: Stamp,
) -> Result<(Vec<Table>, List<Rows>), Memory>
    requires { IsTrue (are_up_to load (map entry_of tables.items)) }
    ensures { IfOk result (λ parts. AreParted load (map entry_of tables.items) (map entry_of parts.0.items) parts.1) }
{
    let mut sealed = Vec::new(alloc);
    let mut opened = List::new(alloc);
    for table in tables {
        let (table, rows) = table_parts(alloc, table, load)?;
        sealed.push(table)?;
        opened.push(rows)?;
    }
    Ok((sealed, opened))
}

// What is left of a weight without these rows.
fn weight_without(weight_before: u64, opened: &[Rows]) -> u64
    requires { sum_by rows_weight opened.now ≤ weight_before }
    ensures { result ≡ weight_before - sum_by rows_weight opened.now }
{
    let mut left = weight_before;
    for rows in opened {
        left -= weight(rows) as u64;
    }
    left
}

/// The tables of a vault, which weigh so much, in two by the load date of the open window. Condition: no row is later.
pub(crate) fn in_parts(
    alloc: Global,
    tables: Vec<Table>,
    load: Stamp,
    weight: u64,
) -> Result<Parts, Memory>
    requires dated { IsTrue (are_up_to load (map entry_of tables.items)) }
    requires weight { weight ≡ tables_weight (map entry_of tables.items) }
    ensures parted { IfOk result (λ parts. AreParted load (map entry_of tables.items) (map entry_of parts.sealed.items) parts.opened) }
    ensures weight { IfOk result (λ parts. parts.weight ≡ tables_weight (map entry_of parts.sealed.items)) }
{
    let (sealed, opened) = all_parts(alloc, tables, load)?;
    let weight = weight_without(weight, opened.items());
    Ok(Parts {
        sealed,
        opened,
        weight,
    })
}
