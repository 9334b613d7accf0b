// The raw tables that are read, each behind those of its kind.
ghost use Rattle.std.specs.Prelude.{◌≡◌, ◌+◌, ◌++◌, [], IfOk, OnOk, map};
ghost use Rattle.dv_vault.specs.Vaults.{entry_of};
ghost use Rattle.dv_restore.specs.Readings.{IsKnownBy, IsPut, entries_in, hub_entries, link_entries};

use dv_catalog::Catalog;
use dv_hub_link::{HubTable, LinkTable};
use dv_store_rules::{Checked, Known};
use dv_text::{Memory, WindowHead};
use dv_vault::Table;
use std::alloc::Global;

/// The tables of hubs and of links, each at its place, those of feeds in table order, and what all weigh.
#[derive(Drop)]
pub(crate) struct Gathered {
    pub(crate) hubs: Vec<HubTable>,
    pub(crate) links: Vec<LinkTable>,
    pub(crate) feeds: Vec<Table>,
    pub(crate) weight: u64,
}

// The place behind a place.
fn next_place(place: u32) -> Result<u32, Memory>
    ensures { IfOk result (λ next. next ≡ place + 1) }
{
    place.checked_add(1).ok_or(Memory)
}

// Puts the tables of hubs behind others, each with the place of its hub.
fn put_hubs(tables: &mut Vec<Table>, hubs: Vec<HubTable>) -> Result<(), Memory>
    ensures { OnOk result (map entry_of tables.new.items ≡ map entry_of tables.old.items ++ hub_entries 0 hubs.items) }
{
    let mut hub: u32 = 0;
    for rows in hubs {
        tables.push(Table::Hub { hub, rows })?;
        hub = next_place(hub)?;
    }
    Ok(())
}

// The same with those of links.
fn put_links(tables: &mut Vec<Table>, links: Vec<LinkTable>) -> Result<(), Memory>
    ensures { OnOk result (map entry_of tables.new.items ≡ map entry_of tables.old.items ++ link_entries 0 links.items) }
{
    let mut link: u32 = 0;
    for rows in links {
        tables.push(Table::Link { link, rows })?;
        link = next_place(link)?;
    }
    Ok(())
}

impl Gathered {
    /// No tables.
    pub(crate) fn new(alloc: Global) -> Gathered
        ensures hubs { result.hubs.items ≡ [] }
        ensures links { result.links.items ≡ [] }
        ensures feeds { result.feeds.items ≡ [] }
        ensures weight { result.weight ≡ 0 }
    {
        Gathered {
            hubs: Vec::new(alloc),
            links: Vec::new(alloc),
            feeds: Vec::new(alloc),
            weight: 0,
        }
    }

    /// What is known by the tables so far. Takes no memory.
    pub(crate) fn known<'a>(&'a self, catalog: &'a Catalog, heads: &'a [WindowHead]) -> Known<'a>
        ensures { IsKnownBy catalog.now heads.now self.now result }
    {
        Known {
            catalog,
            heads,
            hubs: &self.hubs,
            links: &self.links,
            weight: self.weight,
        }
    }

    /// Puts a table behind those of its kind, with which all tables weigh so much.
    pub(crate) fn put(&mut self, made: Checked<Table>) -> Result<(), Memory>
        ensures { OnOk result (IsPut self.old made.table made.weight self.new) }
    {
        self.weight = made.weight;
        match made.table {
            Table::Hub { hub: _, rows } => self.hubs.push(rows)?,
            Table::Link { link: _, rows } => self.links.push(rows)?,
            Table::Sat { feed, rows } => self.feeds.push(Table::Sat { feed, rows })?,
            Table::Multi { feed, rows } => self.feeds.push(Table::Multi { feed, rows })?,
            Table::Status { feed, rows } => self.feeds.push(Table::Status { feed, rows })?,
            Table::Effect { feed, rows } => self.feeds.push(Table::Effect { feed, rows })?,
        }
        Ok(())
    }

    /// All tables, in table order.
    pub(crate) fn together(self, alloc: Global) -> Result<Vec<Table>, Memory>
        ensures { IfOk result (λ tables. map entry_of tables.items ≡ entries_in self) }
    {
        let Gathered {
            hubs,
            links,
            mut feeds,
            weight: _,
        } = self;
        let mut tables = Vec::new(alloc);
        put_hubs(&mut tables, hubs)?;
        put_links(&mut tables, links)?;
        tables.append(&mut feeds)?;
        Ok(tables)
    }
}
