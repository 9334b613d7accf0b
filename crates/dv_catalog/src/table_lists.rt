//! The raw tables of a mapping, and their names.

ghost use Rattle.std.specs.Prelude.{◌≡◌, ◌+◌, ◌++◌, ◌∷◌, ◌^◌, ◌<◌, IfOk, IsTrue, OnOk, length, map};
ghost use Rattle.std.specs.List.{range_with_len};
ghost use Rattle.dv_catalog.specs.TableLookups.{is_table_of, table_named};
ghost use Rattle.dv_catalog.specs.Tables as spec;

use crate::catalogs::Catalog;
use crate::entries::FeedDef;
use crate::tables::TableId;
use dv_text::{List, Memory, Text};
use std::alloc::Global;

fn named(alloc: Global, prefix: &[u8], name: &Text) -> Result<Text, Memory>
    ensures { IfOk result (λ made. made ≡ prefix.now ++ name.now) }
{
    let mut bytes = Vec::from_slice(alloc, prefix)?;
    bytes.extend_from_slice(name.bytes())?;
    Text::from_vec(bytes)
}

fn add_hubs(tables: &mut List<TableId>, count: u32) -> Result<(), Memory>
    ensures { OnOk result (tables.new ≡ tables.old ++ map (λ n. TableId.Hub n) (range_with_len 0 count)) }
{
    for n in 0..count {
        tables.push(TableId::Hub(n))?;
    }
    Ok(())
}

fn add_links(tables: &mut List<TableId>, count: u32) -> Result<(), Memory>
    ensures { OnOk result (tables.new ≡ tables.old ++ map (λ n. TableId.Link n) (range_with_len 0 count)) }
{
    for n in 0..count {
        tables.push(TableId::Link(n))?;
    }
    Ok(())
}

fn add_sat(tables: &mut List<TableId>, n: u32, feed: &FeedDef) -> Result<(), Memory>
    ensures { OnOk result (tables.new ≡ tables.old ++ spec.sat_tables n feed.now.sub feed.now.attrs) }
{
    if feed.attrs.items().is_empty() {
        return Ok(());
    }
    if feed.sub.items().is_empty() {
        tables.push(TableId::Sat(n))?;
    } else {
        tables.push(TableId::Multi(n))?;
    }
    Ok(())
}

fn add_effect(tables: &mut List<TableId>, n: u32, feed: &FeedDef) -> Result<(), Memory>
    ensures { OnOk result (tables.new ≡ tables.old ++ spec.effect_tables n feed.now.driver) }
{
    if feed.driver.items().is_empty() {
        return Ok(());
    }
    tables.push(TableId::Effect(n))?;
    Ok(())
}

fn add_feed(tables: &mut List<TableId>, n: u32, feed: &FeedDef) -> Result<(), Memory>
    ensures { OnOk result (tables.new ≡ tables.old ++ (spec.sat_tables n feed.now.sub feed.now.attrs ++ TableId.Status n ∷ spec.effect_tables n feed.now.driver)) }
{
    add_sat(tables, n, feed)?;
    tables.push(TableId::Status(n))?;
    add_effect(tables, n, feed)
}

fn add_feeds(tables: &mut List<TableId>, feeds: &[FeedDef]) -> Result<(), Memory>
    requires { length feeds.now < 2 ^ 32 }
    ensures { OnOk result (tables.new ≡ tables.old ++ spec.feed_tables 0 feeds.now) }
{
    for (n, feed) in feeds.iter().enumerate() {
        add_feed(tables, n as u32, feed)?;
    }
    Ok(())
}

impl Catalog {
    /// The raw tables, in table order.
    pub fn tables(&self) -> Result<List<TableId>, Memory>
        ensures { IfOk result (λ tables. tables ≡ spec.tables self.now) }
    {
        let mut tables = List::new(self.allocator());
        add_hubs(&mut tables, self.hub_count())?;
        add_links(&mut tables, self.link_count())?;
        add_feeds(&mut tables, self.feeds())?;
        Ok(tables)
    }

    /// The name of a raw table: `hub_H`, `link_L`, `sat_F`, `msat_F`, `status_F` or `eff_F`.
    pub fn table_name(&self, table: TableId) -> Result<Text, Memory>
        requires { IsTrue (is_table_of self.now table) }
        ensures { IfOk result (λ name. name ≡ spec.table_name self.now table) }
    {
        let alloc = self.allocator();
        match table {
            TableId::Hub(n) => named(alloc, b"hub_", &self.hub(n).name),
            TableId::Link(n) => named(alloc, b"link_", &self.link(n).name),
            TableId::Sat(n) => named(alloc, b"sat_", &self.feed(n).name),
            TableId::Multi(n) => named(alloc, b"msat_", &self.feed(n).name),
            TableId::Status(n) => named(alloc, b"status_", &self.feed(n).name),
            TableId::Effect(n) => named(alloc, b"eff_", &self.feed(n).name),
        }
    }

    /// The raw table with a name; none exactly where no raw table has it.
    pub fn find_table(&self, name: &Text) -> Result<Option<TableId>, Memory>
        ensures { IfOk result (λ table. table ≡ table_named self.now name.now) }
    {
        let tables = self.tables()?;
        for table in tables.items() {
            if self.table_name(*table)? == *name {
                return Ok(Some(*table));
            }
        }
        Ok(None)
    }
}
