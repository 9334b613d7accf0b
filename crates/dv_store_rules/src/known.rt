use dv_catalog::Catalog;
use dv_hub_link::{HubTable, LinkTable};
use dv_text::WindowHead;

/// What was read of a store before a raw table: the mapping; the heads of the sealed windows, and behind them that of the
/// open one; the tables of hubs and of links that were read, each at the place of its hub or link; and what all tables
/// that were read weigh.
#[derive(Clone, Copy)]
pub struct Known<'a> {
    pub catalog: &'a Catalog,
    pub heads: &'a [WindowHead],
    pub hubs: &'a [HubTable],
    pub links: &'a [LinkTable],
    pub weight: u64,
}
