// The hash keys that rows point to.
ghost use Rattle.std.specs.Prelude.{◌≡◌};
ghost use Rattle.std.specs.List.{list_any};
ghost use Rattle.std.specs.Str.{bytes_eq};
ghost use Rattle.dv_store_rules.specs.KnownTables as spec;
ghost use Rattle.dv_store_rules.specs.KnownTables.{rows_at};

use crate::known::Known;
use dv_catalog::Parent;
use dv_hub_link::{HubTable, LinkTable};
use dv_text::Digest;

/// Whether a digest is the hash key of a row of the hub at a place; of none past the last hub. Takes no memory.
pub(crate) fn is_in_hub(hubs: &[HubTable], hub: u32, d: &Digest) -> bool
    ensures { result ≡ list_any (λ row. bytes_eq row.digest d.now) (rows_at hubs.now hub) }
{
    match hubs.get(hub as usize) {
        Some(table) => table.has(d),
        None => false,
    }
}

// Whether a digest is the hash key of a row of the link at a place; of none past the last link.
fn is_in_link(links: &[LinkTable], link: u32, d: &Digest) -> bool
    ensures { result ≡ list_any (λ row. bytes_eq row.digest d.now) (rows_at links.now link) }
{
    match links.get(link as usize) {
        Some(table) => table.has(d),
        None => false,
    }
}

/// Whether a digest is the hash key of a row of a parent's table; of none where there is no parent. Takes no memory.
pub(crate) fn is_under(known: &Known<'_>, parent: Option<Parent>, d: &Digest) -> bool
    ensures { result ≡ spec.is_under known.now.hubs.now known.now.links.now parent d.now }
{
    match parent {
        Some(Parent::Hub(hub)) => is_in_hub(known.hubs, hub, d),
        Some(Parent::Link(link)) => is_in_link(known.links, link, d),
        None => false,
    }
}
