// The rules of form of the rows of links.
ghost use Rattle.std.specs.Prelude.{◌≡◌, ◌⊎◌, ◌+◌, ℕ, IfErr, IfOk, None, Some, map};
ghost use Rattle.std.specs.List.{list_all};
ghost use Rattle.std.specs.Str.{bytes_eq};
ghost use Rattle.dv_text.specs.Keys.{hashes_of};
ghost use Rattle.dv_catalog.specs.declared.entries.Parent.TheVariants as parents;
ghost use Rattle.dv_catalog.specs.declared.tables.TableId.TheVariants as tables;
ghost use Rattle.dv_catalog.specs.Feeds.{parent_hubs, source_by};
ghost use Rattle.dv_catalog.specs.Mappings.{has_number};
ghost use Rattle.dv_records.specs.Hubs.{link_cmp};
ghost use Rattle.dv_records.specs.Weights.{rows_weight};
ghost use Rattle.dv_records.specs.declared.stores.Rows.TheVariants as rows_of;
ghost use Rattle.dv_store_rules.specs.FormRules as spec;
ghost use Rattle.dv_store_rules.specs.KnownTables.{IsKnown};
ghost use Rattle.dv_store_rules.specs.OwnRules as own;
ghost use Rattle.dv_store_rules.specs.OwnRules.{first_stands, link_early, link_form, link_late, none_asked};
ghost use Rattle.dv_store_rules.specs.RowWalks.{TellsFlaw};
ghost use Rattle.dv_store_rules.specs.StoredRows.{flaw_in};

use crate::flaws::{Checked, Fault};
use crate::frames::Frame;
use crate::hashed::Hashed;
use crate::known::Known;
use crate::once::Once;
use crate::parents::is_in_hub;
use crate::row_checks::checked_turns;
use crate::row_walks::RowRules;
use crate::texts::is_digest;
use dv_catalog::Catalog;
use dv_digest::Room;
use dv_hub_link::{HubTable, LinkTable};
use dv_records::LinkRow;
use dv_text::{Digest, KeyDigest, List, Memory};
use std::cmp::Ordering;

// The rules of a link's rows: the places of its hubs, and the tables of hubs.
#[derive(Drop)]
struct LinkRules<'a> {
    tables: &'a [HubTable],
    hubs: &'a [u32],
    frame: Frame,
}

// Whether digests have the width.
fn are_digests(width: u8, digests: &[Digest]) -> bool
    ensures { result ≡ list_all (spec.is_digest width) digests.now }
{
    digests.iter().all(|digest| is_digest(width, digest))
}

// Whether a row has a digest of its own of the width and one for each of these hubs.
fn has_form(row: &LinkRow, width: u8, hubs: &[u32]) -> bool
    ensures { result ≡ link_form hubs.now width row.now }
{
    is_digest(width, &row.digest)
        && row.hubs.items().len() == hubs.len()
        && are_digests(width, row.hubs.items())
}

// Whether a digest is the zero key.
fn is_zero(d: &Digest, width: u8) -> bool
    requires { (width ≡ 16) ⊎ (width ≡ 32) }
    ensures { result ≡ bytes_eq d.now (spec.zero_key width) }
{
    *d == Digest::zero(width)
}

// Whether a reference is the zero key or in the hub's table.
fn is_named(tables: &[HubTable], width: u8, hub: u32, d: &Digest) -> bool
    requires { (width ≡ 16) ⊎ (width ≡ 32) }
    ensures { result ≡ own.is_named tables.now width (hub, d.now) }
{
    is_zero(d, width) || is_in_hub(tables, hub, d)
}

// Whether each reference is the zero key or in the table of its hub.
fn are_named(tables: &[HubTable], hubs: &[u32], width: u8, digests: &[Digest]) -> bool
    requires { (width ≡ 16) ⊎ (width ≡ 32) }
    ensures { result ≡ own.are_named tables.now hubs.now width digests.now }
{
    hubs.iter()
        .zip(digests)
        .all(|(hub, digest)| is_named(tables, width, *hub, digest))
}

impl<'a> RowRules<LinkRow> for LinkRules<'a> {
    ghost order = { link_cmp };

    ghost early = { λ rules width row behind. link_early rules.hubs.now rules.frame.loads width row behind };

    ghost hashed = { none_asked };

    ghost late = { λ rules width row. link_late rules.frame.sources rules.tables.now rules.hubs.now width row };

    ghost stands = { λ rules width row behind e. first_stands rules.frame.loads (link_form rules.hubs.now width row) row.load behind e };

    fn compared(&self, some: &LinkRow, other: &LinkRow) -> Ordering {
        some.digest.cmp(&other.digest)
    }

    fn early(&self, row: &LinkRow, behind: bool, width: u8) -> Option<u8> {
        let form = has_form(row, width, self.hubs);
        self.frame.early(form, row.load, behind)
    }

    fn hashed<'b>(&self, _row: &'b LinkRow) -> Hashed<'b> {
        Hashed::Nothing
    }

    fn late(&self, row: &LinkRow, width: u8) -> Option<u8> {
        if is_zero(&row.digest, width) {
            return Some(7);
        }
        if !self.frame.has_source(&row.source) {
            return Some(8);
        }
        if !are_named(self.tables, self.hubs, width, row.hubs.items()) {
            return Some(9);
        }
        None
    }
}

// The places of the hubs of a link; none past the last link.
fn hubs_of(catalog: &Catalog, link: u32) -> &[u32]
    ensures { result.now ≡ parent_hubs catalog.now (parents.Link link) }
{
    match catalog.links().get(link as usize) {
        Some(def) => def.hubs.items(),
        None => &[],
    }
}

// The rules of the rows of a link.
fn rules_of<'a>(known: &Known<'a>, link: u32) -> Result<LinkRules<'a>, Memory>
    ensures tables { IfOk result (λ rules. rules.tables.now ≡ known.now.hubs.now) }
    ensures hubs { IfOk result (λ rules. rules.hubs.now ≡ parent_hubs known.now.catalog.now (parents.Link link)) }
    ensures loads { IfOk result (λ rules. (load : ℕ) → has_number rules.frame.loads load ≡ spec.is_loaded known.now.heads.now load) }
    ensures sources { IfOk result (λ rules. rules.frame.sources ≡ map (λ feed. source_by (Some feed)) known.now.catalog.now.feeds) }
{
    let catalog = known.catalog;
    let hubs = hubs_of(catalog, link);
    let frame = Frame::of(catalog.allocator(), catalog, known.heads)?;
    Ok(LinkRules {
        tables: known.hubs,
        hubs,
        frame,
    })
}

/// The table of rows that a keeper gave for a link, and what all tables read so far weigh with it; or the first row
/// that breaks a rule of form, with the least number of a rule that it breaks. `known` is what was read before the
/// table, the tables of the link's hubs among it, and `digest` tells how wide hash keys are. A link that the mapping
/// hasn't has no hubs. Want of memory is `Fault::Memory`. One walk over the rows, with a look-up for each reference,
/// one building of their index and one walk over that.
pub fn checked_link<H: KeyDigest>(
    known: &Known<'_>,
    link: u32,
    rows: List<LinkRow>,
    digest: &H,
) -> Result<Checked<LinkTable>, Fault>
    ensures rows { IfOk result (λ made. made.table.rows ≡ rows) }
    ensures weight { IfOk result (λ made. made.weight ≡ known.now.weight + rows_weight (rows_of.Links rows)) }
    ensures clear { (read : spec.Known) → IsKnown (hashes_of H.function) H.function.width known.now read → IfOk result (λ made. flaw_in read (tables.Link link) (rows_of.Links rows) ≡ None) }
    ensures flawed { (read : spec.Known) → IsKnown (hashes_of H.function) H.function.width known.now read → IfErr result (λ fault. TellsFlaw fault (flaw_in read (tables.Link link) (rows_of.Links rows))) }
{
    let alloc = known.catalog.allocator();
    let rules = rules_of(known, link)?;
    let mut room = Room::new(alloc)?;
    let made = checked_turns(
        alloc,
        &rules,
        &Once,
        10,
        known.weight,
        rows,
        digest,
        &mut room,
    )?;
    Ok(Checked {
        table: LinkTable::from_indexed(made.table),
        weight: made.weight,
    })
}
