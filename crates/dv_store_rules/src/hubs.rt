// The rules of form of the rows of hubs.
ghost use Rattle.std.specs.Prelude.{◌≡◌, ◌+◌, ◌≤◌, ◌&&◌, ℕ, IfErr, IfOk, None, Some, map, slice_get};
ghost use Rattle.dv_text.specs.Keys.{hashes_of};
ghost use Rattle.dv_catalog.specs.declared.tables.TableId.TheVariants as tables;
ghost use Rattle.dv_catalog.specs.Feeds.{parts_of, source_by};
ghost use Rattle.dv_catalog.specs.Mappings.{has_number};
ghost use Rattle.dv_records.specs.Hubs.{hub_cmp};
ghost use Rattle.dv_records.specs.Weights.{rows_weight};
ghost use Rattle.dv_records.specs.declared.stores.Rows.TheVariants as rows_of;
ghost use Rattle.dv_store_rules.specs.FormRules as spec;
ghost use Rattle.dv_store_rules.specs.KnownTables.{IsKnown};
ghost use Rattle.dv_store_rules.specs.OwnRules.{first_stands, hub_early, hub_late};
ghost use Rattle.dv_store_rules.specs.RowWalks.{TellsFlaw};
ghost use Rattle.dv_store_rules.specs.StoredRows.{flaw_in};

use crate::flaws::{Checked, Fault};
use crate::frames::Frame;
use crate::hashed::Hashed;
use crate::known::Known;
use crate::once::Once;
use crate::row_checks::checked_turns;
use crate::row_walks::RowRules;
use crate::texts::{are_texts, is_digest};
use dv_digest::Room;
use dv_hub_link::{HubTable, part_count};
use dv_records::HubRow;
use dv_text::{KeyDigest, List, Memory};
use std::cmp::Ordering;

// The rules of a hub's rows: its keys have so many parts.
#[derive(Drop)]
struct HubRules {
    parts: u32,
    frame: Frame,
    ghost few: { parts ≤ 4 },
}

// Whether a row has a digest of the width and as many key parts as the hub says, none too long.
fn has_form(row: &HubRow, width: u8, parts: u32) -> bool
    ensures { result ≡ (spec.is_digest width row.now.digest && spec.are_texts parts row.now.key.parts) }
{
    is_digest(width, &row.digest) && are_texts(parts as usize, row.key.parts.items())
}

impl RowRules<HubRow> for HubRules {
    ghost order = { hub_cmp };

    ghost early = { λ rules width row behind. hub_early rules.parts rules.frame.loads width row behind };

    ghost hashed = { spec.has_key_hash };

    ghost late = { λ rules width row. hub_late rules.frame.sources width row };

    ghost stands = { λ rules width row behind e. first_stands rules.frame.loads (spec.is_digest width row.digest && spec.are_texts rules.parts row.key.parts) row.load behind e };

    fn compared(&self, some: &HubRow, other: &HubRow) -> Ordering {
        some.digest.cmp(&other.digest)
    }

    fn early(&self, row: &HubRow, behind: bool, width: u8) -> Option<u8> {
        let form = has_form(row, width, self.parts);
        self.frame.early(form, row.load, behind)
    }

    #[tactic(auto, using(crate::proofs::HubForms::key_fit))]
    fn hashed<'a>(&self, row: &'a HubRow) -> Hashed<'a> {
        Hashed::Key {
            digest: row.digest,
            key: &row.key,
        }
    }

    fn late(&self, row: &HubRow, _width: u8) -> Option<u8> {
        if self.frame.has_source(&row.source) {
            None
        } else {
            Some(8)
        }
    }
}

// The rules of the rows of a hub.
#[tactic(auto, using(crate::proofs::HubForms::hub_parts))]
fn rules_of(known: &Known<'_>, hub: u32) -> Result<HubRules, Memory>
    ensures parts { IfOk result (λ rules. rules.parts ≡ parts_of (slice_get known.now.catalog.now.hubs hub)) }
    ensures loads { IfOk result (λ rules. (load : ℕ) → has_number rules.frame.loads load ≡ spec.is_loaded known.now.heads.now load) }
    ensures sources { IfOk result (λ rules. rules.frame.sources ≡ map (λ feed. source_by (Some feed)) known.now.catalog.now.feeds) }
{
    let catalog = known.catalog;
    catalog.note_valid();
    let parts = part_count(catalog, hub);
    let frame = Frame::of(catalog.allocator(), catalog, known.heads)?;
    Ok(HubRules { parts, frame })
}

/// The table of rows that a keeper gave for a hub, and what all tables read so far weigh with it; or the first row that
/// breaks a rule of form, with the least number of a rule that it breaks. `known` is what was read before the table,
/// and `digest` the function that makes its hash keys. A hub that the mapping hasn't has keys without parts. Want of
/// memory is `Fault::Memory`. One walk over the rows, one building of their index and one walk over that.
pub fn checked_hub<H: KeyDigest>(
    known: &Known<'_>,
    hub: u32,
    rows: List<HubRow>,
    digest: &H,
) -> Result<Checked<HubTable>, Fault>
    ensures rows { IfOk result (λ made. made.table.rows ≡ rows) }
    ensures weight { IfOk result (λ made. made.weight ≡ known.now.weight + rows_weight (rows_of.Hubs rows)) }
    ensures clear { (read : spec.Known) → IsKnown (hashes_of H.function) H.function.width known.now read → IfOk result (λ made. flaw_in read (tables.Hub hub) (rows_of.Hubs rows) ≡ None) }
    ensures flawed { (read : spec.Known) → IsKnown (hashes_of H.function) H.function.width known.now read → IfErr result (λ fault. TellsFlaw fault (flaw_in read (tables.Hub hub) (rows_of.Hubs rows))) }
{
    let alloc = known.catalog.allocator();
    let rules = rules_of(known, hub)?;
    let mut room = Room::new(alloc)?;
    let made = checked_turns(
        alloc,
        &rules,
        &Once,
        10,
        known.weight,
        rows,
        digest,
        &mut room,
    )?;
    Ok(Checked {
        table: HubTable::from_indexed(made.table),
        weight: made.weight,
    })
}
