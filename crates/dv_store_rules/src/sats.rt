// The rules of form of the rows of satellites.
ghost use Rattle.std.specs.Prelude.{◌≡◌, ◌+◌, ◌≤◌, IfErr, IfOk, None};
ghost use Rattle.dv_text.specs.Keys.{hashes_of};
ghost use Rattle.dv_catalog.specs.declared.tables.TableId.TheVariants as tables;
ghost use Rattle.dv_records.specs.Satellites.{sat_cmp};
ghost use Rattle.dv_records.specs.Weights.{rows_weight};
ghost use Rattle.dv_records.specs.declared.stores.Rows.TheVariants as rows_of;
ghost use Rattle.dv_store_rules.specs.FormRules as spec;
ghost use Rattle.dv_store_rules.specs.KnownTables.{IsKnown, is_under};
ghost use Rattle.dv_store_rules.specs.OwnRules.{first_stands, sat_early, sat_form, sat_hashed, sat_late};
ghost use Rattle.dv_store_rules.specs.RowWalks.{TellsFlaw};
ghost use Rattle.dv_store_rules.specs.StoredRows.{flaw_in};

use crate::feeds::{FeedFrame, attr_count};
use crate::flaws::{Checked, Fault};
use crate::hashed::Hashed;
use crate::known::Known;
use crate::row_checks::checked_rows;
use crate::row_walks::RowRules;
use crate::texts::{are_texts, is_digest};
use dv_digest::Room;
use dv_records::SatRow;
use dv_sat::SatTable;
use dv_text::{KeyDigest, List};
use std::cmp::Ordering;

// The rules of the rows of a feed's satellite: they have so many attributes.
#[derive(Drop)]
struct SatRules<'a> {
    attrs: usize,
    feed: FeedFrame<'a>,
    ghost few: { attrs ≤ 32 },
}

// Whether a row has two digests of the width and as many attributes as the feed, none too long.
fn has_form(row: &SatRow, width: u8, attrs: usize) -> bool
    ensures { result ≡ sat_form attrs width row.now }
{
    is_digest(width, &row.parent)
        && is_digest(width, &row.diff)
        && are_texts(attrs, row.attrs.items())
}

impl<'a> RowRules<SatRow> for SatRules<'a> {
    ghost order = { sat_cmp };

    ghost early = { λ rules width row behind. sat_early rules.attrs rules.feed.frame.loads width row behind };

    ghost hashed = { sat_hashed };

    ghost late = { λ rules width row. sat_late rules.feed.frame.sources (is_under rules.feed.known.hubs.now rules.feed.known.links.now rules.feed.parent) width row };

    ghost stands = { λ rules width row behind e. first_stands rules.feed.frame.loads (sat_form rules.attrs width row) row.load behind e };

    fn compared(&self, some: &SatRow, other: &SatRow) -> Ordering {
        some.parent.cmp(&other.parent)
    }

    fn early(&self, row: &SatRow, behind: bool, width: u8) -> Option<u8> {
        let form = has_form(row, width, self.attrs);
        self.feed.frame.early(form, row.load, behind)
    }

    #[tactic(auto, using(crate::proofs::SatForms::sat_fit))]
    fn hashed<'b>(&self, row: &'b SatRow) -> Hashed<'b> {
        Hashed::Diff {
            digest: row.diff,
            attrs: &row.attrs,
        }
    }

    fn late(&self, row: &SatRow, _width: u8) -> Option<u8> {
        self.feed.late(&row.source, &row.parent)
    }
}

/// The satellite of rows that a keeper gave for a feed, and what all tables read so far weigh with it; or the first row
/// that breaks a rule of form, with the least number of a rule that it breaks. `known` is what was read before the
/// table, that of the feed's hub or link among it, and `digest` the function that makes hash differences. Want of
/// memory is `Fault::Memory`. One walk over the rows, with a look-up for each parent, and one building of their index.
pub fn checked_sat<H: KeyDigest>(
    known: &Known<'_>,
    feed: u32,
    rows: List<SatRow>,
    digest: &H,
) -> Result<Checked<SatTable>, Fault>
    ensures rows { IfOk result (λ made. made.table.rows ≡ rows) }
    ensures weight { IfOk result (λ made. made.weight ≡ known.now.weight + rows_weight (rows_of.Sats rows)) }
    ensures clear { (read : spec.Known) → IsKnown (hashes_of H.function) H.function.width known.now read → IfOk result (λ made. flaw_in read (tables.Sat feed) (rows_of.Sats rows) ≡ None) }
    ensures flawed { (read : spec.Known) → IsKnown (hashes_of H.function) H.function.width known.now read → IfErr result (λ fault. TellsFlaw fault (flaw_in read (tables.Sat feed) (rows_of.Sats rows))) }
{
    let alloc = known.catalog.allocator();
    let rules = SatRules {
        attrs: attr_count(known.catalog, feed),
        feed: FeedFrame::of(known, feed)?,
    };
    let mut room = Room::new(alloc)?;
    let made = checked_rows(alloc, &rules, known.weight, rows, digest, &mut room)?;
    Ok(Checked {
        table: SatTable::from_indexed(made.table),
        weight: made.weight,
    })
}
