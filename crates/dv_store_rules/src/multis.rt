// The rules of form of the rows of multi-active satellites.
ghost use Rattle.std.specs.Prelude.{◌≡◌, ◌+◌, ◌≤◌, IfErr, IfOk, None};
ghost use Rattle.dv_text.specs.Keys.{hashes_of};
ghost use Rattle.dv_catalog.specs.declared.tables.TableId.TheVariants as tables;
ghost use Rattle.dv_records.specs.Satellites.{multi_cmp};
ghost use Rattle.dv_records.specs.Weights.{rows_weight};
ghost use Rattle.dv_records.specs.declared.stores.Rows.TheVariants as rows_of;
ghost use Rattle.dv_store_rules.specs.FormRules as spec;
ghost use Rattle.dv_store_rules.specs.KnownTables.{IsKnown, is_under};
ghost use Rattle.dv_store_rules.specs.OwnRules.{first_stands, multi_early, multi_form, multi_hashed, multi_late};
ghost use Rattle.dv_store_rules.specs.RowWalks.{TellsFlaw};
ghost use Rattle.dv_store_rules.specs.StoredRows.{flaw_in};

use crate::feeds::{FeedFrame, attr_count, sub_count};
use crate::flaws::{Checked, Fault};
use crate::hashed::Hashed;
use crate::known::Known;
use crate::row_checks::checked_rows;
use crate::row_walks::RowRules;
use crate::texts::{are_texts, is_digest};
use dv_digest::Room;
use dv_records::MultiRow;
use dv_sat::MultiTable;
use dv_text::{KeyDigest, List};
use std::cmp::Ordering;

// The rules of the rows of a feed's multi-active satellite: they have so many columns of the sub, and so many attributes.
#[derive(Drop)]
struct MultiRules<'a> {
    sub: usize,
    attrs: usize,
    feed: FeedFrame<'a>,
    ghost few: { attrs ≤ 32 },
}

// Whether a row has two digests of the width, and as many columns of the sub and attributes as the feed, none too long.
fn has_form(row: &MultiRow, width: u8, sub: usize, attrs: usize) -> bool
    ensures { result ≡ multi_form sub attrs width row.now }
{
    is_digest(width, &row.parent)
        && is_digest(width, &row.diff)
        && are_texts(sub, row.sub.items())
        && are_texts(attrs, row.attrs.items())
}

impl<'a> RowRules<MultiRow> for MultiRules<'a> {
    ghost order = { multi_cmp };

    ghost early = { λ rules width row behind. multi_early rules.sub rules.attrs rules.feed.frame.loads width row behind };

    ghost hashed = { multi_hashed };

    ghost late = { λ rules width row. multi_late rules.feed.frame.sources (is_under rules.feed.known.hubs.now rules.feed.known.links.now rules.feed.parent) width row };

    ghost stands = { λ rules width row behind e. first_stands rules.feed.frame.loads (multi_form rules.sub rules.attrs width row) row.load behind e };

    fn compared(&self, some: &MultiRow, other: &MultiRow) -> Ordering {
        some.parent
            .cmp(&other.parent)
            .then(some.sub.cmp(&other.sub))
    }

    fn early(&self, row: &MultiRow, behind: bool, width: u8) -> Option<u8> {
        let form = has_form(row, width, self.sub, self.attrs);
        self.feed.frame.early(form, row.load, behind)
    }

    #[tactic(auto, using(crate::proofs::MultiForms::multi_fit))]
    fn hashed<'b>(&self, row: &'b MultiRow) -> Hashed<'b> {
        Hashed::Diff {
            digest: row.diff,
            attrs: &row.attrs,
        }
    }

    fn late(&self, row: &MultiRow, _width: u8) -> Option<u8> {
        self.feed.late(&row.source, &row.parent)
    }
}

/// The multi-active satellite of rows that a keeper gave for a feed, and what all tables read so far weigh with it; or
/// the first row that breaks a rule of form, with the least number of a rule that it breaks. `known` is what was read
/// before the table, that of the feed's hub or link among it, and `digest` the function that makes hash differences.
/// Want of memory is `Fault::Memory`. One walk over the rows, with a look-up for each parent, and one building of their
/// index.
pub fn checked_multi<H: KeyDigest>(
    known: &Known<'_>,
    feed: u32,
    rows: List<MultiRow>,
    digest: &H,
) -> Result<Checked<MultiTable>, Fault>
    ensures rows { IfOk result (λ made. made.table.rows ≡ rows) }
    ensures weight { IfOk result (λ made. made.weight ≡ known.now.weight + rows_weight (rows_of.Multis rows)) }
    ensures clear { (read : spec.Known) → IsKnown (hashes_of H.function) H.function.width known.now read → IfOk result (λ made. flaw_in read (tables.Multi feed) (rows_of.Multis rows) ≡ None) }
    ensures flawed { (read : spec.Known) → IsKnown (hashes_of H.function) H.function.width known.now read → IfErr result (λ fault. TellsFlaw fault (flaw_in read (tables.Multi feed) (rows_of.Multis rows))) }
{
    let alloc = known.catalog.allocator();
    let rules = MultiRules {
        sub: sub_count(known.catalog, feed),
        attrs: attr_count(known.catalog, feed),
        feed: FeedFrame::of(known, feed)?,
    };
    let mut room = Room::new(alloc)?;
    let made = checked_rows(alloc, &rules, known.weight, rows, digest, &mut room)?;
    Ok(Checked {
        table: MultiTable::from_indexed(made.table),
        weight: made.weight,
    })
}
