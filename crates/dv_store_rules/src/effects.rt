// The rules of form of the rows of effectivity tables.
ghost use Rattle.std.specs.Prelude.{◌≡◌, ◌+◌, ◌&&◌, ◌==◌, IfErr, IfOk, None};
ghost use Rattle.dv_text.specs.Keys.{hashes_of};
ghost use Rattle.dv_catalog.specs.declared.tables.TableId.TheVariants as tables;
ghost use Rattle.dv_records.specs.Effects.{effect_cmp};
ghost use Rattle.dv_records.specs.Weights.{rows_weight};
ghost use Rattle.dv_records.specs.declared.stores.Rows.TheVariants as rows_of;
ghost use Rattle.dv_store_rules.specs.FormRules as spec;
ghost use Rattle.dv_store_rules.specs.KnownTables.{IsKnown, is_under};
ghost use Rattle.dv_store_rules.specs.OwnRules.{effect_early, effect_late, first_stands, none_asked};
ghost use Rattle.dv_store_rules.specs.RowWalks.{TellsFlaw};
ghost use Rattle.dv_store_rules.specs.StoredRows.{flaw_in};

use crate::feeds::FeedFrame;
use crate::flaws::{Checked, Fault};
use crate::hashed::Hashed;
use crate::known::Known;
use crate::row_checks::checked_rows;
use crate::row_walks::RowRules;
use crate::texts::is_digest;
use dv_digest::Room;
use dv_records::EffectRow;
use dv_text::{KeyDigest, List, Stamp};
use dv_track::EffectTable;
use std::cmp::Ordering;

// The rules of the rows of a feed's effectivity table.
#[derive(Drop)]
struct EffectRules<'a> {
    feed: FeedFrame<'a>,
}

// Whether a row opens a run at its load date, or closes one that began earlier.
fn is_span(row: &EffectRow) -> bool
    ensures { result ≡ spec.is_span row.now }
{
    if row.begin == row.load {
        row.end == Stamp::OPEN
    } else {
        row.begin < row.load && row.end == row.load
    }
}

impl<'a> RowRules<EffectRow> for EffectRules<'a> {
    ghost order = { effect_cmp };

    ghost early = { λ rules width row behind. effect_early rules.feed.frame.loads width row behind };

    ghost hashed = { none_asked };

    ghost late = { λ rules width row. effect_late rules.feed.frame.sources (is_under rules.feed.known.hubs.now rules.feed.known.links.now rules.feed.parent) width row };

    ghost stands = { λ rules width row behind e. first_stands rules.feed.frame.loads (spec.is_digest width row.parent) row.load behind e };

    fn compared(&self, some: &EffectRow, other: &EffectRow) -> Ordering {
        some.parent.cmp(&other.parent)
    }

    fn early(&self, row: &EffectRow, behind: bool, width: u8) -> Option<u8> {
        let form = is_digest(width, &row.parent);
        self.feed.frame.early(form, row.load, behind)
    }

    fn hashed<'b>(&self, _row: &'b EffectRow) -> Hashed<'b> {
        Hashed::Nothing
    }

    fn late(&self, row: &EffectRow, _width: u8) -> Option<u8> {
        if let Some(rule) = self.feed.late(&row.source, &row.parent) {
            return Some(rule);
        }
        if is_span(row) { None } else { Some(12) }
    }
}

/// The effectivity table of rows that a keeper gave for a feed, and what all tables read so far weigh with it; or the
/// first row that breaks a rule of form, with the least number of a rule that it breaks. `known` is what was read
/// before the table, that of the feed's hub or link among it, and `digest` tells how wide hash keys are. Want of memory
/// is `Fault::Memory`. One walk over the rows, with a look-up for each parent, and one building of their index.
pub fn checked_effect<H: KeyDigest>(
    known: &Known<'_>,
    feed: u32,
    rows: List<EffectRow>,
    digest: &H,
) -> Result<Checked<EffectTable>, Fault>
    ensures rows { IfOk result (λ made. made.table.rows ≡ rows) }
    ensures weight { IfOk result (λ made. made.weight ≡ known.now.weight + rows_weight (rows_of.Effects rows)) }
    ensures clear { (read : spec.Known) → IsKnown (hashes_of H.function) H.function.width known.now read → IfOk result (λ made. flaw_in read (tables.Effect feed) (rows_of.Effects rows) ≡ None) }
    ensures flawed { (read : spec.Known) → IsKnown (hashes_of H.function) H.function.width known.now read → IfErr result (λ fault. TellsFlaw fault (flaw_in read (tables.Effect feed) (rows_of.Effects rows))) }
{
    let alloc = known.catalog.allocator();
    let rules = EffectRules {
        feed: FeedFrame::of(known, feed)?,
    };
    let mut room = Room::new(alloc)?;
    let made = checked_rows(alloc, &rules, known.weight, rows, digest, &mut room)?;
    let table = EffectTable::from_indexed(made.table)?;
    Ok(Checked {
        table,
        weight: made.weight,
    })
}
