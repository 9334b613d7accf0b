// The rules of form of the rows of status tables.
ghost use Rattle.std.specs.Prelude.{◌≡◌, ◌+◌, IfErr, IfOk, None};
ghost use Rattle.dv_text.specs.Keys.{hashes_of};
ghost use Rattle.dv_catalog.specs.declared.tables.TableId.TheVariants as tables;
ghost use Rattle.dv_records.specs.Statuses.{status_cmp};
ghost use Rattle.dv_records.specs.Weights.{rows_weight};
ghost use Rattle.dv_records.specs.declared.stores.Rows.TheVariants as rows_of;
ghost use Rattle.dv_store_rules.specs.FormRules as spec;
ghost use Rattle.dv_store_rules.specs.KnownTables.{IsKnown, is_under};
ghost use Rattle.dv_store_rules.specs.OwnRules.{first_stands, none_asked, status_early, status_late, turns};
ghost use Rattle.dv_store_rules.specs.RowWalks.{TellsFlaw};
ghost use Rattle.dv_store_rules.specs.StoredRows.{flaw_in};

use crate::feeds::FeedFrame;
use crate::flaws::{Checked, Fault};
use crate::hashed::Hashed;
use crate::known::Known;
use crate::row_checks::checked_turns;
use crate::row_walks::RowRules;
use crate::texts::is_digest;
use dv_digest::Room;
use dv_index::Succession;
use dv_records::{Code, StatusRow};
use dv_text::{KeyDigest, List};
use dv_track::StatusTable;
use std::cmp::Ordering;

// The rules of the rows of a feed's status table.
#[derive(Drop)]
struct StatusRules<'a> {
    feed: FeedFrame<'a>,
}

impl<'a> RowRules<StatusRow> for StatusRules<'a> {
    ghost order = { status_cmp };

    ghost early = { λ rules width row behind. status_early rules.feed.frame.loads width row behind };

    ghost hashed = { none_asked };

    ghost late = { λ rules width row. status_late rules.feed.frame.sources (is_under rules.feed.known.hubs.now rules.feed.known.links.now rules.feed.parent) width row };

    ghost stands = { λ rules width row behind e. first_stands rules.feed.frame.loads (spec.is_digest width row.parent) row.load behind e };

    fn compared(&self, some: &StatusRow, other: &StatusRow) -> Ordering {
        some.parent.cmp(&other.parent)
    }

    fn early(&self, row: &StatusRow, behind: bool, width: u8) -> Option<u8> {
        let form = is_digest(width, &row.parent);
        self.feed.frame.early(form, row.load, behind)
    }

    fn hashed<'b>(&self, _row: &'b StatusRow) -> Hashed<'b> {
        Hashed::Nothing
    }

    fn late(&self, row: &StatusRow, _width: u8) -> Option<u8> {
        self.feed.late(&row.source, &row.parent)
    }
}

// A parent appears first, and then vanishes and appears by turns.
struct ByTurns;

impl Succession<StatusRow> for ByTurns {
    ghost fits = { λ by last row. turns last row };

    fn fits(&self, last: Option<&StatusRow>, row: &StatusRow) -> bool {
        match last {
            Some(last) => last.code != row.code,
            None => row.code == Code::I,
        }
    }
}

/// The status table of rows that a keeper gave for a feed, and what all tables read so far weigh with it; or the first
/// row that breaks a rule of form, with the least number of a rule that it breaks. `known` is what was read before the
/// table, that of the feed's hub or link among it, and `digest` tells how wide hash keys are. Want of memory is
/// `Fault::Memory`. One walk over the rows, with a look-up for each parent, one building of their index and two walks
/// over that.
pub fn checked_status<H: KeyDigest>(
    known: &Known<'_>,
    feed: u32,
    rows: List<StatusRow>,
    digest: &H,
) -> Result<Checked<StatusTable>, Fault>
    ensures rows { IfOk result (λ made. made.table.rows ≡ rows) }
    ensures weight { IfOk result (λ made. made.weight ≡ known.now.weight + rows_weight (rows_of.Statuses rows)) }
    ensures clear { (read : spec.Known) → IsKnown (hashes_of H.function) H.function.width known.now read → IfOk result (λ made. flaw_in read (tables.Status feed) (rows_of.Statuses rows) ≡ None) }
    ensures flawed { (read : spec.Known) → IsKnown (hashes_of H.function) H.function.width known.now read → IfErr result (λ fault. TellsFlaw fault (flaw_in read (tables.Status feed) (rows_of.Statuses rows))) }
{
    let alloc = known.catalog.allocator();
    let rules = StatusRules {
        feed: FeedFrame::of(known, feed)?,
    };
    let mut room = Room::new(alloc)?;
    let made = checked_turns(
        alloc,
        &rules,
        &ByTurns,
        11,
        known.weight,
        rows,
        digest,
        &mut room,
    )?;
    let table = StatusTable::from_indexed(made.table)?;
    Ok(Checked {
        table,
        weight: made.weight,
    })
}
