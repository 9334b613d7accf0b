// Rows with an index, or the first row that breaks a rule.
ghost use Rattle.std.specs.Prelude.{◌≡◌, ◌<◌, ◌+◌, ◌^◌, IfErr, IfNone, IfOk, IfSome, IsTrue, length, sum_by, take};
ghost use Rattle.dv_text.specs.Keys.{hashes_of};
ghost use Rattle.dv_index.specs.Places.{are_in_load_order};
ghost use Rattle.dv_store_rules.specs.Flaws.{first_flaw};
ghost use Rattle.dv_store_rules.specs.RowWalks.{AreClear, IsFirst, TellsFlaw, own_of, plain_rule, turn_rule, turning_rule};

use crate::flaws::{Checked, Fault, Flaw};
use crate::row_walks::{RowRules, Walked, walk};
use dv_digest::Room;
use dv_index::{IndexedRows, Placed, Succession};
use dv_records::Weighed;
use dv_text::{KeyDigest, List, Memory};
use std::alloc::Global;

// The number of the rule of the weight.
const WEIGHT: u8 = 13;

// The row at a place, from 0, as one that breaks the rule of this number.
fn flaw_at(place: usize, rule: u8) -> Flaw
    requires { place + 1 < 2 ^ 64 }
    ensures { result ≡ record { row = place + 1; rule = rule } }
{
    Flaw {
        row: place as u64 + 1,
        rule,
    }
}

// So many first rows.
fn first_rows<R: Placed>(rows: List<R>, count: usize) -> Result<List<R>, Memory>
    ensures { IfOk result (λ made. made ≡ take count rows) }
{
    let mut rows = rows.into_vec()?;
    rows.truncate(count);
    Ok(List::from_vec(rows))
}

// The first row that doesn't fit the last row of its parent before it, as one that breaks the rule of this number.
fn first_turn<R: Placed, S: Succession<R>>(
    rows: &IndexedRows<R>,
    turns: &S,
    rule: u8,
) -> Option<Flaw>
    ensures none { IfNone result (AreClear (turn_rule R.place (S.fits turns.now) rule) rows.now.rows (length rows.now.rows)) }
    ensures some { IfSome result (IsFirst (turn_rule R.place (S.fits turns.now) rule) rows.now.rows) }
{
    let count = rows.fit_count(turns);
    if count < rows.rows().len() {
        Some(flaw_at(count, rule))
    } else {
        None
    }
}

// The same among so many first rows.
fn turn_among<R: Placed, S: Succession<R>>(
    alloc: Global,
    rows: List<R>,
    count: usize,
    turns: &S,
    rule: u8,
) -> Result<Option<Flaw>, Memory>
    requires { IsTrue (are_in_load_order R.place (take count rows)) }
    ensures none { IfOk result (λ found. IfNone found (AreClear (turn_rule R.place (S.fits turns.now) rule) (take count rows) (length (take count rows)))) }
    ensures some { IfOk result (λ found. IfSome found (IsFirst (turn_rule R.place (S.fits turns.now) rule) (take count rows))) }
{
    let rows = first_rows(rows, count)?;
    let indexed = IndexedRows::from_rows(alloc, rows)?;
    Ok(first_turn(&indexed, turns, rule))
}

/// Rows with their index, and their weight with that of what was read before; or the first row that breaks a rule: one
/// of these rules, or the rule of this number, where it doesn't fit the last row of its parent before it, or that of the
/// weight. A walk over the rows, one building of an index, and a walk over that.
pub(crate) fn checked_turns<R: Placed + Weighed, T: RowRules<R>, S: Succession<R>, H: KeyDigest>(
    alloc: Global,
    rules: &T,
    turns: &S,
    rule: u8,
    weight: u64,
    rows: List<R>,
    digest: &H,
    room: &mut Room,
) -> Result<Checked<IndexedRows<R>>, Fault>
    ensures rows { IfOk result (λ made. made.table.rows ≡ rows) }
    ensures weight { IfOk result (λ made. made.weight ≡ weight + sum_by R.weight_of rows) }
    ensures clear { IfOk result (λ made. AreClear (turning_rule R.place T.order (own_of (T.early rules.now) T.hashed (T.late rules.now) (hashes_of H.function) H.function.width) (S.fits turns.now) rule R.weight_of weight) rows (length rows)) }
    ensures flawed { IfErr result (λ fault. TellsFlaw fault (first_flaw (turning_rule R.place T.order (own_of (T.early rules.now) T.hashed (T.late rules.now) (hashes_of H.function) H.function.width) (S.fits turns.now) rule R.weight_of weight) rows)) }
{
    match walk(rules, rows.items(), weight, digest, room) {
        Walked::Whole { weight } => {
            let table = IndexedRows::from_rows(alloc, rows)?;
            match first_turn(&table, turns, rule) {
                None => Ok(Checked { table, weight }),
                Some(flaw) => Err(Fault::Flawed(flaw)),
            }
        }
        Walked::Broken { place, rule: own } => {
            let turn = turn_among(alloc, rows, place, turns, rule)?;
            Err(Fault::Flawed(turn.unwrap_or(flaw_at(place, own))))
        }
        Walked::Heavy { place } => {
            let turn = turn_among(alloc, rows, place + 1, turns, rule)?;
            Err(Fault::Flawed(turn.unwrap_or(flaw_at(place, WEIGHT))))
        }
    }
}

/// The same of rows that have no rule of turns: a walk over the rows and one building of an index.
pub(crate) fn checked_rows<R: Placed + Weighed, T: RowRules<R>, H: KeyDigest>(
    alloc: Global,
    rules: &T,
    weight: u64,
    rows: List<R>,
    digest: &H,
    room: &mut Room,
) -> Result<Checked<IndexedRows<R>>, Fault>
    ensures rows { IfOk result (λ made. made.table.rows ≡ rows) }
    ensures weight { IfOk result (λ made. made.weight ≡ weight + sum_by R.weight_of rows) }
    ensures clear { IfOk result (λ made. AreClear (plain_rule R.place T.order (own_of (T.early rules.now) T.hashed (T.late rules.now) (hashes_of H.function) H.function.width) R.weight_of weight) rows (length rows)) }
    ensures flawed { IfErr result (λ fault. TellsFlaw fault (first_flaw (plain_rule R.place T.order (own_of (T.early rules.now) T.hashed (T.late rules.now) (hashes_of H.function) H.function.width) R.weight_of weight) rows)) }
{
    match walk(rules, rows.items(), weight, digest, room) {
        Walked::Whole { weight } => {
            let table = IndexedRows::from_rows(alloc, rows)?;
            Ok(Checked { table, weight })
        }
        Walked::Broken { place, rule } => Err(Fault::Flawed(flaw_at(place, rule))),
        Walked::Heavy { place } => Err(Fault::Flawed(flaw_at(place, WEIGHT))),
    }
}
