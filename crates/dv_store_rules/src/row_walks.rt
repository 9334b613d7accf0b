// A walk over the rows of a table, up to the first that breaks a rule by itself or weighs too much.
ghost use Rattle.std.specs.Prelude.{◌≡◌, ◌⊎◌, ◌<◌, ◌+◌, ℕ, Bool, IsTrue, Option, None, Some, if◌then◌else◌, nat_le, true};
ghost use Rattle.std.specs.declared.cmp.Ordering.{Ordering};
ghost use Rattle.dv_text.specs.Keys.{Hashes, hashes_of};
ghost use Rattle.dv_records.specs.Limits.{most_weight};
ghost use Rattle.dv_store_rules.specs.FormRules as spec;
ghost use Rattle.dv_store_rules.specs.RowWalks.{IsWalked, hashed_fits, is_hashed, own_of};

use crate::hashed::{Hashed, is_hashed};
use dv_digest::Room;
use dv_index::Placed;
use dv_records::Weighed;
use dv_text::KeyDigest;
use dv_window_rules::MOST_WEIGHT;
use std::cmp::Ordering;

// The number of the rule of hashes.
const HASH: u8 = 7;

/// The rules of one kind of rows, each for a row by itself.
pub(crate) trait RowRules<R: Placed + Weighed> {
    /// The order of the rows of one load date.
    ghost order: { R → R → Ordering };

    /// The first rule by number that a row breaks of F4 to F6, by the width of digests, where it is known whether the
    /// row stands behind the one before it.
    ghost early: { Self → ℕ → R → Bool → Option ℕ };

    /// Whether the hash that stands in a row is what it has to be, by the hashes.
    ghost hashed: { Hashes → R → Bool };

    /// The first rule by number that a row breaks of those behind that of its hash, up to that of the turns, by the
    /// width of digests.
    ghost late: { Self → ℕ → R → Option ℕ };

    /// The order of the rows of one load date. Takes no memory.
    fn compared(&self, some: &R, other: &R) -> Ordering
        ensures { result ≡ order some.now other.now };

    /// The first of the rules F4 to F6 that a row breaks; none where it breaks none. Takes no memory.
    fn early(&self, row: &R, behind: bool, width: u8) -> Option<u8>
        ensures { result ≡ early self.now width row.now behind };

    /// The hash that stands in a row, and what it has to be the hash of, which fits a room where the row breaks none of
    /// the rules before. Takes no memory.
    fn hashed<'a>(&self, row: &'a R) -> Hashed<'a>
        ensures value { (hashes : Hashes) → is_hashed hashes result ≡ hashed hashes row.now }
        ensures fits { (width : ℕ) (behind : Bool) → early self.now width row.now behind ≡ None → IsTrue (hashed_fits result) };

    /// The first of the rules behind that of the hash that a row breaks; none where it breaks none. Condition: digests
    /// have 16 or 32 bytes. Takes no memory.
    fn late(&self, row: &R, width: u8) -> Option<u8>
        requires { (width ≡ 16) ⊎ (width ≡ 32) }
        ensures { result ≡ late self.now width row.now };

    ghost stands: { (rules : Self) (width : ℕ) (row : R) (behind : Bool) → early rules width row behind ≡ None → behind ≡ true };
}

/// How far a walk over rows came: over all, with the weight of these and of what was read before; up to the row at a
/// place, from 0, that breaks a rule by itself; or up to one with which the weight is too much.
#[derive(Clone, Copy)]
pub(crate) enum Walked {
    Whole { weight: u64 },
    Broken { place: usize, rule: u8 },
    Heavy { place: usize },
}

// Whether a row stands behind another one.
fn is_behind<R: Placed + Weighed, T: RowRules<R>>(rules: &T, other: &R, row: &R) -> bool
    ensures { result ≡ spec.is_behind (λ row. (R.place row).load) T.order other.now row.now }
{
    other
        .load()
        .cmp(&row.load())
        .then(rules.compared(other, row))
        .is_lt()
}

// Whether a row stands behind the last of others, if there is one.
fn follows<R: Placed + Weighed, T: RowRules<R>>(rules: &T, before: &[R], row: &R) -> bool
    ensures { result ≡ spec.follows (λ row. (R.place row).load) T.order before.now row.now }
{
    match before.last() {
        Some(last) => is_behind(rules, last, row),
        None => true,
    }
}

// A weight with that of a row; none where that is too much.
fn added<R: Weighed>(weight: u64, row: &R) -> Option<u64>
    ensures { result ≡ if nat_le (weight + R.weight_of row.now) most_weight then Some (weight + R.weight_of row.now) else None }
{
    let sum = u128::from(weight).saturating_add(row.weight());
    if sum <= MOST_WEIGHT {
        Some(sum as u64)
    } else {
        None
    }
}

// The first rule by number that a row breaks by itself; none where it breaks none.
fn own_rule<R: Placed + Weighed, T: RowRules<R>, H: KeyDigest>(
    rules: &T,
    row: &R,
    behind: bool,
    digest: &H,
    room: &mut Room,
) -> Option<u8>
    ensures { result ≡ own_of (T.early rules.now) T.hashed (T.late rules.now) (hashes_of H.function) H.function.width row.now behind }
{
    let width = digest.width();
    if let Some(rule) = rules.early(row, behind, width) {
        return Some(rule);
    }
    if !is_hashed(rules.hashed(row), digest, room) {
        return Some(HASH);
    }
    rules.late(row, width)
}

/// Walks over rows, where what was read before them weighs so much. Takes no memory.
pub(crate) fn walk<R: Placed + Weighed, T: RowRules<R>, H: KeyDigest>(
    rules: &T,
    rows: &[R],
    weight: u64,
    digest: &H,
    room: &mut Room,
) -> Walked
    ensures { IsWalked R.place T.order (own_of (T.early rules.now) T.hashed (T.late rules.now) (hashes_of H.function) H.function.width) R.weight_of weight rows.now result }
{
    let mut sum = weight;
    for place in 0..rows.len() {
        let row = &rows[place];
        let behind = follows(rules, &rows[..place], row);
        if let Some(rule) = own_rule(rules, row, behind, digest, room) {
            return Walked::Broken { place, rule };
        }
        let Some(more) = added(sum, row) else {
            return Walked::Heavy { place };
        };
        sum = more;
    }
    Walked::Whole { weight: sum }
}
