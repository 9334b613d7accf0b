// What rows weigh. A sum that doesn't fit ends at the largest number of 128 bits.
ghost use Rattle.std.specs.Prelude.{◌≡◌, ◌+◌, ◌-◌, ◌*◌, ◌^◌, ℕ, length, min, sum_by};
ghost use Rattle.dv_records.specs.Weights.{rows_weight, text_weight, texts_weight};

use crate::kinds::each_kind;
use crate::raw_rows::{EffectRow, HubRow, LinkRow, MultiRow, SatRow, StatusRow};
use crate::snapshots::{BridgeRow, PitRow};
use crate::stores::Rows;
use dv_text::Text;

// The weight of a row without its texts, and its further digests and cells.
const ROW: u128 = 128;

// The weight of a text without its bytes.
const TEXT: u128 = 16;

// The weight of a digest past a row's first.
const DIGEST: u128 = 32;

// The weight of a point-in-time cell.
const CELL: u128 = 16;

/// What has a weight of its own: a text, or a row.
pub trait Weighed {
    /// What it weighs.
    ghost weight_of: { Self → ℕ };

    /// What it weighs, or the largest number of 128 bits where that is more. Takes no memory. The
    /// text `abc` weighs 19.
    fn weight(&self) -> u128
        ensures { result ≡ min (weight_of self.now) (2 ^ 128 - 1) };
}

// What texts, or rows of one kind, weigh together.
fn total<T: Weighed>(items: &[T]) -> u128
    ensures { result ≡ min (sum_by T.weight_of items.now) (2 ^ 128 - 1) }
{
    let mut sum: u128 = 0;
    for item in items {
        sum = sum.saturating_add(item.weight());
    }
    sum
}

impl Weighed for Text {
    ghost weight_of = { text_weight };

    fn weight(&self) -> u128 {
        TEXT + self.bytes().len() as u128
    }
}

impl Weighed for HubRow {
    ghost weight_of = { λ row. 128 + text_weight row.source + texts_weight row.key.parts };

    fn weight(&self) -> u128 {
        ROW.saturating_add(self.source.weight())
            .saturating_add(total(self.key.parts.items()))
    }
}

impl Weighed for LinkRow {
    ghost weight_of = { λ row. 128 + text_weight row.source + 32 * length row.hubs };

    fn weight(&self) -> u128 {
        ROW.saturating_add(self.source.weight())
            .saturating_add(DIGEST * self.hubs.items().len() as u128)
    }
}

impl Weighed for SatRow {
    ghost weight_of = { λ row. 128 + text_weight row.source + 32 + texts_weight row.attrs };

    fn weight(&self) -> u128 {
        ROW.saturating_add(self.source.weight())
            .saturating_add(DIGEST)
            .saturating_add(total(self.attrs.items()))
    }
}

impl Weighed for MultiRow {
    ghost weight_of = { λ row. 128 + text_weight row.source + 32 + texts_weight row.sub + texts_weight row.attrs };

    fn weight(&self) -> u128 {
        ROW.saturating_add(self.source.weight())
            .saturating_add(DIGEST)
            .saturating_add(total(self.sub.items()))
            .saturating_add(total(self.attrs.items()))
    }
}

impl Weighed for StatusRow {
    ghost weight_of = { λ row. 128 + text_weight row.source };

    fn weight(&self) -> u128 {
        ROW.saturating_add(self.source.weight())
    }
}

impl Weighed for EffectRow {
    ghost weight_of = { λ row. 128 + text_weight row.source };

    fn weight(&self) -> u128 {
        ROW.saturating_add(self.source.weight())
    }
}

impl Weighed for PitRow {
    ghost weight_of = { λ row. 128 + 16 * length row.cells };

    fn weight(&self) -> u128 {
        ROW + CELL * self.cells.items().len() as u128
    }
}

impl Weighed for BridgeRow {
    ghost weight_of = { λ row. 128 + 32 * (length row.links + length row.hubs - 1) };

    fn weight(&self) -> u128 {
        let digests = self.links.items().len() as u128 + self.hubs.items().len() as u128;
        ROW + DIGEST * digests.saturating_sub(1)
    }
}

/// What rows weigh together, or the largest number of 128 bits where they weigh more. Takes no
/// memory. A hub's row of the key `1`, by the record source `crm.customers`, weighs 174.
pub fn weight(rows: &Rows) -> u128
    ensures { result ≡ min (rows_weight rows.now) (2 ^ 128 - 1) }
{
    each_kind!(rows, rows => total(rows.items()))
}
