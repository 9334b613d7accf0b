// Rows in an order in which some may tie.
ghost use Rattle.std.specs.Prelude.{◌≡◌, IfOk};
ghost use Rattle.dv_text.specs.Sorting.{sorted_by};

use crate::mart_rows::{Period, PeriodRow};
use crate::raw_rows::{MultiRow, SatRow};
use dv_text::{List, Memory};
use std::cmp::Ordering;

/// A row that has its place among others of its kind.
pub trait Ranked: Drop {
    ghost use Rattle.std.specs.Cmp.{IsTotalOrder};
    ghost use Rattle.std.specs.declared.cmp.Ordering as orderings;

    ghost rank_cmp: { Self → Self → orderings.Ordering };

    /// The order of the rows. Takes no memory. Rows of a period mart have that of their references,
    /// then of their begins: `1`, `P` from 1 March, `1`, `P` from 3 March, `1`, `Q` from 2 March.
    fn compared(&self, other: &Self) -> Ordering
        ensures { result ≡ rank_cmp self.now other.now };

    ghost total: { IsTotalOrder rank_cmp };
}

impl Ranked for SatRow {
    ghost use Rattle.dv_records.specs.Ranks.{sat_total};
    ghost use Rattle.dv_records.specs.Satellites.{sat_cmp};

    ghost rank_cmp = { sat_cmp };

    fn compared(&self, other: &SatRow) -> Ordering {
        self.parent.cmp(&other.parent)
    }

    ghost total = { sat_total };
}

impl Ranked for MultiRow {
    ghost use Rattle.dv_records.specs.Satellites.{multi_cmp};
    ghost use Rattle.dv_records.specs.Ranks.{multi_total};

    ghost rank_cmp = { multi_cmp };

    fn compared(&self, other: &MultiRow) -> Ordering {
        self.parent
            .cmp(&other.parent)
            .then_with(|| self.sub.cmp(&other.sub))
    }

    ghost total = { multi_total };
}

impl Ranked for Period {
    ghost use Rattle.dv_records.specs.EffectPeriods.{parent_period_cmp};
    ghost use Rattle.dv_records.specs.Ranks.{parent_period_total};

    ghost rank_cmp = { parent_period_cmp };

    fn compared(&self, other: &Period) -> Ordering {
        self.parent
            .cmp(&other.parent)
            .then_with(|| self.begin.cmp(&other.begin))
    }

    ghost total = { parent_period_total };
}

impl Ranked for PeriodRow {
    ghost use Rattle.dv_records.specs.Marts.{period_cmp};
    ghost use Rattle.dv_records.specs.Ranks.{period_total};

    ghost rank_cmp = { period_cmp };

    fn compared(&self, other: &PeriodRow) -> Ordering {
        self.refs
            .cmp(&other.refs)
            .then_with(|| self.begin.cmp(&other.begin))
    }

    ghost total = { period_total };
}

/// The rows in their order; of those that tie, the first. In an order by length, `bb`, `aa` and `c`
/// give `c` and `bb`.
pub fn sorted_firsts<R: Ranked>(rows: Vec<R>) -> Result<List<R>, Memory>
    ensures { IfOk result (λ made. made ≡ sorted_by R.rank_cmp rows.items) }
{
    let mut rows = rows;
    rows.sort_by(|a, b| a.compared(b))?;
    rows.dedup_by(|later, kept| later.compared(kept).is_eq());
    Ok(List::from_vec(rows))
}
