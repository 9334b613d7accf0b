// The periods that effectivity rows tell.
ghost use Rattle.std.specs.Prelude.{◌≡◌, IfOk, filter, map, nat_le};
ghost use Rattle.dv_records.specs.EffectPeriods as spec;

use dv_records::{EffectRow, Period};
use dv_text::{Memory, Stamp};
use std::alloc::Global;

fn period(row: &EffectRow) -> Period
    ensures { result ≡ spec.period_in row.now }
{
    Period {
        parent: row.parent,
        begin: row.begin,
        end: row.end,
    }
}

/// What the rows tell that are not later than a date, in their order.
pub(crate) fn told(alloc: Global, rows: &[EffectRow], date: Stamp) -> Result<Vec<Period>, Memory>
    ensures { IfOk result (λ made. made.items ≡ map spec.period_in (filter (λ row. nat_le row.load date) rows.now)) }
{
    let mut made = Vec::new(alloc);
    for row in rows {
        if row.load <= date {
            made.push(period(row))?;
        }
    }
    Ok(made)
}
