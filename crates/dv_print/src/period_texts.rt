ghost use Rattle.std.specs.Prelude.{◌≡◌, IfOk};
ghost use Rattle.dv_print.specs.Texts as spec;

use crate::csv_texts::rows_text;
use crate::fields::Fields;
use crate::recorded::Recorded;
use dv_catalog::FeedDef;
use dv_records::PeriodRow;
use dv_text::{Memory, Text};
use std::alloc::Global;

impl Recorded for PeriodRow {
    ghost record_of = { spec.period_record };

    fn put(&self, fields: &mut Fields) -> Result<(), Memory> {
        fields.push_parts(self.refs.items())?;
        fields.push_stamp(self.begin)?;
        fields.push_stamp(self.end)
    }
}

// Key columns by the extract's column names, begin and end.
fn period_header(alloc: Global, feed: &FeedDef) -> Result<Fields, Memory>
    ensures { IfOk result (λ header. header ≡ spec.period_header feed.now) }
{
    let mut header = Fields::new(alloc);
    header.push_columns(feed.keys.items())?;
    header.push(b"begin")?;
    header.push(b"end")?;
    Ok(header)
}

/// The text of a feed's period mart with these rows: a header of the feed's key columns, begin and end, and a record
/// a row.
pub fn period_text(alloc: Global, feed: &FeedDef, rows: &[PeriodRow]) -> Result<Text, Memory>
    ensures { IfOk result (λ text. text ≡ spec.period_text feed.now rows.now) }
{
    rows_text(alloc, period_header(alloc, feed)?, rows)
}
