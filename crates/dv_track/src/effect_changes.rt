// The effectivity rows with which runs begin and end.
ghost use Rattle.std.specs.Prelude.{◌≡◌, IfOk};
ghost use Rattle.std.specs.Option.{option_map};
ghost use Rattle.dv_records.specs.EffectPeriods.{opened_by};
ghost use Rattle.dv_records.specs.Effects as spec;
ghost use Rattle.dv_track.specs.EffectRows.{effect_between};

use dv_records::EffectRow;
use dv_text::{Digest, Duplicate, Memory, Stamp, Text};

// From when to when a reference list is in effect.
#[derive(Clone, Copy)]
struct Span {
    begin: Stamp,
    end: Stamp,
}

// The begin of a run, where a row opens it. Takes no memory.
pub(crate) fn opened(row: &EffectRow) -> Option<Stamp>
    ensures { result ≡ opened_by row.now }
{
    if row.begin == row.load {
        Some(row.begin)
    } else {
        None
    }
}

// The run that begins or ends with an extract: the reference list was in a run since a date, or wasn't, and is in
// the extract, or isn't.
fn span_between(load: Stamp, since: Option<Stamp>, now: bool) -> Option<Span>
    ensures { option_map (λ span. record { begin = span.begin; end = span.end }) result ≡ spec.span_between load since now }
{
    match (since, now) {
        (None, true) => Some(Span {
            begin: load,
            end: Stamp::OPEN,
        }),
        (Some(begin), false) => Some(Span { begin, end: load }),
        (Some(_), true) | (None, false) => None,
    }
}

/// The row of a parent that was in effect since a date, or wasn't, and is, or isn't.
pub(crate) fn effect_row(
    parent: &Digest,
    load: Stamp,
    source: &Text,
    since: Option<Stamp>,
    now: bool,
) -> Result<Option<EffectRow>, Memory>
    ensures { IfOk result (λ row. row ≡ effect_between source.now load parent.now since now) }
{
    let Some(span) = span_between(load, since, now) else {
        return Ok(None);
    };
    let source = source.copy()?;
    Ok(Some(EffectRow {
        parent: *parent,
        load,
        source,
        begin: span.begin,
        end: span.end,
    }))
}
