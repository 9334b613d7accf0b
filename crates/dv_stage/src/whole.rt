// An extract that breaks no rule, read without the names of its rows: those of one name that differ stand
// beside each other once the rows are in order.
ghost use Rattle.std.specs.Prelude.{◌≡◌, ◌≤◌, [], IfOk, IfSome, IsTrue, None, length, map};
ghost use Rattle.csv.specs.Records.{fields_of};
ghost use Rattle.dv_catalog.specs.Extracts.{extract_records};
ghost use Rattle.dv_catalog.specs.Limits.{most_records};
ghost use Rattle.dv_catalog.specs.Readings.{behind_header, records_read};
ghost use Rattle.dv_catalog.specs.Readings.Read.{Taken};
ghost use Rattle.dv_catalog.specs.Records.{records_rule, row_of};
ghost use Rattle.dv_stage.specs.Checks as checks;
ghost use Rattle.dv_stage.specs.Layouts.{IsHeader};
ghost use Rattle.dv_stage.specs.Remaining.{IsExtractReader, records_left};
ghost use Rattle.dv_stage.specs.Rivals as spec;

use crate::faults::StageFault;
use crate::headers::{header_names, header_rule};
use crate::layouts::{Header, layout_of};
use crate::partners::two_drivers;
use crate::readings::checked_row;
use crate::records::{extract_reader, next_row};
use crate::stages::TakenExtract;
use csv::{ByteRecord, Reader};
use dv_catalog::{FeedDef, Rule};
use dv_text::{Memory, NRow, sorted_by_prefix};
use std::alloc::Global;

fn is_of_one_name(before: &NRow, row: &NRow) -> bool
    ensures { result ≡ spec.is_named (spec.name_of before.now) row.now }
{
    row.refs == before.refs && row.sub == before.sub
}

// Whether a row has the name of the one before it.
#[tactic(auto, using(crate::proofs::Neighbouring::neighbour_end))]
fn repeats_name(rows: &[NRow]) -> bool
    ensures { result ≡ spec.repeats_name rows.now }
{
    for i in 1..rows.len() {
        let before = &rows[i - 1];
        let row = &rows[i];
        if is_of_one_name(before, row) {
            return true;
        }
    }
    false
}

// The row of a record, where it breaks no rule by itself.
fn whole_row(
    alloc: Global,
    header: &Header,
    row_no: u32,
    row: &ByteRecord,
) -> Result<Option<NRow>, Memory>
    requires { IsHeader header.now }
    ensures row { IfOk result (λ found. IfSome found (λ made. made ≡ row_of header.now.feed.now header.now.names (fields_of row.now))) }
    ensures ok { IfOk result (λ found. IfSome found (λ made. checks.own_rule header.now.feed.now header.now.names row_no (fields_of row.now) ≡ None)) }
{
    match checked_row(alloc, header, row_no, row) {
        Ok(made) => Ok(Some(made)),
        Err(StageFault::Broken(_)) => Ok(None),
        Err(StageFault::Memory) => Err(Memory),
    }
}

// The rows of the records behind a header, where there is room for them and none breaks a rule by itself.
fn whole_rows(
    alloc: Global,
    header: &Header,
    room: u32,
    reader: &mut Reader<&[u8]>,
    row: &mut ByteRecord,
) -> Result<Option<Vec<NRow>>, Memory>
    requires header { IsHeader header.now }
    requires reader { IsExtractReader reader.old }
    requires room { room ≤ most_records }
    ensures ok { IfOk result (λ found. IfSome found (λ rows. spec.HasNoRivals rows.items → records_rule header.now.feed.now header.now.names room 1 [] (records_left reader.old) ≡ None)) }
    ensures rows { IfOk result (λ found. IfSome found (λ rows. rows.items ≡ map (row_of header.now.feed.now header.now.names) (records_left reader.old))) }
    ensures few { IfOk result (λ found. IfSome found (λ rows. length rows.items ≤ room)) }
{
    let mut rows = Vec::new(alloc);
    for row_no in 1..room + 2 {
        if !next_row(reader, row)? {
            return Ok(Some(rows));
        }
        let Some(made) = whole_row(alloc, header, row_no, row)? else {
            return Ok(None);
        };
        rows.push(made)?;
    }
    Ok(None)
}

// Whether a rule is kept, of the answer of a test for it.
fn is_kept(broken: Option<Rule>) -> bool
    ensures { IsTrue result → broken ≡ None }
{
    broken.is_none()
}

// What the records behind a header read as, where no rule is broken.
fn whole_behind(
    alloc: Global,
    feed: &FeedDef,
    room: u32,
    reader: &mut Reader<&[u8]>,
    row: &mut ByteRecord,
) -> Result<Option<TakenExtract>, Memory>
    requires reader { IsExtractReader reader.old }
    requires room { room ≤ most_records }
    ensures { IfOk result (λ found. IfSome found (λ taken. behind_header feed.now room (fields_of row.old) (records_left reader.old) ≡ Taken taken.rows taken.count)) }
{
    let names = header_names(alloc, row)?;
    if !is_kept(header_rule(alloc, feed, row, names.items())?) {
        return Ok(None);
    }
    let layout = layout_of(alloc, feed, names.items())?;
    let header = Header {
        feed,
        names,
        layout,
    };
    let Some(rows) = whole_rows(alloc, &header, room, reader, row)? else {
        return Ok(None);
    };
    if !is_kept(two_drivers(alloc, feed, rows.as_slice())?) {
        return Ok(None);
    }
    let count = rows.len() as u32;
    let rows = sorted_by_prefix(rows)?;
    if repeats_name(rows.items()) {
        return Ok(None);
    }
    Ok(Some(TakenExtract { rows, count }))
}

// What an extract reads as for a feed, where it breaks no rule; none where it may break one.
pub(crate) fn whole_extract(
    alloc: Global,
    feed: &FeedDef,
    bytes: &[u8],
    room: u32,
) -> Result<Option<TakenExtract>, Memory>
    requires { room ≤ most_records }
    ensures { IfOk result (λ found. IfSome found (λ taken. records_read feed.now room (extract_records bytes.now) ≡ Taken taken.rows taken.count)) }
{
    let mut reader = extract_reader(alloc, bytes);
    let mut row = ByteRecord::new(alloc);
    if !next_row(&mut reader, &mut row)? {
        return Ok(None);
    }
    whole_behind(alloc, feed, room, &mut reader, &mut row)
}
