ghost use Rattle.std.specs.Prelude.{◌≡◌, ◌<◌, ◌≤◌, IfOk, IfErr, Some, length};
ghost use Rattle.csv.specs.Records.{fields_of};
ghost use Rattle.dv_catalog.specs.Extracts.{extract_records};
ghost use Rattle.dv_catalog.specs.Limits.{most_records};
ghost use Rattle.dv_catalog.specs.Readings.{behind_header, records_read, reads};
ghost use Rattle.dv_catalog.specs.Readings.Read.{Taken};
ghost use Rattle.dv_stage.specs.Faults.{TellsRead};
ghost use Rattle.dv_stage.specs.Remaining.{IsExtractReader, records_left};

use crate::faults::StageFault;
use crate::headers::{header_names, header_rule};
use crate::layouts::{Header, layout_of};
use crate::partners::two_drivers;
use crate::readings::read_rows;
use crate::records::{extract_reader, next_row};
use crate::whole::whole_extract;
use csv::{ByteRecord, Reader};
use dv_catalog::{Catalog, FeedDef, Rule};
use dv_text::{Duplicate, List, NRow, Staged, sorted_by_prefix};
use std::alloc::Global;

/// An extract that was staged: its rows, which ascend and are distinct, and how many records they were
/// taken from.
#[derive(Debug, PartialEq, Eq, Drop)]
pub struct Staged2 {
    pub staged: Staged,
    pub taken: u32,
}

// The rows of an extract, and how many records it has.
#[derive(Debug, PartialEq, Eq, Drop)]
pub(crate) struct TakenExtract {
    pub(crate) rows: List<NRow>,
    pub(crate) count: u32,
}

// What the records behind a header read as.
fn read_behind(
    alloc: Global,
    feed: &FeedDef,
    room: u32,
    reader: &mut Reader<&[u8]>,
    row: &mut ByteRecord,
) -> Result<TakenExtract, StageFault>
    requires reader { IsExtractReader reader.old }
    requires room { room ≤ most_records }
    ensures ok { IfOk result (λ taken. behind_header feed.now room (fields_of row.old) (records_left reader.old) ≡ Taken taken.rows taken.count) }
    ensures broken { IfErr result (λ e. TellsRead e (behind_header feed.now room (fields_of row.old) (records_left reader.old))) }
{
    let names = header_names(alloc, row)?;
    if let Some(rule) = header_rule(alloc, feed, row, names.items())? {
        return Err(StageFault::Broken(rule));
    }
    let layout = layout_of(alloc, feed, names.items())?;
    let header = Header {
        feed,
        names,
        layout,
    };
    let rows = read_rows(alloc, &header, room, reader, row)?;
    if let Some(rule) = two_drivers(alloc, feed, rows.as_slice())? {
        return Err(StageFault::Broken(rule));
    }
    let count = rows.len() as u32;
    let rows = sorted_by_prefix(rows)?;
    Ok(TakenExtract { rows, count })
}

// What an extract reads as for a feed.
pub(crate) fn read_extract(
    alloc: Global,
    feed: &FeedDef,
    bytes: &[u8],
    room: u32,
) -> Result<TakenExtract, StageFault>
    requires { room ≤ most_records }
    ensures ok { IfOk result (λ taken. records_read feed.now room (extract_records bytes.now) ≡ Taken taken.rows taken.count) }
    ensures broken { IfErr result (λ e. TellsRead e (records_read feed.now room (extract_records bytes.now))) }
{
    if let Some(taken) = whole_extract(alloc, feed, bytes, room)? {
        return Ok(taken);
    }
    // An extract that may break a rule is read again, record by record, to name the first one.
    let mut reader = extract_reader(alloc, bytes);
    let mut row = ByteRecord::new(alloc);
    if !next_row(&mut reader, &mut row)? {
        let feed = feed.name.copy()?;
        return Err(StageFault::Broken(Rule::NoHeader { feed }));
    }
    read_behind(alloc, feed, room, &mut reader, &mut row)
}

/// Stages the extract of a feed, by the feed's place in the mapping. `room` is how many records it may have.
/// The bytes are CSV (RFC 4180), with a header. Answers the distinct rows in order and the number of records
/// behind the header, or the first rule that the extract breaks: W7 to W11 of its header, then W12 to W17
/// record by record, then W18.
///
/// For a feed with the key column `CUST_NO` and the attribute `NAME`,
/// `CUST_NO,NAME\n k1 ,n\nK1,n\n` stages as one row, of the key `K1` and the attribute `n`, taken
/// from 2 records. With `K1,m` as its second record it breaks the rule `TwoRows`, by the records 1
/// and 2.
pub fn stage(
    alloc: Global,
    catalog: &Catalog,
    feed: u32,
    bytes: &[u8],
    room: u32,
) -> Result<Staged2, StageFault>
    requires place { feed < length catalog.now.feeds }
    requires room { room ≤ most_records }
    ensures ok { IfOk result (λ s. (s.staged.feed ≡ feed) × (reads catalog.now feed bytes.now room ≡ Taken s.staged.rows s.taken)) }
    ensures broken { IfErr result (λ e. TellsRead e (reads catalog.now feed bytes.now room)) }
{
    let taken = read_extract(alloc, catalog.feed(feed), bytes, room)?;
    let TakenExtract { rows, count } = taken;
    Ok(Staged2 {
        staged: Staged { feed, rows },
        taken: count,
    })
}
