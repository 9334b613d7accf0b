// The records behind a header, one by one: their rows, or the first rule that one breaks.
ghost use Rattle.std.specs.Prelude.{◌≡◌, ◌∷◌, ◌++◌, ◌+◌, ◌<◌, ◌≤◌, [], IfOk, IfErr, OnOk, None, true, length, map};
ghost use Rattle.csv.specs.Records.{fields_of};
ghost use Rattle.dv_catalog.specs.Limits.{most_records};
ghost use Rattle.dv_catalog.specs.declared.rules.Rule.TheVariants.{TooManyRows, TwoRows};
ghost use Rattle.dv_catalog.specs.Records.{record_rule, records_rule, row_of};
ghost use Rattle.dv_stage.specs.Checks as checks;
ghost use Rattle.dv_stage.specs.Faults.{TellsRule};
ghost use Rattle.dv_stage.specs.Layouts.{IsHeader};
ghost use Rattle.dv_stage.specs.Remaining.{IsExtractReader, records_left};
ghost use Rattle.dv_stage.specs.Rivals.{IsTakenRows};

use crate::checks::{empty_key, fields_rule};
use crate::faults::StageFault;
use crate::layouts::Header;
use crate::records::next_row;
use crate::rows::row_at;
use crate::taken_rows::TakenRows;
use csv::{ByteRecord, Reader};
use dv_catalog::{FeedDef, Rule};
use dv_text::{Duplicate, Memory, NRow};
use std::alloc::Global;

// The row of a record.
#[tactic(auto, using(crate::proofs::RowFacts::layouts))]
fn feed_row(alloc: Global, header: &Header, row: &ByteRecord) -> Result<NRow, Memory>
    requires { IsHeader header.now }
    ensures row { IfOk result (λ made. made ≡ row_of header.now.feed.now header.now.names (fields_of row.now)) }
    ensures bare { IfOk result (λ made. header.now.layout.attrs ≡ [] → made.attrs ≡ []) }
{
    row_at(alloc, row, &header.layout)
}

// The row of a record that breaks no rule by itself.
pub(crate) fn checked_row(
    alloc: Global,
    header: &Header,
    row_no: u32,
    row: &ByteRecord,
) -> Result<NRow, StageFault>
    requires { IsHeader header.now }
    ensures row { IfOk result (λ made. made ≡ row_of header.now.feed.now header.now.names (fields_of row.now)) }
    ensures bare { IfOk result (λ made. header.now.layout.attrs ≡ [] → made.attrs ≡ []) }
    ensures ok { IfOk result (λ made. checks.own_rule header.now.feed.now header.now.names row_no (fields_of row.now) ≡ None) }
    ensures broken { IfErr result (λ e. TellsRule e (checks.own_rule header.now.feed.now header.now.names row_no (fields_of row.now))) }
{
    if let Some(rule) = fields_rule(header.feed, header.names.items(), row_no, row)? {
        return Err(StageFault::Broken(rule));
    }
    let made = feed_row(alloc, header, row)?;
    if let Some(rule) = empty_key(header.feed, row_no, &made)? {
        return Err(StageFault::Broken(rule));
    }
    Ok(made)
}

fn two_rows(feed: &FeedDef, rival: usize, later: u32) -> Result<Rule, Memory>
    requires { rival < later }
    ensures { IfOk result (λ rule. rule ≡ TwoRows feed.now.name (rival + 1) later) }
{
    let feed = feed.name.copy()?;
    let earlier = rival as u32 + 1;
    Ok(Rule::TwoRows {
        feed,
        earlier,
        later,
    })
}

fn too_many_rows(feed: &FeedDef, row_no: u32) -> Result<Rule, Memory>
    ensures { IfOk result (λ rule. rule ≡ TooManyRows feed.now.name row_no) }
{
    let feed = feed.name.copy()?;
    Ok(Rule::TooManyRows { feed, row_no })
}

// Takes the row of the next record, which breaks no rule.
#[tactic(auto, using(crate::proofs::RuleFacts::record_parts))]
fn take_row(
    alloc: Global,
    header: &Header,
    room: u32,
    row_no: u32,
    row: &ByteRecord,
    taken: &mut TakenRows,
) -> Result<(), StageFault>
    requires header { IsHeader header.now }
    requires taken { IsTakenRows taken.old }
    requires bare { taken.old.bare ≡ true → header.now.layout.attrs ≡ [] }
    requires number { row_no ≡ length taken.old.rows.items + 1 }
    ensures rule { OnOk result (record_rule header.now.feed.now header.now.names room row_no taken.old.rows.items (fields_of row.now) ≡ None) }
    ensures rows { OnOk result (taken.new.rows.items ≡ taken.old.rows.items ++ row_of header.now.feed.now header.now.names (fields_of row.now) ∷ []) }
    ensures taken { OnOk result (IsTakenRows taken.new) }
    ensures bare { OnOk result (taken.new.bare ≡ taken.old.bare) }
    ensures broken { IfErr result (λ e. TellsRule e (record_rule header.now.feed.now header.now.names room row_no taken.old.rows.items (fields_of row.now))) }
{
    let made = checked_row(alloc, header, row_no, row)?;
    if let Some(rival) = taken.take(made)? {
        return Err(StageFault::Broken(two_rows(header.feed, rival, row_no)?));
    }
    if row_no > room {
        return Err(StageFault::Broken(too_many_rows(header.feed, row_no)?));
    }
    Ok(())
}

// The rows of the records behind a header, in their order.
pub(crate) fn read_rows(
    alloc: Global,
    header: &Header,
    room: u32,
    reader: &mut Reader<&[u8]>,
    row: &mut ByteRecord,
) -> Result<Vec<NRow>, StageFault>
    requires header { IsHeader header.now }
    requires reader { IsExtractReader reader.old }
    requires room { room ≤ most_records }
    ensures ok { IfOk result (λ rows. records_rule header.now.feed.now header.now.names room 1 [] (records_left reader.old) ≡ None) }
    ensures rows { IfOk result (λ rows. rows.items ≡ map (row_of header.now.feed.now header.now.names) (records_left reader.old)) }
    ensures few { IfOk result (λ rows. length rows.items ≤ room) }
    ensures broken { IfErr result (λ e. TellsRule e (records_rule header.now.feed.now header.now.names room 1 [] (records_left reader.old))) }
{
    let mut taken = TakenRows::new(alloc, header.layout.attrs.items().is_empty());
    for row_no in 1..u32::MAX {
        if !next_row(reader, row)? {
            return Ok(taken.into_rows());
        }
        take_row(alloc, header, room, row_no, row, &mut taken)?;
    }
    unreachable!()
}
