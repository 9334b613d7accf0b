// The records of an extract, one by one, by the reader of `csv`.
ghost use Rattle.std.specs.Prelude.{◌≡◌, IfOk, IsTrue, [], ◌∷◌, if◌then◌else◌};
ghost use Rattle.csv.specs.Records.{fields_of};
ghost use Rattle.dv_catalog.specs.Extracts.{extract_records};
ghost use Rattle.dv_stage.specs.Remaining.{IsExtractReader, records_left};

use csv::{ByteRecord, ErrorKind, Reader, ReaderBuilder};
use dv_text::Memory;
use std::alloc::Global;

// A reader of an extract's records, which reads the header like the others.
pub(crate) fn extract_reader(alloc: Global, bytes: &[u8]) -> Reader<&[u8]>
    ensures ready { IsExtractReader result }
    ensures all { records_left result ≡ extract_records bytes.now }
{
    ReaderBuilder::new()
        .has_headers(false)
        .flexible(true)
        .from_reader(alloc, bytes)
}

// Reads the next record, where there is one.
#[tactic(auto, using(crate::proofs::RestFacts::left_records))]
pub(crate) fn next_row(reader: &mut Reader<&[u8]>, row: &mut ByteRecord) -> Result<bool, Memory>
    requires { IsExtractReader reader.old }
    ensures keeps { IfOk result (λ found. IsTrue found → IsExtractReader reader.new) }
    ensures value { IfOk result (λ found. records_left reader.old ≡ (if found then fields_of row.new ∷ records_left reader.new else [])) }
{
    match reader.read_byte_record(row) {
        Ok(true) => Ok(true),
        Ok(false) => Ok(false),
        Err(error) => match error.into_kind() {
            ErrorKind::Io(_) | ErrorKind::OutOfMemory => Err(Memory),
            _ => unreachable!(),
        },
    }
}
