// The fields of a record.
ghost use Rattle.std.specs.Prelude.{◌≡◌, ◌<◌, Some, length, nat_lt, option_copied, slice_get};
ghost use Rattle.std.specs.List.{list_all, list_any};
ghost use Rattle.std.specs.Str.{is_utf8};
ghost use Rattle.csv.specs.Records.{fields_of};
ghost use Rattle.dv_catalog.specs.Limits.{most_field_bytes};

use csv::ByteRecord;
use dv_text::MOST_FIELD_BYTES;

// The field at a place, where the record has one.
#[tactic(auto, using(crate::proofs::FieldFacts::field_facts))]
pub(crate) fn field_at(row: &ByteRecord, place: usize) -> Option<&[u8]>
    ensures { option_copied result ≡ slice_get (fields_of row.now) place }
{
    row.get(place)
}

// The field at a place that the record has.
pub(crate) fn field_in(row: &ByteRecord, place: usize) -> &[u8]
    requires { place < length (fields_of row.now) }
    ensures { slice_get (fields_of row.now) place ≡ Some result.now }
{
    match field_at(row, place) {
        Some(field) => field,
        None => unreachable!(),
    }
}

fn is_text(bytes: &[u8]) -> bool
    ensures { result ≡ is_utf8 bytes.now }
{
    std::str::from_utf8(bytes).is_ok()
}

fn is_long(bytes: &[u8]) -> bool
    ensures { result ≡ nat_lt most_field_bytes (length bytes.now) }
{
    bytes.len() > MOST_FIELD_BYTES
}

// Whether each field is UTF-8.
#[tactic(auto, using(dv_text::proofs::Options::drop_got))]
pub(crate) fn are_texts(row: &ByteRecord) -> bool
    ensures { result ≡ list_all is_utf8 (fields_of row.now) }
{
    for place in 0..row.len() {
        if !is_text(field_in(row, place)) {
            return false;
        }
    }
    true
}

// Whether a field is too long.
#[tactic(auto, using(dv_text::proofs::Options::drop_got))]
pub(crate) fn has_long_field(row: &ByteRecord) -> bool
    ensures { result ≡ list_any (λ field. nat_lt most_field_bytes (length field)) (fields_of row.now) }
{
    for place in 0..row.len() {
        if is_long(field_in(row, place)) {
            return true;
        }
    }
    false
}
