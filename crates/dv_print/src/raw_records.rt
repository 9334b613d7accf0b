//! The records of the rows of raw tables.

ghost use Rattle.std.specs.Prelude.{◌≡◌, [], ◌++◌, OnOk, refl};
ghost use Rattle.dv_print.specs.Texts as spec;

use crate::fields::Fields;
use crate::recorded::{RawRecorded, Recorded};
use dv_records::{Code, EffectRow, HubRow, LinkRow, MultiRow, SatRow, StatusRow};
use dv_text::{Digest, Memory, Stamp, Text};

// Puts what every raw table has: a hash key, a load date and a record source.
fn put_raw(fields: &mut Fields, digest: &Digest, load: Stamp, source: &Text) -> Result<(), Memory>
    ensures { OnOk result (fields.new ≡ fields.old ++ spec.raw_record digest.now load source.now []) }
{
    fields.push_digest(digest)?;
    fields.push_stamp(load)?;
    fields.push(source.bytes())
}

impl Recorded for HubRow {
    ghost record_of = { spec.hub_table_record };

    fn put(&self, fields: &mut Fields) -> Result<(), Memory> {
        put_raw(fields, &self.digest, self.load, &self.source)?;
        fields.push_texts(self.key.parts.items())
    }
}

impl RawRecorded for HubRow {
    ghost records = { λ rows. refl };
}

impl Recorded for LinkRow {
    ghost record_of = { spec.link_table_record };

    fn put(&self, fields: &mut Fields) -> Result<(), Memory> {
        put_raw(fields, &self.digest, self.load, &self.source)?;
        fields.push_digests(self.hubs.items())
    }
}

impl RawRecorded for LinkRow {
    ghost records = { λ rows. refl };
}

impl Recorded for SatRow {
    ghost record_of = { spec.sat_table_record };

    fn put(&self, fields: &mut Fields) -> Result<(), Memory> {
        put_raw(fields, &self.parent, self.load, &self.source)?;
        fields.push_digest(&self.diff)?;
        fields.push_texts(self.attrs.items())
    }
}

impl RawRecorded for SatRow {
    ghost records = { λ rows. refl };
}

impl Recorded for MultiRow {
    ghost record_of = { spec.multi_table_record };

    fn put(&self, fields: &mut Fields) -> Result<(), Memory> {
        put_raw(fields, &self.parent, self.load, &self.source)?;
        fields.push_digest(&self.diff)?;
        fields.push_texts(self.sub.items())?;
        fields.push_texts(self.attrs.items())
    }
}

impl RawRecorded for MultiRow {
    ghost records = { λ rows. refl };
}

// `I` where a parent appeared, `D` where it vanished.
fn code_text(code: Code) -> &'static [u8]
    ensures { result.now ≡ spec.code_text code }
{
    match code {
        Code::I => b"I",
        Code::D => b"D",
    }
}

impl Recorded for StatusRow {
    ghost record_of = { spec.status_table_record };

    fn put(&self, fields: &mut Fields) -> Result<(), Memory> {
        put_raw(fields, &self.parent, self.load, &self.source)?;
        fields.push(code_text(self.code))
    }
}

impl RawRecorded for StatusRow {
    ghost records = { λ rows. refl };
}

impl Recorded for EffectRow {
    ghost record_of = { spec.effect_table_record };

    fn put(&self, fields: &mut Fields) -> Result<(), Memory> {
        put_raw(fields, &self.parent, self.load, &self.source)?;
        fields.push_stamp(self.begin)?;
        fields.push_stamp(self.end)
    }
}

impl RawRecorded for EffectRow {
    ghost records = { λ rows. refl };
}
