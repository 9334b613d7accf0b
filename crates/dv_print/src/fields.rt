ghost use Rattle.std.specs.Prelude.{◌≡◌, [], ◌∷◌, ◌++◌, flat_map, map, replicate, OnOk};
ghost use Rattle.csv.specs.Records.{fields_of};
ghost use Rattle.hex.specs.Hex.{encode_lower};
ghost use Rattle.dv_text.specs.Stamps.{stamp_text};
ghost use Rattle.dv_print.specs.Texts.{all_parts, yes_or_no};

use csv::ByteRecord;
use dv_text::{Digest, Key, List, Memory, Stamp, Text};
use std::alloc::Global;
use std::marker::Model;

/// The fields of one record. The memory of a record that was written serves for the next one. Contracts see
/// the fields in order.
#[derive(Drop)]
pub struct Fields {
    record: ByteRecord,
}

impl Model for Fields {
    ghost use Rattle.std.specs.Prelude.{ℕ, List, [], ◌≡◌};
    ghost use Rattle.csv.specs.Records.{fields_of, partial_of};

    ghost Value = { List (List ℕ) };

    ghost view = { λ f. fields_of f.record };

    ghost invariant = { λ f. partial_of f.record ≡ [] };
}

impl Fields {
    /// No fields. Takes no memory.
    pub(crate) fn new(alloc: Global) -> Fields
        ensures { result ≡ [] }
    {
        Fields {
            record: ByteRecord::new(alloc),
        }
    }

    /// The fields as a record of `csv`.
    pub(crate) fn as_record(&self) -> &ByteRecord
        ensures { fields_of result.now ≡ self.now }
    {
        &self.record
    }

    /// Takes every field away, and keeps the memory.
    pub fn clear(&mut self)
        ensures { self.new ≡ [] }
    {
        self.record.clear();
    }

    /// Puts a field at the end.
    pub(crate) fn push(&mut self, field: &[u8]) -> Result<(), Memory>
        ensures { OnOk result (self.new ≡ self.old ++ field.now ∷ []) }
    {
        if self.record.push_field(field).is_err() {
            // A field that was cut off must not begin the next one.
            self.record.clear();
            return Err(Memory);
        }
        Ok(())
    }

    /// Puts texts at the end, a field each.
    pub fn push_texts(&mut self, texts: &[Text]) -> Result<(), Memory>
        ensures { OnOk result (self.new ≡ self.old ++ texts.now) }
    {
        for text in texts {
            self.push(text.bytes())?;
        }
        Ok(())
    }

    /// Puts so many blank fields at the end.
    pub fn push_blanks(&mut self, count: usize) -> Result<(), Memory>
        ensures { OnOk result (self.new ≡ self.old ++ replicate count []) }
    {
        for _ in 0..count {
            self.push(b"")?;
        }
        Ok(())
    }

    /// Puts `Y` or `N` at the end.
    pub fn push_yes_or_no(&mut self, yes: bool) -> Result<(), Memory>
        ensures { OnOk result (self.new ≡ self.old ++ yes_or_no yes ∷ []) }
    {
        self.push(if yes { b"Y" } else { b"N" })
    }

    /// Puts the columns of keys at the end.
    pub(crate) fn push_columns(&mut self, keys: &[List<Text>]) -> Result<(), Memory>
        ensures { OnOk result (self.new ≡ self.old ++ flat_map (λ columns. columns) keys.now) }
    {
        for columns in keys {
            self.push_texts(columns.items())?;
        }
        Ok(())
    }

    /// Puts the parts of keys at the end.
    pub(crate) fn push_parts(&mut self, refs: &[Key]) -> Result<(), Memory>
        ensures { OnOk result (self.new ≡ self.old ++ all_parts refs.now) }
    {
        for key in refs {
            self.push_texts(key.parts.items())?;
        }
        Ok(())
    }

    /// Puts the parts of keys that are lent at the end.
    pub fn push_lent_parts(&mut self, refs: &[&Key]) -> Result<(), Memory>
        ensures { OnOk result (self.new ≡ self.old ++ all_parts (map (λ key. key.now) refs.now)) }
    {
        for key in refs {
            self.push_texts(key.parts.items())?;
        }
        Ok(())
    }

    /// Puts a digest at the end, in hexadecimal with the letters a to f in lower case.
    pub(crate) fn push_digest(&mut self, digest: &Digest) -> Result<(), Memory>
        ensures { OnOk result (self.new ≡ self.old ++ encode_lower digest.now ∷ []) }
    {
        let bytes = digest.bytes();
        let mut room = [0u8; 64];
        let text = &mut room[..2 * bytes.len()];
        hex::encode_to_slice(bytes, text).unwrap();
        self.push(text)
    }

    /// Puts digests at the end, in hexadecimal.
    pub(crate) fn push_digests(&mut self, digests: &[Digest]) -> Result<(), Memory>
        ensures { OnOk result (self.new ≡ self.old ++ map encode_lower digests.now) }
    {
        for digest in digests {
            self.push_digest(digest)?;
        }
        Ok(())
    }

    /// Puts a stamp at the end.
    pub(crate) fn push_stamp(&mut self, stamp: Stamp) -> Result<(), Memory>
        ensures { OnOk result (self.new ≡ self.old ++ stamp_text stamp ∷ []) }
    {
        self.push(&stamp.print())
    }
}
