ghost use Rattle.std.specs.Prelude.{◌≡◌, ◌++◌, ℕ, List, OnOk};

use crate::fields::Fields;
use dv_records::RawRow;
use dv_text::Memory;

/// A row that is written as a record.
pub trait Recorded {
    /// The fields of a row.
    ghost record_of: { Self → List (List ℕ) };

    /// Puts the fields of the row at the end.
    fn put(&self, fields: &mut Fields) -> Result<(), Memory>
        ensures { OnOk result (fields.new ≡ fields.old ++ record_of self.now) };
}

/// A row of a raw table that is written as a record.
pub trait RawRecorded: RawRow + Recorded {
    ghost use Rattle.std.specs.Prelude.{map};
    ghost use Rattle.dv_print.specs.TableTexts.{raw_records};

    ghost records: { (rows : List Self) → raw_records (Self.wrapped rows) ≡ map Self.record_of rows };
}
