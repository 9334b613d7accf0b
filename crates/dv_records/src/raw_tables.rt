// What the raw tables of all kinds have in common.
ghost use Rattle.std.specs.Prelude.{◌≡◌, ◌≤◌, ℕ, OnOk};
ghost use Rattle.dv_records.specs.declared.stores.Rows.{Rows};
ghost use Rattle.dv_records.specs.Stores.{row_count, rows_then};

use crate::stores::Rows;
use dv_text::Memory;

/// A raw table, of any kind. Contracts see it as its rows, and for how many more there is room.
pub trait RawTable {
    /// The rows, as those of the table's kind.
    ghost held: { Self → Rows };

    /// For how many more rows there is room.
    ghost spare: { Self → ℕ };

    /// Rows may stand behind those of a table.
    ghost follow: { Rows → Rows → Type 0 };

    /// Makes room for so many more rows. The rows stay as they are, also for want of memory.
    fn reserve(&mut self, more: u64) -> Result<(), Memory>
        ensures rows { held self.new ≡ held self.old }
        ensures room { OnOk result (more ≤ spare self.new) };

    /// Appends rows: `b` and `c` behind `a` make `a`, `b` and `c`. Conditions: they may stand
    /// behind those of the table, and there is room for them. Takes no memory.
    fn append(&mut self, more: Rows)
        requires room { row_count more ≤ spare self.old }
        requires follow { follow (held self.old) more }
        ensures { held self.new ≡ rows_then (held self.old) more };
}
