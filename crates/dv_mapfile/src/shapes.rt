ghost use Rattle.std.specs.Prelude.{map, ℕ, List as list_of_items, Result as outcome};
ghost use Rattle.toml.specs.Data.{Members};
ghost use Rattle.toml.specs.View.{table_view};
ghost use Rattle.dv_mapfile.specs.Meets.{Meets};
ghost use Rattle.dv_catalog.specs.Shapes as shape;

use crate::shape_faults::{ShapeFault, placed};
use dv_text::List;
use std::alloc::Global;
use toml::Table;

/// A kind of entry of a mapping file.
pub(crate) trait Entry: Drop {
    ghost entry_of: { Members → outcome Self (list_of_items ℕ) };

    /// The entry that a table declares. The first key at which it does not is the fault.
    fn read(alloc: Global, table: &Table) -> Result<Self, ShapeFault>
        ensures { Meets result (entry_of (table_view table.now)) };
}

// The entry of a kind that a table declares, by its number.
fn read_entry<E: Entry>(
    alloc: Global,
    kind: &str,
    number: u64,
    table: &Table,
) -> Result<E, ShapeFault>
    ensures { Meets result (shape.placed kind.now number (E.entry_of (table_view table.now))) }
{
    placed(alloc, kind, number, E::read(alloc, table))
}

// The entries of a kind that tables declare.
pub(crate) fn read_entries<E: Entry>(
    alloc: Global,
    kind: &str,
    tables: &[&Table],
) -> Result<List<E>, ShapeFault>
    ensures { Meets result
        (shape.entries E.entry_of kind.now 1 (map (λ table. table_view table.now) tables.now)) }
{
    let mut made = Vec::new(alloc);
    let mut number = 1;
    for table in tables {
        made.push(read_entry(alloc, kind, number, table)?)?;
        number += 1;
    }
    Ok(List::from_vec(made))
}
