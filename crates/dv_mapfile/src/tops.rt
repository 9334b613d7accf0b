ghost use Rattle.std.specs.Prelude.{◌≡◌, IfOk, map, option_map};
ghost use Rattle.toml.specs.Data.{as_table};
ghost use Rattle.toml.specs.View.{items_view, table_view};
ghost use Rattle.dv_catalog.specs.Forms as spec;
ghost use Rattle.dv_mapfile.specs.Meets.{MeetsAs};

use crate::fields::value_at;
use crate::shape_faults::ShapeFault;
use dv_text::Memory;
use std::alloc::Global;
use toml::{Table, Value};

// The values as tables; none where one of them is no table.
fn as_tables(alloc: Global, values: &[Value]) -> Result<Option<Vec<&Table>>, Memory>
    ensures { IfOk result (λ found.
        option_map (λ tables. map (λ table. table_view table.now) tables.items) found
        ≡ spec.each as_table (items_view values.now)) }
{
    let mut tables = Vec::new(alloc);
    for value in values {
        match value.as_table() {
            Some(table) => tables.push(table)?,
            None => return Ok(None),
        }
    }
    Ok(Some(tables))
}

/// The tables of one kind of entry, which stand in a list at a key that may be absent.
pub(crate) fn tables_at<'a>(
    alloc: Global,
    document: &'a Table,
    key: &str,
) -> Result<Vec<&'a Table>, ShapeFault>
    ensures { MeetsAs (λ tables. map (λ table. table_view table.now) tables.items) result
        (spec.optional as_table key.now (table_view document.now)) }
{
    let Some(value) = value_at(document, key) else {
        return Ok(Vec::new(alloc));
    };
    let Some(values) = value.as_array() else {
        return Err(ShapeFault::at(alloc, key));
    };
    match as_tables(alloc, values.as_slice())? {
        Some(tables) => Ok(tables),
        None => Err(ShapeFault::at(alloc, key)),
    }
}
