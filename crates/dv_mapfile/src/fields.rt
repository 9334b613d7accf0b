ghost use Rattle.std.specs.Prelude.{◌≡◌, map, option_map};
ghost use Rattle.std.specs.List.{list_any};
ghost use Rattle.std.specs.Str.{bytes_eq};
ghost use Rattle.toml.specs.Data.{get_member};
ghost use Rattle.toml.specs.View.{table_view, view};
ghost use Rattle.dv_catalog.specs.Forms as spec;
ghost use Rattle.dv_mapfile.specs.Meets.{Meets};
ghost use Rattle.dv_catalog.specs.Shapes as shape;

use crate::forms::Form;
use crate::shape_faults::ShapeFault;
use dv_text::List;
use std::alloc::Global;
use toml::{Table, Value};

/// The value at a key.
#[tactic(auto, using(toml::proofs::Views::table_get))]
pub(crate) fn value_at<'a>(table: &'a Table, key: &str) -> Option<&'a Value>
    ensures { option_map (λ value. view value.now) result ≡ get_member key.now (table_view table.now) }
{
    table.get(key)
}

/// What is made of the value at a key. The key is the fault where it is lacking, or its value has another
/// form.
pub(crate) fn required<F: Form>(
    alloc: Global,
    table: &Table,
    key: &str,
) -> Result<F::Made, ShapeFault>
    ensures { Meets result (spec.required F.made_of key.now (table_view table.now)) }
{
    match value_at(table, key) {
        Some(value) => match F::read(alloc, value)? {
            Some(made) => Ok(made),
            None => Err(ShapeFault::at(alloc, key)),
        },
        None => Err(ShapeFault::at(alloc, key)),
    }
}

/// The list at a key that may be absent, which then is empty.
pub(crate) fn optional<F: Form>(
    alloc: Global,
    table: &Table,
    key: &str,
) -> Result<List<F::Made>, ShapeFault>
    ensures { Meets result (spec.optional F.made_of key.now (table_view table.now)) }
{
    match value_at(table, key) {
        Some(_) => required::<Vec<F>>(alloc, table, key),
        None => Ok(List::new(alloc)),
    }
}

// Whether a key is among those known.
fn is_known(known: &[&str], key: &str) -> bool
    ensures { result ≡ list_any (λ name. bytes_eq name.now key.now) known.now }
{
    known.iter().any(|name| *name == key)
}

/// The first key, in the order of bytes, that is not among those known.
pub(crate) fn unknown_key<'a>(table: &'a Table, known: &[&str]) -> Option<&'a str>
    ensures { option_map (λ key. key.now) result
        ≡ shape.unknown_key (map (λ name. name.now) known.now) (table_view table.now) }
{
    for key in table.keys() {
        if !is_known(known, key.as_str()) {
            return Some(key.as_str());
        }
    }
    None
}

/// That a table has no key but those known. Else the first other one, in the order of bytes, is the fault.
pub(crate) fn no_others(alloc: Global, table: &Table, known: &[&str]) -> Result<(), ShapeFault>
    ensures { Meets result (shape.no_others (map (λ name. name.now) known.now) (table_view table.now)) }
{
    match unknown_key(table, known) {
        Some(key) => Err(ShapeFault::at(alloc, key)),
        None => Ok(()),
    }
}
