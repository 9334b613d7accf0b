ghost use Rattle.std.specs.Prelude.{◌≡◌, IfOk, Option};
ghost use Rattle.toml.specs.Data.{Data};
ghost use Rattle.toml.specs.View.{items_view, view};
ghost use Rattle.dv_catalog.specs.Forms as spec;

use dv_text::{List, Memory, Text, field};
use std::alloc::Global;
use toml::Value;

const MOST_COLUMN_BYTES: usize = 200;

const MOST_PARTS: i64 = 4;

/// The form that a value of a mapping file has to have, and what is made of such a value.
pub(crate) trait Form {
    type Made: Drop;

    ghost made_of: { Data → Option Self.Made };

    /// What is made of a value; none where it has another form.
    fn read(alloc: Global, value: &Value) -> Result<Option<Self::Made>, Memory>
        ensures { IfOk result (λ made. made ≡ made_of (view value.now)) };
}

impl Form for Text {
    type Made = Text;

    ghost made_of = { spec.text };

    fn read(alloc: Global, value: &Value) -> Result<Option<Text>, Memory> {
        match value.as_str() {
            Some(text) => Ok(Some(Text::of(alloc, text.as_bytes())?)),
            None => Ok(None),
        }
    }
}

/// The form of a column name.
pub(crate) struct Column;

impl Form for Column {
    type Made = Text;

    ghost made_of = { spec.column };

    fn read(alloc: Global, value: &Value) -> Result<Option<Text>, Memory> {
        let Some(text) = value.as_str() else {
            return Ok(None);
        };
        if !(1..=MOST_COLUMN_BYTES).contains(&text.len()) {
            return Ok(None);
        }
        let name = field(alloc, text.as_bytes())?;
        if name.bytes() == text.as_bytes() {
            Ok(Some(name))
        } else {
            Ok(None)
        }
    }
}

/// The form of a number of key parts.
pub(crate) struct PartCount;

impl Form for PartCount {
    type Made = u32;

    ghost made_of = { spec.part_count };

    fn read(_alloc: Global, value: &Value) -> Result<Option<u32>, Memory> {
        match value.as_integer() {
            Some(count @ 1..=MOST_PARTS) => Ok(Some(count as u32)),
            _ => Ok(None),
        }
    }
}

/// The form of a list, each of whose values has a form.
impl<F: Form> Form for Vec<F> {
    type Made = List<F::Made>;

    ghost made_of = { spec.list_of F.made_of };

    fn read(alloc: Global, value: &Value) -> Result<Option<List<F::Made>>, Memory> {
        match value.as_array() {
            Some(values) => each::<F>(alloc, values.as_slice()),
            None => Ok(None),
        }
    }
}

fn each<F: Form>(alloc: Global, values: &[Value]) -> Result<Option<List<F::Made>>, Memory>
    ensures { IfOk result (λ made. made ≡ spec.each F.made_of (items_view values.now)) }
{
    let mut made = Vec::new(alloc);
    for value in values {
        match F::read(alloc, value)? {
            Some(item) => made.push(item)?,
            None => return Ok(None),
        }
    }
    Ok(Some(List::from_vec(made)))
}
