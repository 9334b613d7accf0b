//! How names and values are printed.

ghost use Rattle.std.specs.Prelude.{◌≡◌, ◌++◌, IfOk, OnOk};
ghost use Rattle.dv_catalog.specs.Printed as spec;

use dv_text::{Memory, Text};
use std::alloc::Global;

fn printed_byte(byte: u8) -> u8
    ensures { result ≡ spec.printed_byte byte }
{
    if byte < b' ' || byte == 127 {
        b'?'
    } else {
        byte
    }
}

fn add_printed(line: &mut Vec<u8>, text: &[u8]) -> Result<(), Memory>
    ensures { OnOk result (line.new.items ≡ line.old.items ++ spec.printed text.now) }
{
    for byte in text {
        line.push(printed_byte(*byte))?;
    }
    Ok(())
}

/// A text as names and values are printed: each control byte is `?`.
pub fn printed(alloc: Global, text: &[u8]) -> Result<Text, Memory>
    ensures { IfOk result (λ made. made ≡ spec.printed text.now) }
{
    let mut line = Vec::new(alloc);
    add_printed(&mut line, text)?;
    Text::from_vec(line)
}

/// Puts a field of a printed rule at the end of its line: a space, its name, an equals sign and its value.
pub fn add_field(line: &mut Vec<u8>, name: &[u8], value: &Text) -> Result<(), Memory>
    ensures { OnOk result (line.new.items ≡ line.old.items ++ spec.printed_field name.now value.now) }
{
    line.push(b' ')?;
    line.extend_from_slice(name)?;
    line.push(b'=')?;
    add_printed(line, value.bytes())
}
