//! Names of columns behind the name of a hub or a feed.

ghost use Rattle.std.specs.Prelude.{◌≡◌, ◌∷◌, [], ◌++◌, map, IfOk, OnOk};
ghost use Rattle.std.specs.List.{range_with_len};
ghost use Rattle.dv_print.specs.Texts as spec;

use crate::fields::Fields;
use dv_text::Memory;
use std::alloc::Global;

/// A name behind a name, with a dot between.
pub(crate) fn dotted(alloc: Global, a: &[u8], b: &[u8]) -> Result<Vec<u8>, Memory>
    ensures { IfOk result (λ column. column.items ≡ spec.dotted a.now b.now) }
{
    let mut column = Vec::from_slice(alloc, a)?;
    column.push(b'.')?;
    column.extend_from_slice(b)?;
    Ok(column)
}

/// Puts a name behind a name at the end, with a dot between.
pub(crate) fn push_dotted(
    alloc: Global,
    header: &mut Fields,
    a: &[u8],
    b: &[u8],
) -> Result<(), Memory>
    ensures { OnOk result (header.new ≡ header.old ++ spec.dotted a.now b.now ∷ []) }
{
    let column = dotted(alloc, a, b)?;
    header.push(column.as_slice())
}

/// Puts a number behind a name at the end, with a dot between.
pub(crate) fn push_numbered(
    alloc: Global,
    header: &mut Fields,
    name: &[u8],
    n: u32,
) -> Result<(), Memory>
    ensures { OnOk result (header.new ≡ header.old ++ spec.numbered name.now n ∷ []) }
{
    let number = n.to_string(alloc)?;
    push_dotted(alloc, header, name, number.as_bytes())
}

/// Puts a column at the end for each of so many parts of keys, behind a name.
pub(crate) fn push_parts(
    alloc: Global,
    header: &mut Fields,
    name: &[u8],
    parts: u32,
) -> Result<(), Memory>
    ensures { OnOk result (header.new ≡ header.old ++ map (spec.numbered name.now) (range_with_len 1 parts)) }
{
    for n in 0..parts {
        push_numbered(alloc, header, name, n + 1)?;
    }
    Ok(())
}
