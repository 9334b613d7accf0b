use crate::fields::{key, pieces, some_texts};
use crate::misfits::Misfit;
use crate::raw_tables::each;
use dv_text::{Key, List, NRow, Staged};
use std::alloc::Global;

fn keys(alloc: Global, bytes: &[u8]) -> Result<List<Key>, Misfit> {
    let mut made = List::new(alloc);
    for piece in pieces(alloc, bytes, b'/')?.iter() {
        made.push(key(alloc, piece)?)?;
    }
    Ok(made)
}

// A row of an extract: its references, its sub-keys and its attributes.
fn row(alloc: Global, line: &[u8]) -> Result<NRow, Misfit> {
    let parts = pieces(alloc, line, b';')?;
    let (refs, sub, attrs): (&[u8], &[u8], &[u8]) = match parts.as_slice() {
        [refs] => (*refs, b"", b""),
        [refs, sub] => (*refs, *sub, b""),
        [refs, sub, attrs] => (*refs, *sub, *attrs),
        _ => return Err(Misfit::Line),
    };
    Ok(NRow {
        refs: keys(alloc, refs)?,
        sub: some_texts(alloc, sub, b',')?,
        attrs: some_texts(alloc, attrs, b',')?,
    })
}

/// An extract of a feed whose rows are the lines of a block.
pub(crate) fn extract(alloc: Global, feed: u32, block: &[u8]) -> Result<Staged, Misfit> {
    Ok(Staged {
        feed,
        rows: each(alloc, block, row)?,
    })
}
