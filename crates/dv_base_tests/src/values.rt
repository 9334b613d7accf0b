// Sample values.
use dv_text::{Key, List, Memory, NRow, Text};
use std::alloc::Global;

pub(crate) fn texts(alloc: Global, texts: &[&[u8]]) -> Result<List<Text>, Memory> {
    let mut made = List::new(alloc);
    for text in texts {
        made.push(Text::of(alloc, text)?)?;
    }
    Ok(made)
}

/// The key of one part.
pub(crate) fn key(alloc: Global, part: &[u8]) -> Result<Key, Memory> {
    let parts = texts(alloc, &[part])?;
    Ok(Key { parts })
}

/// The keys of these parts.
pub(crate) fn keys(alloc: Global, keys: &[&[&[u8]]]) -> Result<List<Key>, Memory> {
    let mut made = List::new(alloc);
    for parts in keys {
        let parts = texts(alloc, parts)?;
        made.push(Key { parts })?;
    }
    Ok(made)
}

/// The row of a key of one part and of attributes, without a sub.
pub(crate) fn row(alloc: Global, key: &[u8], attrs: &[&[u8]]) -> Result<NRow, Memory> {
    let refs = keys(alloc, &[&[key]])?;
    let attrs = texts(alloc, attrs)?;
    Ok(NRow {
        refs,
        sub: List::new(alloc),
        attrs,
    })
}

/// The feed 0 alone.
pub(crate) fn feeds(alloc: Global) -> Result<List<u32>, Memory> {
    let mut feeds = List::new(alloc);
    feeds.push(0)?;
    Ok(feeds)
}

/// The numbers of the calls that are to fail.
pub(crate) fn numbers(alloc: Global, numbers: &[u64]) -> Result<List<u64>, Memory> {
    Ok(List::from_vec(numbers.to_vec(alloc)?))
}
