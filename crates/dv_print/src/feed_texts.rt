//! The headers of the texts of feed marts.

ghost use Rattle.std.specs.Prelude.{◌≡◌, IfOk};
ghost use Rattle.dv_print.specs.Texts as spec;

use crate::fields::Fields;
use dv_catalog::FeedDef;
use dv_text::Memory;
use std::alloc::Global;

/// The header of a feed's mart: key columns, sub and attributes, by the extract's column names.
pub fn feed_header(alloc: Global, feed: &FeedDef) -> Result<Fields, Memory>
    ensures { IfOk result (λ header. header ≡ spec.feed_header feed.now) }
{
    let mut header = Fields::new(alloc);
    header.push_columns(feed.keys.items())?;
    header.push_texts(feed.sub.items())?;
    header.push_texts(feed.attrs.items())?;
    Ok(header)
}
