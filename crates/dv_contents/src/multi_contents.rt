// The rows of a feed with a sub, read back from the vault: for each parent one for each row of the feed's
// multi-active satellite that is valid at the date.
ghost use Rattle.std.specs.Prelude.{◌≡◌, ◌<◌, ◌++◌, IfOk, OnOk, Some, length, map, slice_get};
ghost use Rattle.std.specs.List.{flat_map};
ghost use Rattle.dv_catalog.specs.declared.entries.FeedDef.{FeedDef};
ghost use Rattle.dv_records.specs.ReadBack as spec;
ghost use Rattle.dv_records.specs.Reconstruction.{described_row};

use crate::content_rows::{ContentRow, lent_again};
use crate::lenders::Lender;
use dv_records::MultiRow;
use dv_text::{Digest, Key, List, Memory, Stamp};

// The row of a reference list with a satellite row's sub and attributes.
fn described<'a>(refs: &List<&'a Key>, row: &'a MultiRow) -> Result<ContentRow<'a>, Memory>
    ensures { IfOk result (λ made. made ≡ described_row (map (λ key. key.now) refs.now) row.now) }
{
    let refs = lent_again(refs)?;
    Ok(ContentRow {
        refs,
        sub: row.sub.items(),
        attrs: row.attrs.items(),
    })
}

// Puts the rows of a reference list with the subs and attributes of satellite rows at the end.
fn add_described<'a>(
    rows: &mut Vec<ContentRow<'a>>,
    refs: &List<&'a Key>,
    valid: &'a [MultiRow],
) -> Result<(), Memory>
    ensures { OnOk result (rows.new.items ≡ rows.old.items ++ map (described_row (map (λ key. key.now) refs.now)) valid.now) }
{
    for row in valid {
        rows.push(described(refs, row)?)?;
    }
    Ok(())
}

// Puts the rows of a parent at the end.
fn add_parent<'a>(
    rows: &mut Vec<ContentRow<'a>>,
    lender: &Lender<'a>,
    feed: u32,
    digest: &Digest,
    date: Stamp,
) -> Result<(), Memory>
    requires { feed < length lender.now.vault.now.mapping.feeds }
    ensures { OnOk result ((defined : FeedDef) → slice_get lender.now.vault.now.mapping.feeds feed ≡ Some defined
        → rows.new.items ≡ rows.old.items ++ spec.rows_read lender.now.vault.now.mapping lender.now.vault.now.tables defined feed date digest.now) }
{
    let vault = lender.vault;
    let definition = lender.feed(feed);
    let Some(refs) = lender.refs(definition.parent, digest)? else {
        return Ok(());
    };
    let Some(table) = vault.multi(feed) else {
        return Ok(());
    };
    add_described(rows, &refs, table.at(digest, date))
}

/// The rows of parents, of a feed with a sub.
pub(crate) fn multi_rows_read<'a>(
    lender: &Lender<'a>,
    feed: u32,
    parents: &[Digest],
    date: Stamp,
) -> Result<Vec<ContentRow<'a>>, Memory>
    requires { feed < length lender.now.vault.now.mapping.feeds }
    ensures { IfOk result (λ rows. (defined : FeedDef) → slice_get lender.now.vault.now.mapping.feeds feed ≡ Some defined
        → rows.items ≡ flat_map (spec.rows_read lender.now.vault.now.mapping lender.now.vault.now.tables defined feed date) parents.now) }
{
    let mut rows = Vec::new(lender.alloc);
    for parent in parents {
        add_parent(&mut rows, lender, feed, parent, date)?;
    }
    Ok(rows)
}
