//! The contents of a hub's feeds at a date, and the keys in them.

ghost use Rattle.std.specs.Prelude.{◌≡◌, ◌++◌, Some, All, flat_map, map, slice_get, IfOk, OnOk};
ghost use Rattle.dv_text.specs.Orders.{key_cmp};
ghost use Rattle.dv_text.specs.Sorting.{sorted_by};
ghost use Rattle.dv_records.specs.ReadBack.{any_content_read};
ghost use Rattle.dv_mart.specs.HubContents as spec;
ghost use Rattle.dv_print.specs.HubFeeds.{told};
ghost use Rattle.dv_contents.specs.Contents.{missing_keys};

use crate::lent_keys::LentKey;
use dv_contents::{ContentRow, lent_content};
use dv_print::HubFeed;
use dv_records::sorted_firsts;
use dv_text::{Key, List, Memory, Stamp};
use dv_vault::Vault;
use std::alloc::Global;

/// A feed of a hub, and its rows in order, lent by a vault.
#[derive(Drop)]
pub(crate) struct FeedRows<'a> {
    pub(crate) feed: HubFeed<'a>,
    pub(crate) rows: List<ContentRow<'a>>,
}

/// The content of each feed at a date. The missing keys are those of the vault's hubs.
pub(crate) fn contents_of<'a>(
    alloc: Global,
    vault: &'a Vault,
    missing: &'a [Key],
    feeds: &[HubFeed<'a>],
    date: Stamp,
) -> Result<Vec<FeedRows<'a>>, Memory>
    requires feeds { All (λ feed. slice_get vault.now.mapping.feeds feed.place ≡ Some feed.definition.now) feeds.now }
    requires missing { missing.now ≡ missing_keys vault.now.mapping }
    ensures rows { IfOk result (λ contents. map spec.told_rows contents.items ≡ map (λ feed. (told feed, any_content_read vault.now.mapping vault.now.tables feed.place date)) feeds.now) }
    ensures order { IfOk result (λ contents. spec.AreInOrder contents.items) }
{
    let mut contents = Vec::with_capacity(alloc, feeds.len())?;
    for feed in feeds {
        let rows = lent_content(vault, missing, feed.place, date)?;
        contents.push(FeedRows { feed: *feed, rows })?;
    }
    Ok(contents)
}

// Puts lent keys at the end.
fn push_lent<'a>(keys: &mut Vec<LentKey<'a>>, lent: &[&'a Key]) -> Result<(), Memory>
    ensures { OnOk result (keys.new.items ≡ keys.old.items ++ map (λ key. key.now) lent.now) }
{
    for key in lent {
        keys.push(LentKey::of(*key))?;
    }
    Ok(())
}

// Puts the keys of rows at the end.
fn push_keys<'a>(keys: &mut Vec<LentKey<'a>>, rows: &[ContentRow<'a>]) -> Result<(), Memory>
    ensures { OnOk result (keys.new.items ≡ keys.old.items ++ flat_map (λ row. row.refs) rows.now) }
{
    for row in rows {
        push_lent(keys, row.refs())?;
    }
    Ok(())
}

// The keys of contents, as often as they have them.
fn all_keys<'a>(alloc: Global, contents: &[FeedRows<'a>]) -> Result<Vec<LentKey<'a>>, Memory>
    ensures { IfOk result (λ keys. keys.items ≡ spec.keys_of contents.now) }
{
    let mut keys = Vec::new(alloc);
    for one in contents {
        push_keys(&mut keys, one.rows.items())?;
    }
    Ok(keys)
}

/// The keys of contents in order, each once.
pub(crate) fn keys_of<'a>(
    alloc: Global,
    contents: &[FeedRows<'a>],
) -> Result<List<LentKey<'a>>, Memory>
    ensures { IfOk result (λ keys. keys ≡ sorted_by key_cmp (spec.keys_of contents.now)) }
{
    let keys = sorted_firsts(all_keys(alloc, contents)?)?;
    Ok(keys)
}
