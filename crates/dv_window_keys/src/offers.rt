// What the rows of a window's extracts bring to hubs and links. The reference lists are lent as they stand in
// the rows, and none is copied.
ghost use Rattle.std.specs.Prelude.{◌≡◌, ℕ, ◌∷◌, [], Some, slice_get};
ghost use Rattle.dv_text.specs.declared.rows.Key.{Key};
ghost use Rattle.dv_text.specs.Keys.{hashes_of};
ghost use Rattle.dv_catalog.specs.Feeds as feeds;
ghost use Rattle.dv_window_keys.specs.Offered as offered;

use dv_catalog::{Catalog, Parent};
use dv_text::{Digest, Key, KeyDigest};
use std::slice::from_ref;

/// A reference list as a row has it, the feed of the row, and the list's hash key, where the row's own is told.
#[derive(Clone, Copy)]
pub struct Offer<'a> {
    pub refs: &'a [Key],
    pub feed: u32,
    pub told: Option<&'a Digest>,
}

/// The hash key of each key of a reference list: the list's own where it has one key.
pub(crate) fn told_of_each<'a, H: KeyDigest>(
    refs: &[Key],
    told: Option<&'a Digest>,
) -> Option<&'a Digest>
    requires { offered.IsKeyOf (hashes_of H.function) (offered.told_by told) refs.now }
    ensures { (place : ℕ) (key : Key) → slice_get refs.now place ≡ Some key → offered.IsKeyOf (hashes_of H.function) (offered.told_by result) (key ∷ []) }
{
    if refs.len() == 1 { told } else { None }
}

/// The hubs of a feed's references; none where the feed isn't in the mapping.
pub(crate) fn feed_hubs(catalog: &Catalog, feed: u32) -> &[u32]
    ensures { result.now ≡ feeds.feed_hubs catalog.now feed }
{
    if feed >= catalog.feed_count() {
        return &[];
    }
    match &catalog.feed(feed).parent {
        Parent::Hub(hub) => from_ref(hub),
        Parent::Link(link) => catalog.link(*link).hubs.items(),
    }
}
