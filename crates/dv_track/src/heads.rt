// The digests of two ascending lists, one after another in one order.
ghost use Rattle.std.specs.Prelude.{◌≡◌, drop, if◌then◌else◌};
ghost use Rattle.dv_records.specs.Batches.{digest_cmp};
ghost use Rattle.dv_track.specs.Presences as spec;

use dv_text::Digest;
use std::cmp::Ordering;

/// The lesser of the digests that two lists begin with, and which of them begin with it.
#[derive(Clone, Copy)]
pub(crate) struct Head {
    pub(crate) parent: Digest,
    pub(crate) was: bool,
    pub(crate) now: bool,
}

fn lesser(was: &Digest, now: &Digest) -> Head
    ensures { result ≡ spec.lesser was.now now.now (digest_cmp was.now now.now) }
{
    let order = was.cmp(now);
    Head {
        parent: if order.is_le() { *was } else { *now },
        was: order.is_le(),
        now: order.is_ge(),
    }
}

/// The head of two lists, if one of them has a digest. Takes no memory.
pub(crate) fn least(was: &[Digest], now: &[Digest]) -> Option<Head>
    ensures { result ≡ spec.least was.now now.now }
{
    match (was.first(), now.first()) {
        (Some(was), Some(now)) => Some(lesser(was, now)),
        (Some(was), None) => Some(Head {
            parent: *was,
            was: true,
            now: false,
        }),
        (None, Some(now)) => Some(Head {
            parent: *now,
            was: false,
            now: true,
        }),
        (None, None) => None,
    }
}

/// Some digests without the first, if that one is taken. Takes no memory.
pub(crate) fn left(digests: &[Digest], taken: bool) -> &[Digest]
    ensures { result.now ≡ (if taken then drop 1 digests.now else digests.now) }
{
    match digests.split_first() {
        Some((_, rest)) if taken => rest,
        _ => digests,
    }
}
