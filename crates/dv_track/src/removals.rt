// Takes digests out of an ascending list, in its place.
ghost use Rattle.std.specs.Prelude.{◌≡◌, ◌≤◌, ◌+◌, ◌++◌, drop, length, take, vec_capacity};
ghost use Rattle.std.specs.List.Sorted.{IsStrictlySortedBy};
ghost use Rattle.dv_records.specs.Batches.{digest_cmp};
ghost use Rattle.dv_track.specs.Presences.{before, behind, missing_in};

use dv_text::Digest;

// How many of some digests, which ascend, are before another one, and from where on they are behind it.
fn bounds(digests: &[Digest], digest: &Digest) -> (usize, usize)
    requires { IsStrictlySortedBy digest_cmp digests.now }
    ensures before { take result.0 digests.now ≡ before digest.now digests.now }
    ensures behind { drop result.1 digests.now ≡ behind digest.now digests.now }
    ensures order { result.0 ≤ result.1 }
    ensures bound { result.1 ≤ length digests.now }
{
    match digests.binary_search(digest) {
        Ok(place) => (place, place + 1),
        Err(place) => (place, place),
    }
}

// Moves so many digests from a place to one that is not behind it.
fn move_up(digests: &mut [Digest], from: usize, place: usize, count: usize)
    requires order { place ≤ from }
    requires bound { from + count ≤ length digests.old }
    ensures front { take (place + count) digests.new ≡ take place digests.old ++ take count (drop from digests.old) }
    ensures back { drop (from + count) digests.new ≡ drop (from + count) digests.old }
    ensures len { length digests.new ≡ length digests.old }
{
    if place < from {
        digests.copy_within(from..from + count, place);
    }
}

// Takes out those of some digests that are among others, where both ascend: the parts between them move up, each
// once. Takes no memory.
pub(crate) fn take_out(digests: &mut Vec<Digest>, others: &[Digest])
    requires order { IsStrictlySortedBy digest_cmp digests.old.items }
    requires others { IsStrictlySortedBy digest_cmp others.now }
    ensures items { digests.new.items ≡ missing_in others.now digests.old.items }
    ensures bound { length digests.new.items ≤ length digests.old.items }
    ensures capacity { vec_capacity digests.new ≡ vec_capacity digests.old }
{
    let mut kept = 0;
    let mut from = 0;
    for other in others {
        let (count, next) = bounds(&digests[from..], other);
        move_up(digests, from, kept, count);
        kept += count;
        from += next;
    }
    let count = digests.len() - from;
    move_up(digests, from, kept, count);
    digests.truncate(kept + count);
}
