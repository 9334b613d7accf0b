// Merges digests into an ascending list from the back, so that each is moved at most once.
ghost use Rattle.std.specs.Prelude.{◌≡◌, ◌≤◌, ◌<◌, ◌+◌, ◌∷◌, ◌++◌, drop, false, length, not, take, true, vec_capacity};
ghost use Rattle.std.specs.List.Sorted.{IsPartitionPoint, IsPermutation, IsSorted};
ghost use Rattle.std.specs.Ordering.{is_lt};
ghost use Rattle.dv_records.specs.Batches.{digest_cmp};

use dv_text::Digest;

// How many of the first of some digests, which are in order, are not greater than another one.
fn count_up_to(digests: &[Digest], digest: &Digest) -> usize
    requires { IsSorted digest_cmp digests.now }
    ensures within { result ≤ length digests.now }
    ensures point { IsPartitionPoint
        (λ other. not (is_lt (digest_cmp digest.now other)) ≡ true)
        (λ other. not (is_lt (digest_cmp digest.now other)) ≡ false)
        digests.now result }
{
    digests.partition_point(|other| is_up_to(other, digest))
}

// Whether a digest is not greater than another one.
fn is_up_to(a: &Digest, b: &Digest) -> bool
    ensures { result ≡ not (is_lt (digest_cmp b.now a.now)) }
{
    !b.cmp(a).is_lt()
}

// Moves the digests from a place to an end behind so many free places and one more, in which a digest goes.
#[tactic(auto, using(dv_index::proofs::Moves::put_back))]
fn put_before(digests: &mut [Digest], place: usize, end: usize, free: usize, digest: Digest)
    requires range { place ≤ end }
    requires room { end + free < length digests.old }
    ensures len { length digests.new ≡ length digests.old }
    ensures front { take place digests.new ≡ take place digests.old }
    ensures back { drop (place + free) digests.new ≡ digest ∷ (drop place (take end digests.old) ++ drop (end + free + 1) digests.old) }
{
    digests.copy_within(place..end, place + free + 1);
    digests[place + free] = digest;
}

// Merges digests into others, for which there is room: both are in order. Each finds its place by a binary search,
// and those behind it move once. Takes no memory.
pub(crate) fn merge(digests: &mut Vec<Digest>, arrivals: &[Digest])
    requires olds { IsSorted digest_cmp digests.old.items }
    requires news { IsSorted digest_cmp arrivals.now }
    requires room { length digests.old.items + length arrivals.now ≤ vec_capacity digests.old }
    ensures each { IsPermutation (digests.old.items ++ arrivals.now) digests.new.items }
    ensures ordered { IsSorted digest_cmp digests.new.items }
{
    let mut end = digests.len();
    let mut left = arrivals.len();
    match digests.extend_from_slice(arrivals) {
        Ok(()) => {}
        Err(_) => unreachable!(),
    }
    while left > 0 {
        left -= 1;
        let digest = arrivals[left];
        let place = count_up_to(&digests[..end], &digest);
        put_before(digests, place, end, left, digest);
        end = place;
    }
}
