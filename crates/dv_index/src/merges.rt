// Merges entries into an index from the back, so that each is moved at most once.
ghost use Rattle.std.specs.Prelude.{◌≡◌, ◌≤◌, ◌<◌, ◌+◌, [], ◌∷◌, ◌++◌, drop, false, length, not, take, true, vec_capacity};
ghost use Rattle.std.specs.List.Sorted.{IsPartitionPoint, IsPermutation, IsSorted};
ghost use Rattle.std.specs.Ordering.{is_lt};
ghost use Rattle.dv_index.specs.Numbers.{entry_cmp, parents_of, AreEntries, AreRuns};

use crate::entries::Entry;
use crate::numbers::{compared, put_entries, sort_entries};
use crate::placed::Placed;

// Whether an entry stands up to another one.
fn is_up_to<R: Placed>(rows: &[R], a: Entry, b: Entry) -> bool
    ensures { result ≡ not (is_lt (entry_cmp (parents_of R.place rows.now) b a)) }
{
    !compared(rows, b, a).is_lt()
}

// How many of the first entries of an index stand up to an entry. The steps from the end double until they are too
// long, so that a place near the end is found soon.
fn count_up_to<R: Placed>(rows: &[R], index: &[Entry], entry: Entry) -> usize
    requires { IsSorted (entry_cmp (parents_of R.place rows.now)) index.now }
    ensures within { result ≤ length index.now }
    ensures point { IsPartitionPoint
        (λ other. not (is_lt (entry_cmp (parents_of R.place rows.now) entry other)) ≡ true)
        (λ other. not (is_lt (entry_cmp (parents_of R.place rows.now) entry other)) ≡ false)
        index.now result }
{
    let mut low = 0;
    let mut high = index.len();
    while low < high {
        let probe = high - 1 - (index.len() - high).min((high - low) / 2);
        if is_up_to(rows, index[probe], entry) {
            low = probe + 1;
        } else {
            high = probe;
        }
    }
    low
}

// Moves the entries from a place to an end behind so many free places and one more, in which an entry goes.
#[tactic(auto, using(crate::proofs::Moves::put_back))]
fn put_before(index: &mut [Entry], place: usize, end: usize, free: usize, entry: Entry)
    requires range { place ≤ end }
    requires room { end + free < length index.old }
    ensures len { length index.new ≡ length index.old }
    ensures front { take place index.new ≡ take place index.old }
    ensures back { drop (place + free) index.new ≡ entry ∷ (drop place (take end index.old) ++ drop (end + free + 1) index.old) }
{
    index.copy_within(place..end, place + free + 1);
    index[place + free] = entry;
}

// Merges entries that stand in order into an index, for which there is room: each is searched for from the place of
// the one behind it, and those between them move once. Takes no memory.
pub(crate) fn merge<R: Placed>(rows: &[R], index: &mut Vec<Entry>, arrivals: &[Entry])
    requires olds { IsSorted (entry_cmp (parents_of R.place rows.now)) index.old.items }
    requires news { IsSorted (entry_cmp (parents_of R.place rows.now)) arrivals.now }
    requires room { length index.old.items + length arrivals.now ≤ vec_capacity index.old }
    ensures each { IsPermutation (index.old.items ++ arrivals.now) index.new.items }
    ensures ordered { IsSorted (entry_cmp (parents_of R.place rows.now)) index.new.items }
{
    let mut end = index.len();
    let mut left = arrivals.len();
    match index.extend_from_slice(arrivals) {
        Ok(()) => {}
        Err(_) => unreachable!(),
    }
    while left > 0 {
        left -= 1;
        let entry = arrivals[left];
        let place = count_up_to(rows, &index[..end], entry);
        put_before(index, place, end, left, entry);
        end = place;
    }
}

// Brings an index of the first rows up to all rows, for whose entries there is room, also among the arrivals,
// which are none before and after. Takes no memory.
pub(crate) fn grow<R: Placed>(rows: &[R], index: &mut Vec<Entry>, arrivals: &mut Vec<Entry>)
    requires fewer { length index.old.items ≤ length rows.now }
    requires index { AreEntries (take (length index.old.items) (parents_of R.place rows.now)) index.old.items }
    requires room { length rows.now ≤ vec_capacity index.old }
    requires none { arrivals.old.items ≡ [] }
    requires arrivals_room { length rows.now ≤ length index.old.items + vec_capacity arrivals.old }
    ensures index { AreEntries (parents_of R.place rows.now) index.new.items }
    ensures none { arrivals.new.items ≡ [] }
{
    put_entries(rows, arrivals, index.len());
    sort_entries(rows, arrivals);
    merge(rows, index, arrivals);
    arrivals.clear();
}

// Brings the indexes of the first rows up to all rows. The entries of the rows behind the older ones stand apart where
// there is room for them, and else join the others, where there has to be. There is room for them among the arrivals,
// which are none before and after. Takes no memory.
pub(crate) fn grow_runs<R: Placed>(
    rows: &[R],
    index: &mut Vec<Entry>,
    recent: &mut Vec<Entry>,
    arrivals: &mut Vec<Entry>,
)
    requires fewer { length index.old.items + length recent.old.items ≤ length rows.now }
    requires runs { AreRuns R.place (take (length index.old.items + length recent.old.items) rows.now) index.old.items recent.old.items }
    requires room { length rows.now ≤ vec_capacity index.old }
    requires none { arrivals.old.items ≡ [] }
    requires arrivals_room { length rows.now ≤ length index.old.items + vec_capacity arrivals.old }
    ensures runs { AreRuns R.place rows.now index.new.items recent.new.items }
    ensures none { arrivals.new.items ≡ [] }
{
    let (_, newer) = rows.split_at(index.len());
    if newer.len() <= recent.capacity() {
        grow(newer, recent, arrivals);
    } else {
        recent.clear();
        grow(rows, index, arrivals);
    }
}
