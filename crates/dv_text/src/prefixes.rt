// Values in order by a number first, which is a prefix of the value, and by the whole value where these tie.
ghost use Rattle.std.specs.Prelude.{◌≡◌, ◌↔◌, Contains, IfOk, IsTrue, map};
ghost use Rattle.std.specs.List.Sorted.{IsStrictlySortedBy};
ghost use Rattle.dv_text.specs.Prefixes as spec;
ghost use Rattle.dv_text.specs.Sorting.{sorted_by};

use crate::digests::Digest;
use crate::failure::Memory;
use crate::lists::List;
use crate::orders::Exact;
use crate::rows::{Key, NRow};
use crate::texts::Text;

/// A type whose values have a number of 16 bytes that agrees with their order: where the numbers of two
/// values differ, the values compare as the numbers do.
pub trait Prefixed: Exact {
    ghost use Rattle.dv_text.specs.Prefixes.{Agrees};
    ghost use Rattle.std.specs.Prelude.{ℕ};

    ghost number: { Self → ℕ };

    /// The number of the value. Takes no memory. That of the text `A` is `65 << 120`: its byte, and
    /// zeros for the fifteen that it hasn't.
    fn prefix(&self) -> u128
        ensures { result ≡ number self.now };

    ghost agrees: { Agrees number Self.cmp };
}

// The byte at a place, 0 where there is none.
fn byte_at(bytes: &[u8], place: usize) -> u8
    ensures { result ≡ spec.byte_at bytes.now place }
{
    match bytes.get(place) {
        Some(byte) => *byte,
        None => 0,
    }
}

// The number of the first sixteen bytes, with zeros behind fewer.
fn number_of(bytes: &[u8]) -> u128
    ensures { result ≡ spec.text_prefix bytes.now }
{
    let mut number = 0;
    for place in 0..16 {
        number = number * 256 + byte_at(bytes, place) as u128;
    }
    number
}

impl Prefixed for Text {
    ghost use Rattle.dv_text.specs.PrefixLaws.{text_agrees};

    ghost number = { spec.text_prefix };

    fn prefix(&self) -> u128 {
        number_of(self.bytes())
    }

    ghost agrees = { text_agrees };
}

impl Prefixed for Digest {
    ghost use Rattle.dv_text.specs.PrefixLaws.{text_agrees};

    ghost number = { spec.text_prefix };

    fn prefix(&self) -> u128 {
        number_of(self.bytes())
    }

    ghost agrees = { text_agrees };
}

impl<T: Prefixed> Prefixed for List<T> {
    ghost use Rattle.dv_text.specs.PrefixLaws.{first_agrees};

    ghost number = { spec.first_prefix T.number };

    fn prefix(&self) -> u128 {
        match self.items().first() {
            Some(item) => item.prefix(),
            None => 0,
        }
    }

    ghost agrees = { first_agrees T.agrees };
}

impl Prefixed for Key {
    ghost use Rattle.dv_text.specs.PrefixLaws.{key_agrees};

    ghost number = { spec.key_prefix };

    fn prefix(&self) -> u128 {
        self.parts.prefix()
    }

    ghost agrees = { key_agrees };
}

impl Prefixed for NRow {
    ghost use Rattle.dv_text.specs.PrefixLaws.{row_agrees};

    ghost number = { spec.row_prefix };

    fn prefix(&self) -> u128 {
        self.refs.prefix()
    }

    ghost agrees = { row_agrees };
}

// An item behind its prefix.
#[derive(PartialEq, Eq, PartialOrd, Ord, Drop)]
struct Fronted<T> {
    prefix: u128,
    item: T,
}

// The items, each behind its prefix.
fn with_prefixes<T: Prefixed>(items: Vec<T>) -> Result<Vec<Fronted<T>>, Memory>
    ensures { IfOk result (λ made. made.items ≡ map (spec.fronted T.number) items.items) }
{
    let mut made = Vec::with_capacity(*items.allocator(), items.len())?;
    for item in items {
        let prefix = item.prefix();
        made.push(Fronted { prefix, item })?;
    }
    Ok(made)
}

// The items alone.
fn without_prefixes<T: Drop>(pairs: Vec<Fronted<T>>) -> Result<Vec<T>, Memory>
    ensures { IfOk result (λ made. made.items ≡ map (λ pair. pair.item) pairs.items) }
{
    let mut made = Vec::with_capacity(*pairs.allocator(), pairs.len())?;
    for pair in pairs {
        made.push(pair.item)?;
    }
    Ok(made)
}

// Whether each item is less than the next.
fn ascend<T: Exact>(items: &[T]) -> bool
    ensures { IsTrue result → IsStrictlySortedBy T.cmp items.now }
{
    for i in 1..items.len() {
        if items[i - 1].cmp(&items[i]).is_ge() {
            return false;
        }
    }
    true
}

// The items in order, each once, by their prefixes first.
fn sorted_pairs<T: Prefixed>(items: Vec<T>) -> Result<Vec<T>, Memory>
    ensures { IfOk result (λ made. made.items ≡ sorted_by T.cmp items.items) }
{
    let mut pairs = with_prefixes(items)?;
    pairs.sort_unstable();
    pairs.dedup();
    without_prefixes(pairs)
}

/// The items in order, each once: of the texts `b`, `ab`, `b` and `a` these are `a`, `ab` and `b`.
/// What `sorted_distinct` makes, sooner where the items are many: it compares their numbers first.
/// Takes no memory where the items ascend already.
pub fn sorted_by_prefix<T: Prefixed>(items: Vec<T>) -> Result<List<T>, Memory>
    ensures value { IfOk result (λ made. made ≡ sorted_by T.cmp items.items) }
    ensures ascending { IfOk result (IsStrictlySortedBy T.cmp) }
    ensures members { IfOk result (λ made. (x : T) → Contains made x ↔ Contains items.items x) }
{
    if ascend(items.as_slice()) {
        return Ok(List::from_vec(items));
    }
    let sorted = sorted_pairs(items)?;
    Ok(List::from_vec(sorted))
}
