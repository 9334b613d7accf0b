// The items of a window's keys, which workers offer to the table that they share: which are the same, and where the
// table looks for each.
ghost use Rattle.std.specs.Prelude.{◌≡◌, ◌*◌, ◌<◌, ◌≤◌, ◌==◌, ◌&&◌, fold, length};
ghost use Rattle.dv_window_keys.specs.WindowItems as spec;

use crate::offers::Offer;
use dv_board::KeyItems;
use dv_catalog::Parent;
use dv_text::{Key, Text};

/// A reference list that a row of a window brings to a hub or a link.
#[derive(Clone, Copy)]
pub struct WindowItem<'b> {
    pub parent: Parent,
    pub offer: Offer<'b>,
}

/// The two factors by which homes are mixed. They are the same for all items of a window, and drawn from all of it, so that
/// nobody who chooses keys can tell them before all keys of the window are chosen.
#[derive(Clone, Copy)]
pub struct Mixing {
    pub first: u32,
    pub second: u32,
}

fn product(a: u32, b: u32) -> u64
    ensures value { result ≡ a * b }
    ensures most { result ≤ 18446744065119617025 }
{
    let product = u64::from(a) * u64::from(b);
    product
}

// One number more is mixed into a home.
fn mixed(factor: u32, home: u32, number: u32) -> u32
    ensures { result ≡ spec.mixed factor home number }
{
    ((product(home, factor) + u64::from(number) + 1) % 4_294_967_087) as u32
}

fn bytes_home(factor: u32, home: u32, bytes: &[u8]) -> u32
    ensures { result ≡ fold (spec.mixed factor) home bytes.now }
{
    bytes
        .iter()
        .fold(home, |home, byte| mixed(factor, home, u32::from(*byte)))
}

fn part_home(factor: u32, home: u32, part: &Text) -> u32
    ensures { result ≡ spec.part_home factor home part.now }
{
    mixed(factor, bytes_home(factor, home, part.bytes()), 0)
}

fn key_home(factor: u32, home: u32, key: &Key) -> u32
    ensures { result ≡ spec.key_home factor home key.now }
{
    key.parts
        .items()
        .iter()
        .fold(home, |home, part| part_home(factor, home, part))
}

fn parent_home(factor: u32, parent: Parent) -> u32
    ensures { result ≡ spec.parent_home factor parent }
{
    match parent {
        Parent::Hub(hub) => mixed(factor, 0, hub),
        Parent::Link(link) => mixed(factor, 1, link),
    }
}

// The third power, modulo the prime: sums that lie in a row come apart by it.
fn cube(home: u32) -> u32
    ensures { result ≡ spec.cube home }
{
    let square = (product(home, home) % 4_294_967_087) as u32;
    (product(square, home) % 4_294_967_087) as u32
}

fn list_home(factor: u32, item: &WindowItem<'_>) -> u32
    ensures { result ≡ spec.list_home factor (spec.item_of item.now) }
{
    let home = item
        .offer
        .refs
        .iter()
        .fold(parent_home(factor, item.parent), |home, key| {
            key_home(factor, home, key)
        });
    cube(home)
}

// Where a table looks for an item first: a fold over the table's number and the bytes of the reference list, by both
// factors.
//
// Lists that are not the same have one home under few pairs of factors, and a sender who chooses keys to collide would have
// to know the pair. It is drawn from the hash keys of all rows of the window, his own included: each other choice of keys
// has another pair, of 2^64. The prime is the largest below 2^32 of which half of one less is a prime too, so that beside 0,
// 1 and -1 no factor has a power of one that keys could be made for, and he would have to try very many windows. An offer
// passes no more slots than there are items, so what he gained would be time, and nothing else: homes change no result.
fn item_home(mixing: Mixing, item: &WindowItem<'_>) -> u64
    ensures { result ≡ spec.item_home mixing (spec.item_of item.now) }
{
    u64::from(list_home(mixing.first, item)) * 4_294_967_087
        + u64::from(list_home(mixing.second, item))
}

// Whether two items are of one hub or link, and have one reference list.
fn is_same(one: &WindowItem<'_>, other: &WindowItem<'_>) -> bool
    ensures { result ≡ spec.is_of other.now.parent other.now.offer.refs.now (spec.item_of one.now) }
{
    one.parent == other.parent && one.offer.refs == other.offer.refs
}

/// The items of a window's keys, by number.
#[derive(Drop)]
pub struct WindowItems<'c, 'b> {
    pub items: &'c [WindowItem<'b>],
    pub mixing: Mixing,
    ghost few: { length items.now ≤ 2000000 },
}

impl<'c, 'b> KeyItems for WindowItems<'c, 'b> {
    ghost use Rattle.std.specs.Prelude.{map};
    ghost use Rattle.dv_window_keys.specs.WindowItems.{item_of, keys_of};
    ghost use Rattle.dv_window_keys.specs.ItemClasses.{keys_lawful};

    ghost keys = { λ s. keys_of s.mixing (map item_of s.items.now) };

    ghost lawful = { λ s. keys_lawful (map item_of s.items.now) s.mixing };

    fn count(&self) -> u32 {
        self.items.len() as u32
    }

    fn same(&self, a: u32, b: u32) -> bool {
        is_same(&self.items[a as usize], &self.items[b as usize])
    }

    fn home(&self, a: u32) -> u64 {
        item_home(self.mixing, &self.items[a as usize])
    }
}
