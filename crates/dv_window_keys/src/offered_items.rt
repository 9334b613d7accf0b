// The items of a window's keys are offered to the table of them.
ghost use Rattle.std.specs.Prelude.{◌≡◌, ◌<◌, ◌≤◌, IfOk, All, [], ◌+◌, length, map, slice_get};
ghost use Rattle.arrayvec.specs.ArrayVec.{array_vec_len};
ghost use Rattle.dv_board.specs.KeyTables.{IsSeatOf};
ghost use Rattle.dv_window_keys.specs.ItemKeys.{keys_in};
ghost use Rattle.dv_window_keys.specs.WindowItems as spec;

use crate::items::{Mixing, WindowItem, WindowItems};
use arrayvec::ArrayVec;
use dv_board::{KeySeat, KeyTable, TOGETHER};
use dv_crew::Carrier;
use dv_outside::{Gate, OpenGate};
use dv_text::{Memory, are_missing};
use std::alloc::Global;

// Puts the number of an item behind others, unless all its keys are missing. It passes the gate before.
fn put_item<'b, G: Gate>(
    items: &[WindowItem<'b>],
    gate: &G,
    numbers: &mut ArrayVec<u32, TOGETHER>,
    item: u32,
)
    requires item { item < length items.now }
    requires room { array_vec_len numbers.old < 32 }
    requires inside { All (λ number. number < length items.now) numbers.old.items }
    ensures put { numbers.new.items ≡ spec.offers_with item (slice_get (map spec.item_of items.now) item) numbers.old.items }
    ensures room { array_vec_len numbers.new ≤ array_vec_len numbers.old + 1 }
    ensures inside { All (λ number. number < length items.now) numbers.new.items }
{
    if are_missing(items[item as usize].offer.refs) {
        return;
    }
    gate.offering(item);
    numbers.push(item);
}

// The numbers from `from` up to `to` of the items whose keys are not all missing. Each passes the gate.
fn full_numbers<'b, G: Gate>(
    items: &[WindowItem<'b>],
    gate: &G,
    from: u32,
    to: u32,
) -> ArrayVec<u32, TOGETHER>
    requires range { (from ≤ to) × (to ≤ length items.now) }
    requires few { to ≤ from + 32 }
    ensures numbers { spec.OffersMore (map spec.item_of items.now) from to [] result.items }
    ensures inside { All (λ number. number < length items.now) result.items }
{
    let mut numbers = ArrayVec::new();
    'numbers: for item in from..to {
        put_item(items, gate, &mut numbers, item);
    }
    numbers
}

/// Offers the items with the numbers from `from` up to `to`, ascending, but for those whose keys are all missing. Each offer
/// passes the gate.
pub fn offer_items<'c, 'b, G: Gate>(
    table: &KeyTable<WindowItems<'c, 'b>>,
    items: &[WindowItem<'b>],
    gate: &G,
    seat: &mut KeySeat,
    from: u32,
    to: u32,
)
    requires mine { IsSeatOf keys_in table.now seat.old }
    requires items { items.now ≡ table.now.items.items.now }
    requires range { (from ≤ to) × (to ≤ length items.now) }
    ensures seat { seat.new ≡ record seat.old { offers = seat.new.offers } }
    ensures offers { spec.OffersMore (map spec.item_of items.now) from to seat.old.offers seat.new.offers }
{
    let mut next = from;
    'chunks: while next < to {
        let end = next + (to - next).min(TOGETHER as u32);
        let numbers = full_numbers(items, gate, next, end);
        table.offer_all(seat, numbers.as_slice());
        next = end;
    }
}

/// The numbers of the items that the table of them keeps, where one thread offers all: for each hub and link and each list
/// whose keys are not all missing the least one, ascending.
pub(crate) fn least_numbers(
    alloc: Global,
    items: &[WindowItem<'_>],
    mixing: Mixing,
) -> Result<Vec<u32>, Memory>
    requires few { length items.now ≤ 2000000 }
    ensures { IfOk result (λ numbers. spec.AreLeast (map spec.item_of items.now) numbers.items) }
{
    let count = items.len() as u32;
    let (table, mut seat) = KeyTable::new(alloc, WindowItems { items, mixing })?;
    offer_items(&table, items, &OpenGate, &mut seat, 0, count);
    let (_items, numbers) = table.close(seat);
    Ok(numbers)
}

/// The numbers of the items that a task offers: those from `from` up to `to`.
#[derive(Clone, Copy)]
pub struct ItemRange {
    pub from: u32,
    pub to: u32,
}

/// The table of a window's keys and its items, and which of them each task offers.
#[derive(Drop)]
pub struct KeyOffers<'t, 'c, 'b> {
    pub table: &'t KeyTable<WindowItems<'c, 'b>>,
    pub items: &'c [WindowItem<'b>],
    pub ranges: &'t [ItemRange],
    ghost items_are: { items.now ≡ table.now.items.items.now },
    ghost ranges_are: { spec.AreRanges (length items.now) ranges.now },
}

impl<'t, 'c, 'b> KeyOffers<'t, 'c, 'b> {
    /// Offers the items of a task, ascending. Conditions: the seat is one of the table, and there is such a task.
    pub fn offer<G: Gate>(&self, gate: &G, seat: &mut KeySeat, task: u32)
        requires mine { IsSeatOf keys_in self.now.table.now seat.old }
        requires task { task < length self.now.ranges.now }
        ensures { spec.OffersOf (map spec.item_of self.now.items.now) self.now.ranges.now task seat.old seat.new }
    {
        let range = self.ranges[task as usize];
        offer_items(self.table, self.items, gate, seat, range.from, range.to);
    }
}

impl<'t, 'c, 'b> Carrier<KeySeat> for KeyOffers<'t, 'c, 'b> {
    ghost use Rattle.std.specs.Prelude.{map};
    ghost use Rattle.dv_board.specs.KeyTables.{IsSeatOf};
    ghost use Rattle.dv_window_keys.specs.WindowItems.{HaveOffered, item_of};
    ghost use Rattle.dv_window_keys.specs.ItemKeys.{keys_in};

    ghost share = { λ offers seat. seat.share };

    ghost has_done = { λ offers seat done. IsSeatOf keys_in offers.table.now seat × HaveOffered (map item_of offers.items.now) offers.ranges.now done seat.offers };

    fn split(&self, own: &mut KeySeat, part: u32) -> KeySeat {
        self.table.split(own, part)
    }

    fn join(&self, own: &mut KeySeat, other: KeySeat) {
        self.table.join(own, other);
    }
}
