ghost use Rattle.std.specs.Prelude.{◌≡◌, ◌+◌, ◌-◌, ◌*◌, ◌<◌, ◌≤◌, [], ◌∷◌, ◌++◌, length, true, false, IfOk, All};
ghost use Rattle.dv_board.specs.Items.{home_of};
ghost use Rattle.dv_board.specs.KeyRule.{begun, fresh_view, first_view};
ghost use Rattle.dv_board.specs.Looking.{AreFirstSlots, AreSlots, AreWords};
ghost use Rattle.dv_board.specs.Probing.{IsProbing, HasOffered};
ghost use Rattle.dv_board.specs.KeyTables.{IsSeatOf, AreLeastOffered};

use crate::board_steps::Portion;
use crate::key_items::KeyItems;
use crate::key_steps::{
    About, Begin, CutOffers, KeyRule, Look, Lower, MergeOffers, Offer, Peek, Place,
};
use crate::listing::{list_marked, mark_taken};
use crate::views::KeyView;
use atomic_table::{Seat, Table};
use std::alloc::{AllocError, Global};
use std::marker::{Brand, Model};

/// The most items that are offered together.
pub const TOGETHER: usize = 32;

/// A table into which workers offer items, and which keeps the least item of each key. It is shared by `&`, and no call
/// waits.
///
/// Contracts see which table it is, and its items.
#[derive(Drop)]
pub struct KeyTable<I: KeyItems> {
    table: Table<u8, KeyView, usize, KeyRule, Global>,
    items: I,
    // Room for the answer of `close`, which takes no memory.
    is_kept: Vec<bool>,
    kept: Vec<u32>,
}

impl<I: KeyItems> Model for KeyTable<I> {
    ghost use Rattle.std.specs.Prelude.{◌≡◌, ◌≤◌, ◌+◌, ◌*◌, length, replicate, false};
    ghost use Rattle.dv_board.specs.KeyTables.{Keyed, keyed_code};

    ghost Value = { Keyed I };

    ghost coded = { keyed_code I.code };

    ghost view = { λ t. record { table = t.table.shared.table_id; items = t.items } };

    ghost invariant = { λ t. (t.table.shared.table_id.words ≡ 3 * length (I.keys t.items).classes + 1) × (t.table.shared.table_id.slots ≡ 0) × (length (I.keys t.items).classes ≤ 2000000) × (t.is_kept.items ≡ replicate (length (I.keys t.items).classes) false) × (length t.kept.items ≡ length (I.keys t.items).classes) };
}

/// A worker's right to offer items to a table. Contracts see its table, what the items are, the items that it has
/// offered, and its share of 64.
#[derive(Drop)]
pub struct KeySeat {
    seat: Seat<u8, KeyView>,
}

impl Model for KeySeat {
    ghost use Rattle.std.specs.Prelude.{◌≡◌, ◌≤◌, [], false};
    ghost use Rattle.dv_board.specs.KeyTables.{Offerer, offerer_of};

    ghost Value = { Offerer };

    ghost view = { λ s. offerer_of s.seat.table_id s.seat.me.0 };

    ghost invariant = { λ s. (s.seat.me.1 ≡ []) × (s.seat.me.0.is_spent ≡ false) × (s.seat.me.0.is_probing ≡ false) × (1 ≤ s.seat.me.0.share) };
}

impl<I: KeyItems> KeyTable<I> {
    /// A table of these items, into which none is offered yet, and the seat that has the whole share, which is 64.
    ///
    /// For want of memory an `AllocError`, and the items are dropped.
    pub fn new(alloc: Global, items: I) -> Result<(KeyTable<I>, KeySeat), AllocError>
        requires { length (I.keys items).classes ≤ 2000000 }
        ensures items { IfOk result (λ r. r.0.items ≡ items) }
        ensures seat { IfOk result (λ r. r.1 ≡ record { table = r.0.table; keys = I.keys items; offers = []; share = 64 }) }
    {
        let count = items.count() as usize;
        let is_kept = vec![in alloc; false; count]?;
        let kept = vec![in alloc; 0u32; count]?;
        let slots = 3 * count + 1;
        let empty = vec![in alloc; 0u64; slots]?;
        let (table, mut seat) = Table::of_words(alloc, &empty, &slots)?;
        begin::<Brand, I>(&table, &mut seat, &items);
        let table = KeyTable {
            table,
            items,
            is_kept,
            kept,
        };
        Ok((table, KeySeat { seat }))
    }

    /// Offers an item: from then on its key has a slot, whose item is not greater.
    pub fn offer(&self, seat: &mut KeySeat, item: u32)
        requires mine { IsSeatOf I.keys self.now seat.old }
        requires item { item < length (I.keys self.now.items).classes }
        ensures { seat.new ≡ record seat.old { offers = seat.old.offers ++ item ∷ [] } }
    {
        let home = self.first_slot(item);
        self.probe(seat, item, home, true);
    }

    /// Offers items in their order, at most `TOGETHER`. The slots at which their probes begin, and the items found there, are
    /// looked at before, for all items together, so that the processor waits for many of them at once.
    pub fn offer_all(&self, seat: &mut KeySeat, items: &[u32])
        requires mine { IsSeatOf I.keys self.now seat.old }
        requires few { length items.now ≤ 32 }
        requires items { All (λ item. item < length (I.keys self.now.items).classes) items.now }
        ensures { seat.new ≡ record seat.old { offers = seat.old.offers ++ items.now } }
    {
        let homes = self.first_slots(items);
        let words = self.words_at(&mut seat.seat, &homes, items.len());
        let is_met = self.are_met(items, &words);
        'offers: for place in 0..items.len() {
            self.probe(seat, items[place], homes[place], is_met[place]);
        }
    }

    // The slot at which a probe for the item begins.
    fn first_slot(&self, item: u32) -> usize
        requires { item < length (I.keys self.now.items).classes }
        ensures { result ≡ home_of (I.keys self.now.items) item }
    {
        let count = self.items.count();
        (self.items.home(item) % (2 * u64::from(count) + 1)) as usize
    }

    // The slots at which probes for these items begin, in the items' order.
    fn first_slots(&self, items: &[u32]) -> [usize; TOGETHER]
        requires few { length items.now ≤ 32 }
        requires items { All (λ item. item < length (I.keys self.now.items).classes) items.now }
        ensures { AreFirstSlots (I.keys self.now.items) items.now result }
    {
        let mut homes = [0; TOGETHER];
        'homes: for place in 0..items.len() {
            homes[place] = self.first_slot(items[place]);
        }
        homes
    }

    // What stands in the first of these slots.
    fn words_at(
        &self,
        seat: &mut Seat<u8, KeyView>,
        slots: &[usize; TOGETHER],
        count: usize,
    ) -> [u64; TOGETHER]
        requires mine { seat.old.table_id ≡ self.now.table }
        requires classes { seat.old.me.0.classes ≡ (I.keys self.now.items).classes }
        requires homes { seat.old.me.0.homes ≡ (I.keys self.now.items).homes }
        requires live { (seat.old.me.0.is_spent ≡ false) × (1 ≤ seat.old.me.0.share) }
        requires few { count ≤ 32 }
        requires slots { AreSlots (I.keys self.now.items) count slots.now }
        ensures stays { (seat.new.table_id ≡ seat.old.table_id) × (seat.new.me ≡ seat.old.me) }
        ensures words { AreWords (I.keys self.now.items) result }
    {
        let mut words = [0; TOGETHER];
        'words: for place in 0..count {
            words[place] = self.table.shared.load::<Peek>(seat, slots[place]);
        }
        words
    }

    // Whether each of these items is the same as the one that was found where its probe begins.
    fn are_met(&self, items: &[u32], words: &[u64; TOGETHER]) -> [bool; TOGETHER]
        requires few { length items.now ≤ 32 }
        requires items { All (λ item. item < length (I.keys self.now.items).classes) items.now }
        requires words { AreWords (I.keys self.now.items) words.now }
        ensures { length result ≡ 32 }
    {
        let mut is_met = [false; TOGETHER];
        'items: for place in 0..items.len() {
            let word = words[place];
            is_met[place] = word != 0 && self.items.same((word - 1) as u32, items[place]);
        }
        is_met
    }

    // Offers the item by a probe that begins at `home`, and looks at each slot before it writes there, or writes at once.
    fn probe(&self, seat: &mut KeySeat, item: u32, home: usize, looks: bool)
        requires mine { IsSeatOf I.keys self.now seat.old }
        requires item { item < length (I.keys self.now.items).classes }
        requires home { home ≡ home_of (I.keys self.now.items) item }
        ensures { seat.new ≡ record seat.old { offers = seat.old.offers ++ item ∷ [] } }
    {
        'probe: for passed in 0..self.items.count() {
            let slot = home + passed as usize;
            if looks && self.is_settled::<Brand>(&mut seat.seat, slot, item) {
                return;
            }
            if self.try_slot(&mut seat.seat, slot, item) {
                return;
            }
        }
        unreachable!()
    }

    // Whether the slot is taken by an item that is the same and not greater: to have seen it finishes the offer.
    fn is_settled<O: Offer>(&self, seat: &mut Seat<u8, KeyView>, slot: usize, item: u32) -> bool
        requires mine { seat.old.table_id ≡ self.now.table }
        requires classes { seat.old.me.0.classes ≡ (I.keys self.now.items).classes }
        requires homes { seat.old.me.0.homes ≡ (I.keys self.now.items).homes }
        requires item { item < length (I.keys self.now.items).classes }
        requires probing { IsProbing seat.old.me.0 item (begun seat.old.me.0 item).passed seat.old.me.0 }
        requires share { 1 ≤ seat.old.me.0.share }
        requires slot { slot < 3 * length (I.keys self.now.items).classes + 1 }
        requires picked { item ≡ O.item }
        ensures mine { seat.new.table_id ≡ seat.old.table_id }
        ensures free { seat.new.me.1 ≡ seat.old.me.1 }
        ensures finished { result ≡ true → HasOffered seat.old.me.0 item seat.new.me.0 }
        ensures left { result ≡ false → seat.new.me.0 ≡ seat.old.me.0 }
    {
        let found = self.table.shared.load::<Look<O>>(seat, slot);
        found != 0 && found - 1 <= u64::from(item) && self.items.same((found - 1) as u32, item)
    }

    // Takes the slot for the item, or lowers it to the item where it is taken by one that is the same. Whether the offer
    // is finished by that; else the probe has passed the slot, and another one is left.
    fn try_slot(&self, seat: &mut Seat<u8, KeyView>, slot: usize, item: u32) -> bool
        requires mine { seat.old.table_id ≡ self.now.table }
        requires free { seat.old.me.1 ≡ [] }
        requires classes { seat.old.me.0.classes ≡ (I.keys self.now.items).classes }
        requires homes { seat.old.me.0.homes ≡ (I.keys self.now.items).homes }
        requires item { item < length (I.keys self.now.items).classes }
        requires probing { IsProbing seat.old.me.0 item (begun seat.old.me.0 item).passed seat.old.me.0 }
        requires share { 1 ≤ seat.old.me.0.share }
        requires inside { (begun seat.old.me.0 item).passed < length (I.keys self.now.items).classes }
        requires slot { slot ≡ home_of (I.keys self.now.items) item + (begun seat.old.me.0 item).passed }
        ensures mine { seat.new.table_id ≡ seat.old.table_id }
        ensures free { seat.new.me.1 ≡ [] }
        ensures finished { result ≡ true → HasOffered seat.old.me.0 item seat.new.me.0 }
        ensures passed { result ≡ false → IsProbing seat.old.me.0 item ((begun seat.old.me.0 item).passed + 1) seat.new.me.0 }
        ensures left { result ≡ false → (begun seat.old.me.0 item).passed + 1 < length (I.keys self.now.items).classes }
    {
        let word = u64::from(item) + 1;
        let found = self
            .table
            .shared
            .compare_exchange::<Place>(seat, slot, 0, word);
        if found == 0 {
            return true;
        }
        let is_same = self.items.same((found - 1) as u32, item);
        if is_same {
            self.table.shared.fetch_min::<Lower>(seat, slot, word);
        }
        is_same
    }

    /// Cuts `share` off the seat's share for a new seat, which has offered nothing.
    pub fn split(&self, seat: &mut KeySeat, share: u32) -> KeySeat
        requires mine { IsSeatOf I.keys self.now seat.old }
        requires share { (1 ≤ share) × (share < seat.old.share) }
        ensures left { seat.new ≡ record seat.old { share = seat.old.share - share } }
        ensures right { result ≡ record seat.old { offers = []; share = share } }
    {
        self.cut::<Brand>(seat, share)
    }

    fn cut<P: Portion>(&self, seat: &mut KeySeat, share: u32) -> KeySeat
        requires mine { IsSeatOf I.keys self.now seat.old }
        requires share { (1 ≤ share) × (share < seat.old.share) }
        requires picked { share ≡ P.share }
        ensures left { seat.new ≡ record seat.old { share = seat.old.share - share } }
        ensures right { result ≡ record seat.old { offers = []; share = share } }
    {
        let other = self.table.shared.split_seat::<CutOffers<P>>(&mut seat.seat);
        KeySeat { seat: other }
    }

    /// Takes another seat of this table in, with what it has offered and its share.
    pub fn join(&self, seat: &mut KeySeat, other: KeySeat)
        requires seat { IsSeatOf I.keys self.now seat.old }
        requires other { IsSeatOf I.keys self.now other }
        ensures { seat.new ≡ record seat.old { offers = seat.old.offers ++ other.offers; share = seat.old.share + other.share } }
    {
        let KeySeat { seat: other } = other;
        self.table
            .shared
            .join_seat::<MergeOffers>(&mut seat.seat, other);
    }

    /// The items of the table, and, ascending, for each class of offered items that are the same, the least offered one.
    pub fn close(self, seat: KeySeat) -> (I, Vec<u32>)
        requires mine { IsSeatOf I.keys self seat }
        requires whole { seat.share ≡ 64 }
        ensures items { result.0 ≡ self.items }
        ensures least { AreLeastOffered (I.keys self.items) seat.offers result.1.items }
    {
        let KeySeat { seat } = seat;
        let KeyTable {
            table,
            items,
            mut is_kept,
            kept,
        } = self;
        let slots = table.word_count();
        let closed = table.close_with(seat);
        mark_taken(&closed, slots, &mut is_kept);
        closed.free();
        (items, list_marked(&is_kept, kept))
    }
}

// Tells the seat of a new table what the items are.
fn begin<A: About, I: KeyItems>(
    table: &Table<u8, KeyView, usize, KeyRule, Global>,
    seat: &mut Seat<u8, KeyView>,
    items: &I,
)
    requires mine { seat.old.table_id ≡ table.now.shared.table_id }
    requires fresh { seat.old.me ≡ (fresh_view, []) }
    requires size { (table.now.shared.key ≡ 3 * length A.keys.classes + 1) × (table.now.shared.table_id.words ≡ table.now.shared.key) }
    requires picked { A.keys ≡ I.keys items.now }
    ensures mine { seat.new.table_id ≡ seat.old.table_id }
    ensures told { seat.new.me ≡ (first_view (I.keys items.now), []) }
{
    table.shared.load::<Begin<A>>(seat, 0);
}
