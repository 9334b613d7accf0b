ghost use Rattle.std.specs.Prelude.{◌≡◌, ◌<◌, ◌≤◌, length, false, IfOk};
ghost use Rattle.dv_board.specs.TaggedItems.{keys_of};
ghost use Rattle.std.specs.Thread.{IsSync};
ghost use Rattle.dv_board.specs.KeyTables.{IsSeatOf};

use crate::tagged::Tagged;
use crate::{Board, BoardSeat, KeyItems, KeySeat, KeyTable};
use std::alloc::{AllocError, Global};
use std::process::Abort;
use std::test::Fail;
use std::thread::{Threads, join};

#[test]
fn three_tasks_are_drawn_once_each_and_then_none(rt: HostRuntime) -> Result<(), Fail> {
    let (board, mut seat) = Board::new(rt.alloc(), 3, 1)?;
    assert_eq!(rt; board.claim(&mut seat), Some(0));
    assert_eq!(rt; board.claim(&mut seat), Some(1));
    assert_eq!(rt; board.claim(&mut seat), Some(2));
    assert_eq!(rt; board.claim(&mut seat), None);
    assert_eq!(rt; board.close(seat), 3);
    Ok(())
}

#[test]
fn two_seats_draw_from_one_counter(rt: HostRuntime) -> Result<(), Fail> {
    let (board, mut seat) = Board::new(rt.alloc(), 200, 5)?;
    let mut other = board.split(&mut seat, 2);
    assert_eq!(rt; board.claim(&mut other), Some(0));
    assert_eq!(rt; board.claim(&mut seat), Some(1));
    assert_eq!(rt; board.claim(&mut other), Some(2));
    board.join(&mut seat, other);
    assert_eq!(rt; board.claim(&mut seat), Some(3));
    assert_eq!(rt; board.close(seat), 4);
    Ok(())
}

#[test]
fn a_board_of_no_tasks_gives_none(rt: HostRuntime) -> Result<(), Fail> {
    let (board, mut seat) = Board::new(rt.alloc(), 0, 64)?;
    assert_eq!(rt; board.claim(&mut seat), None);
    assert_eq!(rt; board.close(seat), 0);
    Ok(())
}

// Six items in the classes {0, 3}, {1}, {2, 5} and {4}, all with home 7.
fn six_items(alloc: Global) -> Result<(KeyTable<Tagged>, KeySeat), AllocError>
    ensures { IfOk result (λ r. IsSeatOf (λ items. keys_of items.tags.items) r.0 r.1 × (length r.0.items.tags.items ≡ 6) × (r.1.share ≡ 64)) }
{
    let tags = vec![in alloc; 112u64, 113, 114, 112, 116, 114]?;
    KeyTable::new(alloc, Tagged { tags })
}

fn offered_at(place: usize) -> u32
    ensures { result < 6 }
{
    match place {
        0 => 5,
        1 => 3,
        2 => 2,
        3 => 4,
        _ => 0,
    }
}

#[test]
fn the_least_item_of_each_class_is_kept_in_any_order(rt: HostRuntime) -> Result<(), Fail> {
    let mut orders = 0u32;
    for code in 0..3125usize {
        let places = [
            code % 5,
            code / 5 % 5,
            code / 25 % 5,
            code / 125 % 5,
            code / 625,
        ];
        let is_order = (0..5usize).all(|place| places.contains(&place));
        if is_order {
            let (table, mut seat) = six_items(rt.alloc())?;
            let mut other = table.split(&mut seat, 1);
            table.offer(&mut seat, offered_at(places[0]));
            table.offer(&mut other, offered_at(places[1]));
            table.offer(&mut other, offered_at(places[2]));
            table.offer(&mut seat, offered_at(places[3]));
            table.offer(&mut other, offered_at(places[4]));
            table.join(&mut seat, other);
            let (_items, least) = table.close(seat);
            assert_eq!(rt; least.as_slice(), [0u32, 2, 4].as_slice(), "at {code}");
            orders = orders.saturating_add(1);
        }
    }
    assert_eq!(rt; orders, 120);
    Ok(())
}

#[test]
fn an_item_of_a_class_alone_is_kept(rt: HostRuntime) -> Result<(), Fail> {
    let (table, mut seat) = six_items(rt.alloc())?;
    table.offer(&mut seat, 5);
    table.offer(&mut seat, 3);
    let (_items, least) = table.close(seat);
    assert_eq!(rt; least.as_slice(), [3u32, 5].as_slice());
    Ok(())
}

// Offers the items from `from` up to `to`, the greatest first.
fn offer_range<I: KeyItems>(table: &KeyTable<I>, seat: &mut KeySeat, from: u32, to: u32)
    requires seat { IsSeatOf I.keys table.now seat.old }
    requires items { to ≤ length (I.keys table.now.items).classes }
    ensures seat { IsSeatOf I.keys table.now seat.new }
    ensures share { seat.new.share ≡ seat.old.share }
{
    'items: for item in from..to {
        table.offer(seat, to - 1 - (item - from));
    }
}

// The same by so many threads at once.
#[cycle(offering)]
fn offer_by<R: Threads + Sync, I: KeyItems>(
    rt: &R,
    table: &KeyTable<I>,
    mut seat: KeySeat,
    from: u32,
    to: u32,
    workers: u32,
) -> KeySeat
    requires workers { (1 ≤ workers) × (workers ≤ seat.share) }
    requires seat { IsSeatOf I.keys table.now seat }
    requires items { (from ≤ to) × (to ≤ length (I.keys table.now.items).classes) }
    ensures seat { IsSeatOf I.keys table.now result }
    ensures share { result.share ≡ seat.share }
{
    if workers == 1 {
        offer_range(table, &mut seat, from, to);
        return seat;
    }
    let half = workers / 2;
    let rest = workers - half;
    let middle = from + (to - from) / 2;
    let other = table.split(&mut seat, half);
    let front = move || -> KeySeat
        requires { IsSync R.row × (1 ≤ half) × (half ≤ other.share) × IsSeatOf I.keys table.now other × (from ≤ middle) × (middle ≤ length (I.keys table.now.items).classes) }
        ensures { IsSeatOf I.keys table.entry.now result × (result.share ≡ other.share) }
    { offer_by(rt, table, other, from, middle, half) };
    let back = move || -> KeySeat
        requires { IsSync R.row × (1 ≤ rest) × (rest ≤ seat.share) × IsSeatOf I.keys table.now seat × (middle ≤ to) × (to ≤ length (I.keys table.now.items).classes) }
        ensures { IsSeatOf I.keys table.entry.now result × (result.share ≡ seat.share) }
    { offer_by(rt, table, seat, middle, to, rest) };
    let (other, mut seat) = join(rt, front, back);
    table.join(&mut seat, other);
    seat
}

// So many items, of which every hundredth is the same.
fn hundred_classes(alloc: Global, count: usize) -> Result<(KeyTable<Tagged>, KeySeat), AllocError>
    requires { count ≤ 2000000 }
    ensures { IfOk result (λ r. IsSeatOf (λ items. keys_of items.tags.items) r.0 r.1 × (length r.0.items.tags.items ≡ count) × (r.1.share ≡ 64)) }
{
    let mut tags = vec![in alloc; 0u64; count]?;
    for item in 0..count {
        tags[item] = item as u64 % 100;
    }
    KeyTable::new(alloc, Tagged { tags })
}

// Ten times over, each from another item on.
fn keeps_the_least_under_threads<R: Threads + Sync + AllocGlobal + Abort>(
    rt: &R,
    workers: u32,
) -> Result<(), AllocError>
    requires { (1 ≤ workers) × (workers ≤ 64) }
{
    for round in 0..10u32 {
        let low = 37 * round;
        let (table, seat) = hundred_classes(rt.alloc(), 10_000)?;
        let seat = offer_by(rt, &table, seat, low, 10_000, workers);
        let (_items, least) = table.close(seat);
        assert_eq!(rt; least.len(), 100, "round {round}");
        for (place, item) in least.iter().enumerate() {
            assert_eq!(rt; *item as usize, low as usize + place, "round {round}");
        }
    }
    Ok(())
}

#[test]
fn two_threads_keep_the_least_items(rt: HostRuntime) -> Result<(), Fail> {
    keeps_the_least_under_threads(&rt, 2)?;
    Ok(())
}

#[test]
fn eight_threads_keep_the_least_items(rt: HostRuntime) -> Result<(), Fail> {
    keeps_the_least_under_threads(&rt, 8)?;
    Ok(())
}

// The seat with all that it draws until it has a None, and the sum of these numbers.
fn draw_all(board: &Board, mut seat: BoardSeat) -> (BoardSeat, u64)
    requires seat { seat.board ≡ board.now }
    requires fresh { seat.had_none ≡ false }
    ensures seat { result.0.board ≡ board.now }
    ensures share { result.0.share ≡ seat.share }
{
    let mut sum = 0u64;
    let mut next = 0u32;
    'draws: while let Some(task) = board.claim(&mut seat) {
        sum = sum.saturating_add(u64::from(task));
        next = task + 1;
    }
    (seat, sum)
}

fn draw_by_two<R: Threads + Sync>(rt: &R, board: &Board, mut seat: BoardSeat) -> (BoardSeat, u64)
    requires seat { seat.board ≡ board.now }
    requires fresh { (seat.had_none ≡ false) × (seat.share ≡ 2) }
    ensures seat { result.0.board ≡ board.now }
    ensures share { result.0.share ≡ 2 }
{
    let other = board.split(&mut seat, 1);
    let front = move || -> (BoardSeat, u64)
        requires { (other.board ≡ board.now) × (other.had_none ≡ false) }
        ensures { (result.0.board ≡ board.entry.now) × (result.0.share ≡ other.share) }
    { draw_all(board, other) };
    let back = move || -> (BoardSeat, u64)
        requires { (seat.board ≡ board.now) × (seat.had_none ≡ false) }
        ensures { (result.0.board ≡ board.entry.now) × (result.0.share ≡ seat.share) }
    { draw_all(board, seat) };
    let ((other, low), (mut seat, high)) = join(rt, front, back);
    board.join(&mut seat, other);
    (seat, low.saturating_add(high))
}

#[test]
fn two_threads_draw_each_number_once(rt: HostRuntime) -> Result<(), Fail> {
    let (board, seat) = Board::new(rt.alloc(), 256, 2)?;
    let (seat, sum) = draw_by_two(&rt, &board, seat);
    assert_eq!(rt; sum, 255 * 128);
    assert_eq!(rt; board.close(seat), 256);
    Ok(())
}
