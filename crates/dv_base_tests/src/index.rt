// Rows with an index.
ghost use Rattle.std.specs.Prelude.{◌≡◌, is_none, nat_le};
ghost use Rattle.std.specs.List.{list_all};
ghost use Rattle.dv_index.specs.Places.{are_in_load_order};

use dv_index::{IndexedRows, Placed, Succession};
use dv_text::{Digest, List, Memory, Stamp};
use std::alloc::Global;

// A row of these tests, told by its number.
#[derive(Clone, Copy, Drop)]
struct Row {
    number: u64,
    parent: Digest,
    load: Stamp,
}

impl Placed for Row {
    ghost place = { λ row. record { parent = row.parent; load = row.load } };

    fn parent(&self) -> &Digest {
        &self.parent
    }

    fn load(&self) -> Stamp {
        self.load
    }
}

// Each parent has one row.
struct Once;

impl Succession<Row> for Once {
    ghost fits = { λ once last row. is_none last };

    fn fits(&self, last: Option<&Row>, _row: &Row) -> bool {
        last.is_none()
    }
}

// The ninth byte of a parent, the last one, and the others, which are the same.
type Name = [u8; 3];

// Parents that begin alike, and days; the rows are numbered from 0.
const TIED: &[(Name, i64)] = &[
    ([1, 0, 5], 1),
    ([2, 0, 5], 1),
    ([1, 9, 5], 2),
    ([1, 0, 5], 3),
];

// A parent and a day, and the number of the parent's last row that is not later.
const LATEST_TIED: &[(Name, i64, Option<u64>)] = &[
    ([1, 0, 5], 0, None),
    ([1, 0, 5], 2, Some(0)),
    ([1, 0, 5], 3, Some(3)),
    ([1, 4, 5], 9, None),
    ([1, 9, 5], 1, None),
    ([1, 9, 5], 2, Some(2)),
    ([2, 0, 5], 9, Some(1)),
    ([0, 9, 5], 9, None),
    ([2, 1, 5], 9, None),
];

fn parent([ninth, last, other]: Name) -> Digest {
    let mut bytes = [other; 16];
    bytes[8] = ninth;
    bytes[15] = last;
    Digest::of(&bytes).unwrap()
}

fn day(number: i64) -> Stamp {
    Stamp::from_number(number).unwrap_or(Stamp::OPEN)
}

fn rows(alloc: Global, first: u64, places: &[(Name, i64)]) -> Result<Vec<Row>, Memory> {
    let mut made = Vec::new(alloc);
    for ((name, load), number) in places.iter().copied().zip(first..) {
        made.push(Row {
            number,
            parent: parent(name),
            load: day(load),
        })?;
    }
    Ok(made)
}

fn none_earlier<R: Placed>(row: &R, others: &[R]) -> bool
    ensures { result ≡ list_all (λ other. nat_le (R.place row.now).load (R.place other).load) others.now }
{
    others.iter().all(|other| row.load() <= other.load())
}

fn are_in_order<R: Placed>(rows: &[R]) -> bool
    ensures { result ≡ are_in_load_order R.place rows.now }
{
    let mut left = rows;
    while let Some((row, rest)) = left.split_first() {
        if !none_earlier(row, rest) {
            return false;
        }
        left = rest;
    }
    true
}

// The table of rows that are in load order.
fn table(alloc: Global, places: &[(Name, i64)]) -> Option<IndexedRows<Row>> {
    let rows = rows(alloc, 0, places).ok()?;
    if !are_in_order(&rows) {
        return None;
    }
    IndexedRows::from_rows(alloc, List::from_vec(rows)).ok()
}

// Puts rows behind those of a table, with which they are in load order.
fn append(alloc: Global, table: &mut IndexedRows<Row>, places: &[(Name, i64)]) -> Option<()> {
    let new = rows(alloc, table.rows().len() as u64, places).ok()?;
    let mut all = Vec::from_slice(alloc, table.rows()).ok()?;
    all.extend_from_slice(&new).ok()?;
    if !are_in_order(&all) {
        return None;
    }
    table.reserve(new.len() as u64).ok()?;
    table.apply(List::from_vec(new));
    Some(())
}

fn number(row: Option<&Row>) -> Option<u64> {
    row.map(|row| row.number)
}

fn latest(table: &IndexedRows<Row>, name: Name, date: i64) -> Option<u64> {
    number(table.latest(&parent(name), day(date)))
}

fn named(alloc: Global, names: &[Name]) -> Result<Vec<Digest>, Memory> {
    let mut parents = Vec::new(alloc);
    for name in names {
        parents.push(parent(*name))?;
    }
    Ok(parents)
}

fn have_numbers(rows: &[Option<&Row>], numbers: &[Option<u64>]) -> bool {
    rows.len() == numbers.len()
        && rows
            .iter()
            .zip(numbers)
            .all(|(row, wanted)| number(*row) == *wanted)
}

// Whether the last rows of parents, none of which is later, have these numbers.
fn are_latest(
    alloc: Global,
    table: &IndexedRows<Row>,
    names: &[Name],
    date: i64,
    numbers: &[Option<u64>],
) -> Result<bool, Memory> {
    let parents = named(alloc, names)?;
    let found = table.latest_of(&parents, day(date))?;
    Ok(have_numbers(&found, numbers))
}

// Whether these are the numbers of the last rows of all parents.
fn are_latest_of_each(
    table: &IndexedRows<Row>,
    date: i64,
    numbers: &[u64],
) -> Result<bool, Memory> {
    let found = table.latest_of_each(day(date))?;
    Ok(
        found.len() == numbers.len()
            && found
                .iter()
                .zip(numbers)
                .all(|(row, wanted)| row.number == *wanted),
    )
}

#[test]
fn parents_that_begin_alike_are_told_apart(rt: HostRuntime) {
    let alloc = rt.alloc();
    let table = table(alloc, TIED).expect(&rt, "a table");
    for (name, date, number) in LATEST_TIED {
        assert!(rt; latest(&table, *name, *date) == *number, "{name:?} {date}");
    }
    let asked = [[2, 0, 5], [1, 4, 5], [1, 9, 5], [1, 0, 5]];
    let numbers = [Some(1), None, Some(2), Some(0)];
    assert!(rt; are_latest(alloc, &table, &asked, 2, &numbers) == Ok(true));
    assert!(rt; are_latest_of_each(&table, 9, &[3, 2, 1]) == Ok(true));
    assert!(rt; table.fit_count(&Once) == 3);
}

const FAR_AND_NEAR: &[Name] = &[
    [0; 3], [1; 3], [2; 3], [3; 3], [40; 3], [41; 3], [42; 3], [100; 3], [196; 3], [197; 3],
    [198; 3], [199; 3], [7; 3], [6; 3], [255; 3], [0; 3],
];

const NUMBERS: &[Option<u64>] = &[
    Some(99),
    None,
    Some(98),
    None,
    Some(79),
    None,
    Some(78),
    Some(49),
    Some(1),
    None,
    Some(0),
    None,
    None,
    Some(96),
    None,
    Some(99),
];

// A hundred parents of even bytes, the greatest first.
fn even() -> [(Name, i64); 100] {
    let mut places = [([0; 3], 1); 100];
    for n in 0..100 {
        places[n] = ([198 - 2 * n as u8; 3], 1);
    }
    places
}

#[test]
fn far_and_near_parents_are_found_from_one_another(rt: HostRuntime) {
    let alloc = rt.alloc();
    let table = table(alloc, &even()).expect(&rt, "a table");
    assert!(rt; are_latest(alloc, &table, FAR_AND_NEAR, 1, NUMBERS) == Ok(true));
}

// Load dates of three rows each, which come behind the hundred: of a parent between them, of one of them, and of one
// behind them. After each the number of the last row of the one of them, and those of `ASKED_LATER`.
const LATER: &[(i64, Option<u64>, &[Option<u64>])] = &[
    (
        2,
        Some(101),
        &[Some(102), Some(100), Some(96), Some(101), None],
    ),
    (
        3,
        Some(104),
        &[Some(105), Some(103), Some(96), Some(104), None],
    ),
    (
        4,
        Some(107),
        &[Some(108), Some(106), Some(96), Some(107), None],
    ),
    (
        5,
        Some(110),
        &[Some(111), Some(109), Some(96), Some(110), None],
    ),
];

const ASKED_LATER: &[Name] = &[[255; 3], [7; 3], [6; 3], [40; 3], [41; 3]];

fn parent_count(table: &IndexedRows<Row>, date: i64) -> Result<usize, Memory> {
    let found = table.latest_of_each(day(date))?;
    Ok(found.len())
}

#[test]
fn a_few_rows_behind_many_are_found(rt: HostRuntime) {
    let alloc = rt.alloc();
    let mut table = table(alloc, &even()).expect(&rt, "a table");
    for (load, number, numbers) in LATER {
        let rows = [([7; 3], *load), ([40; 3], *load), ([255; 3], *load)];
        assert!(rt; append(alloc, &mut table, &rows).is_some());
        assert!(rt;
            are_latest(alloc, &table, ASKED_LATER, *load, numbers) == Ok(true),
            "{load}"
        );
        assert!(rt; latest(&table, [40; 3], *load) == *number, "{load}");
        assert!(rt; latest(&table, [40; 3], 1) == Some(79), "{load}");
        assert!(rt; latest(&table, [7; 3], 1).is_none(), "{load}");
        assert!(rt; parent_count(&table, *load) == Ok(102), "{load}");
        assert!(rt; parent_count(&table, 1) == Ok(100), "{load}");
        assert!(rt; table.fit_count(&Once) == 101, "{load}");
    }
}
