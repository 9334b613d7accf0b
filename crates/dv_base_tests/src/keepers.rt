// The keeper in memory.
ghost use Rattle.std.specs.Prelude.{IfOk, IsTrue};
ghost use Rattle.dv_records.specs.Stores.{is_of_kind};
ghost use Rattle.dv_catalog.specs.declared.tables.TableId.TheVariants.{Hub};

use crate::values::{feeds, key};
use dv_catalog::TableId;
use dv_records::{Fail, HubRow, Keeper, KeeperError, MemoryKeeper, Rows};
use dv_text::{Digest, List, Memory, Stamp, Text, Window, WindowHead};
use std::alloc::Global;

fn hub_row(alloc: Global, part: &[u8]) -> Result<HubRow, Memory> {
    let source = Text::of(alloc, b"crm.customers")?;
    let key = key(alloc, part)?;
    Ok(HubRow {
        digest: Digest::zero(16),
        load: Stamp::OPEN,
        source,
        key,
    })
}

fn hub_rows(alloc: Global, keys: &[&[u8]]) -> Result<Rows, Memory>
    ensures { IfOk result (λ rows. IsTrue (is_of_kind (Hub 0) rows)) }
{
    let mut rows = List::new(alloc);
    for key in keys {
        rows.push(hub_row(alloc, key)?)?;
    }
    Ok(Rows::Hubs(rows))
}

// The load date of the windows.
fn first_of_march() -> Stamp {
    Stamp::read(b"2024-03-01T02:00:00").unwrap_or(Stamp::OPEN)
}

// Whether this is the one head that there is.
fn is_only_head(heads: Result<List<WindowHead>, KeeperError>, head: &WindowHead) -> bool {
    match heads {
        Ok(heads) => match heads.items() {
            [only] => only == head,
            _ => false,
        },
        Err(_) => false,
    }
}

#[test]
fn a_window_is_opened_and_sealed(rt: HostRuntime) {
    let alloc = rt.alloc();
    let load = first_of_march();
    let feeds = feeds(alloc).expect(&rt, "memory");
    let head = WindowHead { load, feeds };
    let window = Window {
        load,
        extracts: List::new(alloc),
    };
    let mut keeper = MemoryKeeper::new(alloc, List::new(alloc));
    assert!(rt; keeper.put_stage(alloc, &window) == Ok(()));
    assert!(rt; keeper.stage(alloc) == Ok(Some(window)));
    assert!(rt; keeper.seal(alloc, &head) == Ok(()));
    assert!(rt; keeper.stage(alloc) == Ok(None));
    assert!(rt; is_only_head(keeper.windows(alloc), &head));
}

// Whether a page of the table has the rows of these keys.
fn is_page(alloc: Global, keeper: &mut MemoryKeeper, page: (u64, u32), keys: &[&[u8]]) -> bool {
    let (from, most) = page;
    match hub_rows(alloc, keys) {
        Ok(rows) => most > 0 && keeper.rows(alloc, TableId::Hub(0), from, most) == Ok(rows),
        Err(Memory) => false,
    }
}

const PAGES: &[((u64, u32), &[&[u8]])] = &[
    ((0, 9), &[b"A", b"B", b"C"]),
    ((0, 2), &[b"A", b"B"]),
    ((1, 1), &[b"B"]),
    ((2, 2), &[b"C"]),
    ((3, 1), &[]),
    ((9, 1), &[]),
];

#[test]
fn rows_are_appended_and_come_in_pages(rt: HostRuntime) {
    let alloc = rt.alloc();
    let first = hub_rows(alloc, &[b"A", b"B"]).expect(&rt, "memory");
    let second = hub_rows(alloc, &[b"C"]).expect(&rt, "memory");
    let mut keeper = MemoryKeeper::new(alloc, List::new(alloc));
    assert!(rt; keeper.append(alloc, TableId::Hub(0), &first) == Ok(()));
    assert!(rt; keeper.append(alloc, TableId::Hub(0), &second) == Ok(()));
    for (page, keys) in PAGES {
        assert!(rt; is_page(alloc, &mut keeper, *page, keys), "{page:?}");
    }
}

const FAILS: &[(u64, bool)] = &[(2, true), (0, false), (1, false), (1, true), (0, true)];

fn fails(alloc: Global) -> Result<List<Fail>, Memory> {
    let mut made = List::new(alloc);
    for (change, done) in FAILS {
        made.push(Fail {
            change: *change,
            done: *done,
        })?;
    }
    Ok(made)
}

#[test]
fn planned_failures_come_in_turn(rt: HostRuntime) {
    let alloc = rt.alloc();
    let mapping = Text::of(alloc, b"[hubs]").expect(&rt, "memory");
    let fails = fails(alloc).expect(&rt, "memory");
    let mut keeper = MemoryKeeper::new(alloc, fails);
    assert!(rt; keeper.put_mapping(alloc, &mapping) == Err(KeeperError::Failed));
    assert!(rt; keeper.store().mapping == None);
    assert!(rt; keeper.put_mapping(alloc, &mapping) == Err(KeeperError::Failed));
    assert!(rt; keeper.mapping(alloc) == Err(KeeperError::Failed));
    assert!(rt; keeper.mapping(alloc) == Err(KeeperError::Failed));
    assert!(rt; keeper.mapping(alloc) == Ok(Some(mapping)));
}
