// A snapshot is given to the keeper.
ghost use Rattle.std.specs.List.{insert, position};
ghost use Rattle.std.specs.Option.{unwrap_or};
ghost use Rattle.std.specs.Prelude.{◌≡◌, ◌++◌, ◌+◌, IfOk, OnOk, false, length, nat_le};
ghost use Rattle.dv_records.specs.Changes.{KeeperCause};
ghost use Rattle.dv_window.specs.Offices.{AgreesUnlessStale};
ghost use Rattle.dv_window.specs.Snapshots.{KeepsInStates, LeavesAll, MayKeep, StaleWhereFailed};

use crate::offices::Office;
use crate::taken_windows::is_failed;
use dv_records::{Keeper, KeeperError, SnapHead, SnapTable};
use dv_text::{List, Memory, Stamp};
use std::alloc::Global;

// The place of the first head that is not earlier than a date, if there is one.
fn first_from(heads: &[SnapHead], date: Stamp) -> Option<usize>
    ensures { result ≡ position (λ head. nat_le date head.date) heads.now }
{
    heads.iter().position(|head| date <= head.date)
}

// The place of the first head that is not earlier than a date; their number where all are.
fn place_of(heads: &[SnapHead], date: Stamp) -> usize
    ensures { result ≡ unwrap_or (position (λ head. nat_le date head.date) heads.now) (length heads.now) }
{
    match first_from(heads, date) {
        Some(place) => place,
        None => heads.len(),
    }
}

// Puts heads at the end of others.
fn push_all(made: &mut List<SnapHead>, heads: &[SnapHead]) -> Result<(), Memory>
    ensures { OnOk result (made.new ≡ made.old ++ heads.now) }
{
    for head in heads {
        made.push(*head)?;
    }
    Ok(())
}

// The heads with one more, before the first that is not earlier.
fn with_head(alloc: Global, heads: &[SnapHead], head: SnapHead) -> Result<List<SnapHead>, Memory>
    ensures count { IfOk result (λ made. length made ≡ length heads.now + 1) }
    ensures made { IfOk result (λ made. made ≡ insert heads.now (unwrap_or (position (λ other. nat_le head.date other.date) heads.now) (length heads.now)) head) }
{
    let place = place_of(heads, head.date);
    let mut made = List::new(alloc);
    push_all(&mut made, &heads[..place])?;
    made.push(head)?;
    push_all(&mut made, &heads[place..])?;
    Ok(made)
}

impl Office {
    /// Stores a snapshot of the sealed windows in one call of the keeper. With `Failed`, which
    /// comes only where the keeper's count of faults rose, the office is stale, and the keeper's
    /// store is as before or has the snapshot. With `Memory` nothing has changed. It is a step of
    /// the machine in a state whose snapshot at the head's date this is, and in which no rule
    /// refuses it. Conditions: the office isn't stale, and its keeper's store, where it is told, is
    /// what the office holds; no stored snapshot has the head's date, no table stands twice, and
    /// with it the snapshots keep their limits. One of 2 March stands between those of 1 and 3
    /// March then.
    pub fn keep_snapshot<K: Keeper>(
        &mut self,
        keeper: &mut K,
        head: &SnapHead,
        tables: &List<SnapTable>,
    ) -> Result<(), KeeperError>
        requires fresh { self.old.stale ≡ false }
        requires agrees { AgreesUnlessStale self.old (K.store keeper.old) }
        requires may { MayKeep self.old.snapshots (record { head = head.now; tables = tables.now }) }
        ensures step { KeepsInStates self.old (K.store keeper.old) (record { head = head.now; tables = tables.now }) result self.new (K.store keeper.new) }
        ensures agrees { AgreesUnlessStale self.new (K.store keeper.new) }
        ensures mapping { self.new.vault.mapping ≡ self.old.vault.mapping }
        ensures width { self.new.width ≡ self.old.width }
        ensures stale { StaleWhereFailed result self.new.stale }
        ensures kept { LeavesAll result self.old self.new (K.store keeper.old) (K.store keeper.new) }
        ensures cause { KeeperCause (K.faults keeper.old) (K.faults keeper.new) result }
    {
        let alloc = self.allocator();
        // Before the store changes, so that nothing needs memory behind the call.
        let snapshots = with_head(alloc, self.snapshots.items(), *head)?;
        if let Err(error) = keeper.put_snapshot(alloc, head, tables) {
            self.stale = is_failed(error);
            return Err(error);
        }
        self.snapshots = snapshots;
        Ok(())
    }
}
