// What is done alike with rows of every kind.
ghost use Rattle.std.specs.Prelude.{◌≡◌, ◌<◌, ◌==◌, ◌^◌, IfOk, OnErr, OnOk};
ghost use Rattle.dv_records.specs.Stores as stores;

use crate::pages::part;
use crate::stores::Rows;
use dv_catalog::TableId;
use dv_text::{List, Memory};
use std::alloc::Global;

// One expression for the list of rows of whichever kind.
macro_rules! each_kind {
    ($rows:expr, $list:ident => $done:expr) => {
        match $rows {
            Rows::Hubs($list) => $done,
            Rows::Links($list) => $done,
            Rows::Sats($list) => $done,
            Rows::Multis($list) => $done,
            Rows::Statuses($list) => $done,
            Rows::Effects($list) => $done,
            Rows::Pits($list) => $done,
            Rows::Bridges($list) => $done,
        }
    };
}

// Rows of the same kind, whose list is made of theirs.
macro_rules! same_kind {
    ($rows:expr, $list:ident => $made:expr) => {
        match $rows {
            Rows::Hubs($list) => Rows::Hubs($made),
            Rows::Links($list) => Rows::Links($made),
            Rows::Sats($list) => Rows::Sats($made),
            Rows::Multis($list) => Rows::Multis($made),
            Rows::Statuses($list) => Rows::Statuses($made),
            Rows::Effects($list) => Rows::Effects($made),
            Rows::Pits($list) => Rows::Pits($made),
            Rows::Bridges($list) => Rows::Bridges($made),
        }
    };
}

pub(crate) use each_kind;
pub(crate) use same_kind;

impl Rows {
    /// No rows, of a table's kind: `Rows::Links` for a link's table. Takes no memory.
    pub fn none_of(alloc: Global, table: TableId) -> Rows
        ensures { result ≡ stores.no_rows table }
    {
        match table {
            TableId::Hub(_) => Rows::Hubs(List::new(alloc)),
            TableId::Link(_) => Rows::Links(List::new(alloc)),
            TableId::Sat(_) => Rows::Sats(List::new(alloc)),
            TableId::Multi(_) => Rows::Multis(List::new(alloc)),
            TableId::Status(_) => Rows::Statuses(List::new(alloc)),
            TableId::Effect(_) => Rows::Effects(List::new(alloc)),
        }
    }

    /// Whether they are of a table's kind. Takes no memory. Rows of hubs are of the kind of
    /// `TableId::Hub(1)`, and rows of links aren't.
    pub fn is_of_kind(&self, table: TableId) -> bool
        ensures { result ≡ stores.is_of_kind table self.now }
    {
        match (table, self) {
            (TableId::Hub(_), Rows::Hubs(_)) => true,
            (TableId::Link(_), Rows::Links(_)) => true,
            (TableId::Sat(_), Rows::Sats(_)) => true,
            (TableId::Multi(_), Rows::Multis(_)) => true,
            (TableId::Status(_), Rows::Statuses(_)) => true,
            (TableId::Effect(_), Rows::Effects(_)) => true,
            _ => false,
        }
    }

    /// How many there are. Takes no memory.
    pub fn count(&self) -> u64
        ensures value { result ≡ stores.row_count self.now }
        ensures bound { result < 2 ^ 63 }
    {
        each_kind!(self, rows => rows.items().len() as u64)
    }

    /// Whether there are none. Takes no memory.
    pub fn is_empty(&self) -> bool
        ensures { result ≡ (stores.row_count self.now == 0) }
    {
        self.count() == 0
    }

    /// Puts rows behind these, whose list grows in place. Rows of another kind are dropped. Hub
    /// rows `b` and `c` behind `a` make `a`, `b` and `c`; link rows behind the hub row `a` leave it
    /// alone.
    pub fn put_behind(&mut self, more: Rows) -> Result<(), Memory>
        ensures ok { OnOk result (self.new ≡ stores.rows_then self.old more) }
        ensures err { OnErr result (self.new ≡ self.old) }
    {
        match (self, more) {
            (Rows::Hubs(rows), Rows::Hubs(more)) => rows.append(more),
            (Rows::Links(rows), Rows::Links(more)) => rows.append(more),
            (Rows::Sats(rows), Rows::Sats(more)) => rows.append(more),
            (Rows::Multis(rows), Rows::Multis(more)) => rows.append(more),
            (Rows::Statuses(rows), Rows::Statuses(more)) => rows.append(more),
            (Rows::Effects(rows), Rows::Effects(more)) => rows.append(more),
            (Rows::Pits(rows), Rows::Pits(more)) => rows.append(more),
            (Rows::Bridges(rows), Rows::Bridges(more)) => rows.append(more),
            _ => Ok(()),
        }
    }

    /// At most `most` of them, from place `from` on. Of `a`, `b`, `c` and `d` the two from place 1
    /// on are `b` and `c`.
    pub fn page(&self, alloc: Global, from: u64, most: u32) -> Result<Rows, Memory>
        ensures { IfOk result (λ made. made ≡ stores.page from most self.now) }
    {
        Ok(same_kind!(self, rows => part(alloc, rows.items(), from, most)?))
    }
}
