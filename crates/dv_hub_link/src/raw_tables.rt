// The tables of hubs and links as raw tables.
ghost use Rattle.dv_records.specs.declared.stores.Rows.TheVariants as rows_of;
ghost use Rattle.dv_hub_link.specs.RawTables as spec;

use crate::hub_table::HubTable;
use crate::link_table::LinkTable;
use dv_records::{RawTable, Rows};
use dv_text::Memory;

impl RawTable for HubTable {
    ghost held = { λ table. rows_of.Hubs table.rows };

    ghost spare = { λ table. table.spare };

    ghost follow = { spec.HubsFollow };

    fn reserve(&mut self, more: u64) -> Result<(), Memory> {
        HubTable::reserve(self, more)
    }

    fn append(&mut self, more: Rows) {
        if let Rows::Hubs(rows) = more {
            self.apply(rows);
        }
    }
}

impl RawTable for LinkTable {
    ghost held = { λ table. rows_of.Links table.rows };

    ghost spare = { λ table. table.spare };

    ghost follow = { spec.LinksFollow };

    fn reserve(&mut self, more: u64) -> Result<(), Memory> {
        LinkTable::reserve(self, more)
    }

    fn append(&mut self, more: Rows) {
        if let Rows::Links(rows) = more {
            self.apply(rows);
        }
    }
}
