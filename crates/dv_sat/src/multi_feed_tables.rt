// A multi-active satellite as a raw table of a feed.
ghost use Rattle.std.specs.Prelude.{◌≡◌, ◌<◌, [], IfOk, IfSome, IsTrue, length, option_map};
ghost use Rattle.std.specs.List.{list_all};
ghost use Rattle.std.specs.List.Sorted.{IsStrictlySortedBy};
ghost use Rattle.dv_text.specs.Orders.{row_cmp};
ghost use Rattle.dv_text.specs.Keys.{hashes_of};
ghost use Rattle.dv_digest.specs.Fits as fits;
ghost use Rattle.dv_digest.specs.HashedExtracts.{HasKeys};
ghost use Rattle.dv_catalog.specs.Feeds.{source};
ghost use Rattle.dv_records.specs.declared.stores.Rows.TheVariants.{Multis};
ghost use Rattle.dv_records.specs.RawTables.{extract_added, extract_at};
ghost use Rattle.dv_records.specs.RowViews.{AreOfLoad, is_up_to};
ghost use Rattle.dv_sat.specs.MultiFeedTables as multi;

use crate::multi_tables::MultiTable;
use dv_catalog::Catalog;
use dv_digest::HashedExtract;
use dv_records::{RawTable, Rows};
use dv_text::{KeyDigest, List, Memory, Stamp};

impl RawTable for MultiTable {
    ghost held = { λ table. Multis table.rows };

    ghost spare = { λ table. table.spare };

    ghost follow = { multi.Follow };

    fn reserve(&mut self, more: u64) -> Result<(), Memory> {
        MultiTable::reserve(self, more)
    }

    fn append(&mut self, more: Rows) {
        if let Rows::Multis(rows) = more {
            self.apply(rows);
        }
    }
}

impl MultiTable {
    /// The rows that a feed's extract adds; none where there is no extract. They have the load date, and may
    /// stand behind those of the table. Conditions: the feed is in the mapping, the extract has its hash keys,
    /// its rows ascend, the attributes are no longer than those of staged rows, and no row of the table is later than the load
    /// date.
    pub fn additions<H: KeyDigest>(
        &self,
        load: Stamp,
        feed: u32,
        extract: Option<&HashedExtract<'_>>,
        catalog: &Catalog,
        digest: &H,
    ) -> Result<Rows, Memory>
        requires feed { feed < length catalog.now.feeds }
        requires staged { IfSome extract (λ extract. extract.now.staged.now.feed ≡ feed) }
        requires keys { IfSome extract (λ extract. HasKeys (hashes_of H.function) extract.now) }
        requires ascending { IfSome extract (λ extract. IsStrictlySortedBy row_cmp extract.now.staged.now.rows) }
        requires attrs_fit { IfSome extract (λ extract. IsTrue (list_all (λ row. fits.attrs_fit row.attrs) extract.now.staged.now.rows)) }
        requires not_later { IsTrue (is_up_to load (Multis self.now.rows)) }
        ensures rows { IfOk result (λ rows. rows ≡ extract_added (multi.multis_added (hashes_of H.function) (source catalog.now feed) (Multis self.now.rows)) (Multis []) (option_map (λ extract. extract_at load extract.now.staged.now) extract.entry)) }
        ensures stamped { IfOk result (AreOfLoad load) }
        ensures follow { IfOk result (multi.Follow (Multis self.now.rows)) }
    {
        match extract {
            Some(extract) => {
                let rows = self.delta(load, extract, catalog, digest)?;
                Ok(Rows::Multis(rows))
            }
            None => {
                self.note_order();
                Ok(Rows::Multis(List::new(self.allocator())))
            }
        }
    }
}
