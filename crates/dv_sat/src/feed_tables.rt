// A satellite as a raw table of a feed.
ghost use Rattle.std.specs.Prelude.{◌≡◌, ◌<◌, [], IfOk, IfSome, IsTrue, length, option_map};
ghost use Rattle.std.specs.List.{list_all};
ghost use Rattle.dv_text.specs.Keys.{hashes_of};
ghost use Rattle.dv_digest.specs.Fits as fits;
ghost use Rattle.dv_digest.specs.HashedExtracts.{HasKeys};
ghost use Rattle.dv_catalog.specs.Feeds.{source};
ghost use Rattle.dv_records.specs.declared.stores.Rows.TheVariants.{Sats};
ghost use Rattle.dv_records.specs.RawTables.{extract_added, extract_at};
ghost use Rattle.dv_records.specs.RowViews.{AreOfLoad, is_up_to};
ghost use Rattle.dv_sat.specs.FeedTables as spec;

use crate::sat_tables::SatTable;
use dv_catalog::Catalog;
use dv_digest::HashedExtract;
use dv_records::{RawTable, Rows};
use dv_text::{KeyDigest, List, Memory, Stamp};

impl RawTable for SatTable {
    ghost held = { λ table. Sats table.rows };

    ghost spare = { λ table. table.spare };

    ghost follow = { spec.Follow };

    fn reserve(&mut self, more: u64) -> Result<(), Memory> {
        SatTable::reserve(self, more)
    }

    fn append(&mut self, more: Rows) {
        if let Rows::Sats(rows) = more {
            self.apply(rows);
        }
    }
}

impl SatTable {
    /// The rows that a feed's extract adds; none where there is no extract. They have the load date, and may
    /// stand behind those of the table. Conditions: the feed is in the mapping, the extract has its hash keys,
    /// the attributes are no longer than those of staged rows, and no row of the table is later than the load
    /// date.
    pub fn additions<H: KeyDigest>(
        &self,
        load: Stamp,
        feed: u32,
        extract: Option<&HashedExtract<'_>>,
        catalog: &Catalog,
        digest: &H,
    ) -> Result<Rows, Memory>
        requires feed { feed < length catalog.now.feeds }
        requires staged { IfSome extract (λ extract. extract.now.staged.now.feed ≡ feed) }
        requires keys { IfSome extract (λ extract. HasKeys (hashes_of H.function) extract.now) }
        requires attrs_fit { IfSome extract (λ extract. IsTrue (list_all (λ row. fits.attrs_fit row.attrs) extract.now.staged.now.rows)) }
        requires not_later { IsTrue (is_up_to load (Sats self.now.rows)) }
        ensures rows { IfOk result (λ rows. rows ≡ extract_added (spec.sats_added (hashes_of H.function) (source catalog.now feed) (Sats self.now.rows)) (Sats []) (option_map (λ extract. extract_at load extract.now.staged.now) extract.entry)) }
        ensures stamped { IfOk result (AreOfLoad load) }
        ensures follow { IfOk result (spec.Follow (Sats self.now.rows)) }
    {
        match extract {
            Some(extract) => {
                let rows = self.delta(load, extract, catalog, digest)?;
                Ok(Rows::Sats(rows))
            }
            None => {
                self.note_order();
                Ok(Rows::Sats(List::new(self.allocator())))
            }
        }
    }
}
