// An effectivity table as a raw table of a feed.
ghost use Rattle.std.specs.Prelude.{◌≡◌, ◌<◌, IfOk, IfSome, IsTrue, length};
ghost use Rattle.dv_text.specs.Keys.{Hashes};
ghost use Rattle.dv_digest.specs.HashedExtracts.{HasKeys};
ghost use Rattle.dv_records.specs.declared.stores.Rows.TheVariants as rows_of;
ghost use Rattle.dv_records.specs.RowViews.{AreOfLoad, is_up_to};
ghost use Rattle.dv_track.specs.EffectFeedTables as spec;

use crate::effect_tables::EffectTable;
use dv_catalog::Catalog;
use dv_digest::HashedExtract;
use dv_records::{RawTable, Rows};
use dv_text::{List, Memory, Stamp};

impl RawTable for EffectTable {
    ghost held = { λ table. rows_of.Effects table.rows };

    ghost spare = { λ table. table.spare };

    ghost follow = { spec.Follow };

    fn reserve(&mut self, more: u64) -> Result<(), Memory> {
        EffectTable::reserve(self, more)
    }

    fn append(&mut self, more: Rows) {
        if let Rows::Effects(rows) = more {
            self.apply(rows);
        }
    }
}

impl EffectTable {
    /// The rows that a feed's extract adds; none where there is no extract. They have the load date, and may
    /// stand behind those of the table. Conditions: the feed is in the mapping, and no row of the table is later
    /// than the load date.
    pub fn additions(
        &self,
        load: Stamp,
        feed: u32,
        extract: Option<&HashedExtract<'_>>,
        catalog: &Catalog,
    ) -> Result<Rows, Memory>
        requires feed { feed < length catalog.now.feeds }
        requires staged { IfSome extract (λ extract. extract.now.staged.now.feed ≡ feed) }
        requires not_later { IsTrue (is_up_to load (rows_of.Effects self.now.rows)) }
        ensures rows { (hashes : Hashes) → IfSome extract.entry (λ extract. HasKeys hashes extract.now) → IfOk result (λ rows. rows ≡ spec.effect_feed_delta hashes catalog.now feed self.now.rows load extract.entry) }
        ensures stamped { IfOk result (AreOfLoad load) }
        ensures follow { IfOk result (spec.Follow (rows_of.Effects self.now.rows)) }
    {
        match extract {
            Some(extract) => {
                let rows = self.delta(load, extract, catalog)?;
                Ok(Rows::Effects(rows))
            }
            None => {
                self.note_order();
                Ok(Rows::Effects(List::new(self.allocator())))
            }
        }
    }
}
