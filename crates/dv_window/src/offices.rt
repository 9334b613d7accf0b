ghost use Rattle.std.specs.Option.{option_map};
ghost use Rattle.std.specs.Prelude.{◌≡◌, ◌<◌, IfOk, IfSome, IsTrue, length, slice_get, true};
ghost use Rattle.dv_store_rules.specs.SnapshotHeads.{KeepLimits};
ghost use Rattle.dv_records.specs.ReadBack.{any_content_read};
ghost use Rattle.dv_records.specs.States.{last_sealed};
ghost use Rattle.dv_records.specs.Stores.{is_of_kind, rows_in};
ghost use Rattle.dv_vault.specs.Additions.{opened_in};
ghost use Rattle.dv_restore.specs.Completions.{rows_there};
ghost use Rattle.dv_restore.specs.Restored.{are_in_order};
ghost use Rattle.dv_catalog.specs.Mappings.{is_valid};
ghost use Rattle.dv_vault.specs.Vaults.{IsVaultOf, are_heads_of};
ghost use Rattle.dv_print.specs.TableTexts.{rows_behind};
ghost use Rattle.dv_window.specs.Offices as spec;

use dv_catalog::{Catalog, TableId};
use dv_contents::content;
use dv_records::{Rows, SnapHead};
use dv_text::{List, Memory, NRow, Stamp, Window, WindowHead};
use dv_vault::{Begun, Part, Vault};
use std::alloc::Global;
use std::marker::Model;

/// What loads windows: the vault of the sealed ones, the open one with what tables lack of it, the heads of the snapshots, whether
/// its keeper may have more than it knows, and the width of the digests with which it was read. Contracts see these.
#[derive(Drop)]
pub struct Office {
    pub(crate) vault: Vault,
    pub(crate) begun: Option<Begun>,
    pub(crate) snapshots: List<SnapHead>,
    pub(crate) stale: bool,
    pub(crate) width: u8,
}

impl Model for Office {
    ghost use Rattle.std.specs.Prelude.{IfSome, IsTrue};
    ghost use Rattle.dv_store_rules.specs.SnapshotHeads.{KeepLimits};
    ghost use Rattle.dv_vault.specs.Additions.{Fits};
    ghost use Rattle.dv_restore.specs.Restored.{are_in_order};
    ghost use Rattle.dv_window.specs.Offices.{Held};

    ghost Value = { Held };

    ghost view = { λ o. record { vault = o.vault; begun = o.begun; snapshots = o.snapshots; stale = o.stale; width = o.width } };

    ghost invariant = { λ o. KeepLimits o.snapshots × IfSome o.begun (Fits o.vault) × IsTrue (are_in_order o.vault.heads) };
}

// The rows that are there of a window in the table at a place; none past the last one.
fn opened_at(parts: &[Part], place: usize) -> Option<&Rows>
    ensures { option_map (λ rows. rows.now) result ≡ slice_get (opened_in parts.now) place }
{
    let part = parts.get(place)?;
    Some(&part.opened)
}

impl Office {
    /// The mapping. Takes no memory.
    pub fn catalog(&self) -> &Catalog
        ensures value { result.now ≡ self.now.vault.mapping }
        ensures valid_mapping { IsTrue (is_valid self.now.vault.mapping) }
    {
        self.vault.catalog()
    }

    /// Does nothing: a call tells a proof that the mapping is valid.
    pub(crate) fn note_valid(&self)
        ensures { IsTrue (is_valid self.now.vault.mapping) }
    {
        let _catalog = self.catalog();
    }

    /// The vault of the sealed windows. Takes no memory.
    pub fn vault(&self) -> &Vault
        ensures { result.now ≡ self.now.vault }
    {
        &self.vault
    }

    /// The allocator that the office keeps: there is one, so no clause says which.
    pub(crate) fn allocator(&self) -> Global {
        self.snapshots.allocator()
    }

    /// The heads of the sealed windows, in order: their load dates ascend. Takes no memory.
    pub fn heads(&self) -> &List<WindowHead>
        ensures value { result.now ≡ self.now.vault.heads }
        ensures feeds { IsTrue (are_heads_of self.now.vault.mapping self.now.vault.heads) }
        ensures order { IsTrue (are_in_order self.now.vault.heads) }
    {
        self.vault.heads()
    }

    /// The load date of the last sealed window, as 2 March of those of 1 and 2 March; none where
    /// none is sealed. Takes no memory.
    pub fn last(&self) -> Option<Stamp>
        ensures { result ≡ last_sealed self.now.vault.heads }
    {
        self.vault.last()
    }

    /// The open window; none where none is open. Takes no memory.
    pub fn staged(&self) -> Option<&Window>
        ensures { option_map (λ window. window.now) result ≡ spec.staged self.now }
    {
        let begun = self.begun.as_ref()?;
        Some(&begun.window)
    }

    /// The heads of the stored snapshots, by date: at most 1,000, which weigh at most 268,435,456 together. Takes no
    /// memory.
    pub fn snapshots(&self) -> &List<SnapHead>
        ensures value { result.now ≡ self.now.snapshots }
        ensures limits { KeepLimits self.now.snapshots }
    {
        &self.snapshots
    }

    /// The rows that the open window has in a raw table of the keeper already; none where no window is
    /// open, or the mapping hasn't the table. Takes no memory.
    ///
    /// Where `A1` and `A2` are sealed in a hub, and the keeper has `A3` of the open window there
    /// and nothing more, it is `A3` for the hub, and no row for the status table of its feed.
    pub fn rows_begun(&self, table: TableId) -> Option<&Rows>
        ensures kind { IfSome result (λ rows. is_of_kind table rows.now ≡ true) }
        ensures held { is_of_kind table (rows_in table self.now.vault.tables) ≡ true }
        ensures among { IsVaultOf self.now.vault.mapping self.now.vault.tables }
        ensures rows { rows_in table (rows_there self.now.vault self.now.begun) ≡ rows_behind (rows_in table self.now.vault.tables) (option_map (λ rows. rows.now) result) }
    {
        let place = self.vault.place_of(table)?;
        let begun = self.begun.as_ref()?;
        opened_at(&begun.parts, place)
    }

    /// Whether the keeper may have more than the office knows: a call of it failed, and the office was not refreshed since.
    pub fn is_stale(&self) -> bool
        ensures { result ≡ self.now.stale }
    {
        self.stale
    }

    /// Makes the office stale: for a caller that had a call of the keeper fail. The rest of it stays.
    pub fn mark_stale(&mut self)
        ensures { self.new ≡ spec.made_stale self.old }
    {
        self.stale = true;
    }

    /// The width of the digests, in bytes, with which the store was last read.
    pub fn width(&self) -> u8
        ensures { result ≡ self.now.width }
    {
        self.width
    }

    /// Lets the office go. Takes no memory.
    pub fn close(self) {}

    /// The rows of a feed in the last sealed window that has the feed and is not later than the
    /// date, read back from the vault, by references, then attributes. Condition: the feed is in
    /// the mapping. Where the customers `1` and `2` came on 1 March, and `1` is gone on 2 March, it
    /// is the row of `2` at 2 March.
    pub fn content(&self, feed: u32, date: Stamp) -> Result<List<NRow>, Memory>
        requires { feed < length self.now.vault.mapping.feeds }
        ensures { IfOk result (λ rows. rows ≡ any_content_read self.now.vault.mapping self.now.vault.tables feed date) }
    {
        content(&self.vault, feed, date)
    }
}
