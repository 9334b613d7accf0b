// The six kinds of rows of raw tables.
ghost use Rattle.std.specs.Prelude.{◌≡◌, ℕ, List as list_of, filter, nat_le, refl, true};
ghost use Rattle.dv_catalog.specs.declared.tables.TableId.{TableId};
ghost use Rattle.dv_catalog.specs.declared.tables.TableId.TheVariants as ids;
ghost use Rattle.dv_records.specs.declared.stores.Rows.{Rows};
ghost use Rattle.dv_records.specs.declared.stores.Rows.TheVariants as rows_of;
ghost use Rattle.dv_records.specs.Stores.{is_of_kind};
ghost use Rattle.dv_records.specs.Vault.{rows_up_to};

use crate::raw_rows::{EffectRow, HubRow, LinkRow, MultiRow, SatRow, StatusRow};
use crate::weights::Weighed;
use dv_catalog::TableId;
use dv_index::Placed;
use dv_text::Duplicate;

/// A row of a raw table, of one kind.
pub trait RawRow: Placed + Weighed + Duplicate {
    /// Rows of this kind, as rows of any.
    ghost wrapped: { list_of Self → Rows };

    /// The raw table that has such rows, by the place of its hub, link or feed in declared order.
    ghost table: { ℕ → TableId };

    /// The raw table that has such rows, by the place of its hub, link or feed. Takes no memory.
    fn table(place: u32) -> TableId
        ensures { result ≡ table place };

    ghost kind: { (place : ℕ) (rows : list_of Self) → is_of_kind (table place) (wrapped rows) ≡ true };

    ghost dated: { (date : ℕ) (rows : list_of Self) → rows_up_to date (wrapped rows) ≡ wrapped (filter (λ row. nat_le (Self.place row).load date) rows) };
}

impl RawRow for HubRow {
    ghost wrapped = { rows_of.Hubs };

    ghost table = { ids.Hub };

    fn table(hub: u32) -> TableId {
        TableId::Hub(hub)
    }

    ghost kind = { λ place rows. refl };

    ghost dated = { λ date rows. refl };
}

impl RawRow for LinkRow {
    ghost wrapped = { rows_of.Links };

    ghost table = { ids.Link };

    fn table(link: u32) -> TableId {
        TableId::Link(link)
    }

    ghost kind = { λ place rows. refl };

    ghost dated = { λ date rows. refl };
}

impl RawRow for SatRow {
    ghost wrapped = { rows_of.Sats };

    ghost table = { ids.Sat };

    fn table(feed: u32) -> TableId {
        TableId::Sat(feed)
    }

    ghost kind = { λ place rows. refl };

    ghost dated = { λ date rows. refl };
}

impl RawRow for MultiRow {
    ghost wrapped = { rows_of.Multis };

    ghost table = { ids.Multi };

    fn table(feed: u32) -> TableId {
        TableId::Multi(feed)
    }

    ghost kind = { λ place rows. refl };

    ghost dated = { λ date rows. refl };
}

impl RawRow for StatusRow {
    ghost wrapped = { rows_of.Statuses };

    ghost table = { ids.Status };

    fn table(feed: u32) -> TableId {
        TableId::Status(feed)
    }

    ghost kind = { λ place rows. refl };

    ghost dated = { λ date rows. refl };
}

impl RawRow for EffectRow {
    ghost wrapped = { rows_of.Effects };

    ghost table = { ids.Effect };

    fn table(feed: u32) -> TableId {
        TableId::Effect(feed)
    }

    ghost kind = { λ place rows. refl };

    ghost dated = { λ date rows. refl };
}
