// The business keys of the hubs of a vault, by their hash keys.
ghost use Rattle.std.specs.Prelude.{◌≡◌, IfOk, IsTrue};
ghost use Rattle.dv_hub_link.specs.HubRows.{are_hub_rows};
ghost use Rattle.dv_records.specs.ReadBack.{hub_rows_in};
ghost use Rattle.dv_vault.specs.Vaults as spec;
ghost use Rattle.dv_vault.specs.Vaults.{entries_of};

pub(crate) use crate::named_hubs::HubKeys;
use crate::raw_tables::RawTables;
use dv_catalog::{Catalog, TableId};
use dv_hub_link::HubTable;
use dv_records::HubNames;
use dv_text::{Digest, Key, Memory};
use std::alloc::Global;

impl<'a> HubNames for HubKeys<'a> {
    ghost use Rattle.dv_vault.specs.NamesApart.{names_apart};

    ghost names = { spec.names_of_hubs };

    ghost apart = { λ keys. names_apart (spec.rows_of_hubs keys) keys.kept };

    fn name(&self, hub: u32, d: &Digest) -> Option<&Key> {
        let hub = self.hubs.get(hub as usize)?;
        hub.key(d)
    }
}

// The hub at a place in declared order, and what all its rows keep to.
fn hub_at(raw: &RawTables, i: u32) -> &HubTable
    requires { IsTrue (spec.has_table (TableId.Hub i) (entries_of raw.now)) }
    ensures value { result.now.rows ≡ hub_rows_in i (entries_of raw.now) }
    ensures kept { IsTrue (are_hub_rows result.now.rows) }
{
    let hub = raw.hub(i);
    let _rows = hub.rows();
    hub
}

/// The hubs of the raw tables of a mapping.
pub(crate) fn hub_keys<'a>(
    alloc: Global,
    catalog: &Catalog,
    raw: &'a RawTables,
) -> Result<HubKeys<'a>, Memory>
    requires { spec.IsVaultOf catalog.now (entries_of raw.now) }
    ensures { IfOk result (λ keys. spec.rows_of_hubs keys ≡ spec.hubs_in catalog.now (entries_of raw.now)) }
{
    let mut hubs = Vec::new(alloc);
    for i in 0..catalog.hub_count() {
        hubs.push(hub_at(raw, i))?;
    }
    Ok(HubKeys { hubs })
}
