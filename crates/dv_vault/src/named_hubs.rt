// The hubs whose business keys are looked up by their hash keys.
ghost use Rattle.std.specs.Prelude.{IsTrue, map};
ghost use Rattle.std.specs.List.{list_all};
ghost use Rattle.dv_hub_link.specs.HubRows.{are_hub_rows};

use dv_hub_link::HubTable;

/// The hubs of a vault, in declared order. No two rows of a hub have one hash key.
#[derive(Drop)]
pub(crate) struct HubKeys<'a> {
    pub(crate) hubs: Vec<&'a HubTable>,
    ghost kept: { IsTrue (list_all are_hub_rows (map (λ hub. hub.now.rows) hubs.items)) },
}
