use dv_records::SnapHead;
use dv_text::List;
use dv_vault::{Begun, Vault};

/// The vault of the sealed windows, and the open window, if there is one.
#[derive(Drop)]
pub(crate) struct Reopened {
    pub vault: Vault,
    pub begun: Option<Begun>,
}

/// What is read of a keeper: the vault of the sealed windows, the open window, if there is one, and the heads of the
/// snapshots.
#[derive(Drop)]
pub struct Restored {
    pub vault: Vault,
    pub begun: Option<Begun>,
    pub snapshots: List<SnapHead>,
}
