use crate::begun::Begun;
use dv_records::KeeperError;

/// A window that a keeper broke off to take: why, and what is left of it; none where it was not opened.
#[derive(Drop)]
pub struct Untaken {
    pub error: KeeperError,
    pub begun: Option<Begun>,
}
