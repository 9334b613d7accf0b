ghost use Rattle.std.specs.Prelude.{◌≡◌, IsTrue, option_map, List as list_of_items};
ghost use Rattle.dv_records.specs.HubNames.{HubName, are_names_apart, key_named};

use dv_catalog::TableId;
use dv_text::{Digest, Key, List, Memory};

/// What a window brings to a hub or a link: a reference list, of one key for a hub, and the first feed in
/// declared order that delivers it.
#[derive(Debug, PartialEq, Eq, Drop)]
pub struct Delivery {
    pub table: TableId,
    pub refs: List<Key>,
    pub feed: u32,
}

/// A delivery with the hash key of its reference list, which is lent from where the list stands in the window.
#[derive(Debug, Drop)]
pub struct HashedDelivery<'a> {
    pub table: TableId,
    pub refs: &'a [Key],
    pub feed: u32,
    pub digest: Digest,
}

/// Why the rows that a window adds to a hub or a link are not given: two different reference lists have one
/// hash key, of which the lesser one is the first; or want of memory.
#[derive(Debug, PartialEq, Eq, Drop)]
pub enum DeltaFault {
    Collision { first: List<Key>, second: List<Key> },
    Memory,
}

impl From<Memory> for DeltaFault {
    ghost use Rattle.std.specs.Prelude.{◌≡◌};
    ghost use Rattle.dv_records.specs.declared.deliveries.DeltaFault.TheVariants as variants;

    ghost from_gives = { λ _ e. e ≡ variants.Memory };

    fn from(_error: Memory) -> DeltaFault {
        DeltaFault::Memory
    }
}

/// What tells the key of a hub by its hash key.
pub trait HubNames {
    /// Hubs, digests, and the keys that these stand for.
    ghost names: { Self → list_of_items HubName };

    /// The key of a hub with this digest; none exactly where there is none. Takes no memory. A
    /// digest that stands for `A` in the hub 0 and for `P` in the hub 1 stands for no key in the
    /// hub 2.
    fn name(&self, hub: u32, d: &Digest) -> Option<&Key>
        ensures { option_map (λ key. key.now) result ≡ key_named hub d.now (names self.now) };

    ghost apart: { (known : Self) → IsTrue (are_names_apart (names known)) };
}
