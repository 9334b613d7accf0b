ghost use Rattle.std.specs.Prelude.{◌≡◌, IfOk, List as list_of, map};
ghost use Rattle.dv_records.specs.Deltas.{Hashed};
ghost use Rattle.dv_hub_link.specs.HashedLists.{told};
ghost use Rattle.dv_hub_link.specs.HeldLists.{list_under, standing};

use crate::hashed_lists::LentList;
use dv_text::{Digest, Key, List, Memory};
use std::alloc::Global;

/// How a reference list stands to a table: no list has its hash key there, or this one has, or another one.
#[derive(Clone, Copy, Debug, PartialEq, Eq)]
pub(crate) enum Standing {
    New,
    Held,
    Other,
}

/// A table that holds reference lists by their hash keys.
pub(crate) trait HoldsLists {
    /// The lists, each with its hash key.
    ghost held: { Self → list_of Hashed };

    /// How each of these lists stands to the table, in their order.
    fn standings(&self, alloc: Global, lists: &[LentList<'_>]) -> Result<Vec<Standing>, Memory>
        ensures { IfOk result (λ made. made.items ≡ map (λ list. standing (held self.now) (told list)) lists.now) };

    /// The list with this hash key; none exactly where there is none.
    fn list(&self, alloc: Global, d: &Digest) -> Result<Option<List<Key>>, Memory>
        ensures { IfOk result (λ found. found ≡ list_under d.now (held self.now)) };
}
