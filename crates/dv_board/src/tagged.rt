// Items for the tests: each has a tag, and items with one tag are the same.
ghost use Rattle.std.specs.Prelude.{◌≤◌, length};

use crate::key_items::KeyItems;

#[derive(Drop)]
pub struct Tagged {
    pub tags: Vec<u64>,
    pub ghost small: { length tags.items ≤ 2000000 },
}

impl KeyItems for Tagged {
    ghost use Rattle.dv_board.specs.TaggedItems.{keys_of};
    ghost use Rattle.dv_board.specs.TaggedLaws.{keys_of_lawful};

    ghost keys = { λ s. keys_of s.tags.items };

    ghost lawful = { λ s. keys_of_lawful s.tags.items };

    fn count(&self) -> u32 {
        self.tags.len() as u32
    }

    fn same(&self, a: u32, b: u32) -> bool {
        self.tags[a as usize] == self.tags[b as usize]
    }

    // Sixteen tags share a home, so that probes pass slots of other tags.
    fn home(&self, a: u32) -> u64 {
        self.tags[a as usize] / 16
    }
}
