/// Numbered items, of which some are the same: they have one key.
///
/// Contracts see the class of each item, which is the least item that is the same, and its home.
pub trait KeyItems: Sync + Drop {
    ghost use Rattle.std.specs.Prelude.{◌≡◌, ◌<◌, ◌==◌, length, slice_index_or};
    ghost use Rattle.dv_board.specs.Items.{class_of, AreLawful};
    ghost use Rattle.dv_board.specs.declared.views.Keys.{Keys};

    ghost keys: { Self → Keys };

    /// How many items there are.
    fn count(&self) -> u32
        ensures { result ≡ length (keys self.now).classes };

    /// Whether two items are the same.
    fn same(&self, a: u32, b: u32) -> bool
        requires first { a < length (keys self.now).classes }
        requires second { b < length (keys self.now).classes }
        ensures { result ≡ (class_of (keys self.now) a == class_of (keys self.now) b) };

    /// Where a table looks for the item first: any number, the same one for items that are the same.
    fn home(&self, a: u32) -> u64
        requires { a < length (keys self.now).classes }
        ensures { result ≡ slice_index_or (keys self.now).homes a 0 };

    ghost lawful: { (items : Self) → AreLawful (keys items) };
}
