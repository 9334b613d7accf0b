/// A row's place in an index: the first eight bytes of its parent, and its number.
#[derive(Clone, Copy)]
pub(crate) struct Entry {
    pub(crate) prefix: u64,
    pub(crate) number: usize,
}
