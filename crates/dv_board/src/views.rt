use std::collections::LinkedList;

/// What a board is told when it is made.
#[derive(Clone, Copy)]
pub struct Sizes {
    pub tasks: u32,
    pub workers: u32,
}

/// What a seat of a board knows. Only proofs speak of it: no value is ever made.
pub struct BoardView {
    pub tasks: u32,
    pub workers: u32,
    pub claims: LinkedList<u32>,
    pub had_none: bool,
    pub share: u32,
    pub is_spent: bool,
}

/// What the items of a key table are, as two lists as long as their count: the class of each, which is the least item
/// that is the same, and the home of each. Only proofs speak of it: no value is ever made.
pub struct Keys {
    pub classes: LinkedList<u32>,
    pub homes: LinkedList<u64>,
}

/// What a seat of a key table knows. Only proofs speak of it: no value is ever made.
///
/// Where `is_probing`, an offer of `item` is under way, whose probe has passed `passed` slots, and `has_met` says whether
/// the slot that it stands at has the same key.
pub struct KeyView {
    pub classes: LinkedList<u32>,
    pub homes: LinkedList<u64>,
    pub offers: LinkedList<u32>,
    pub is_probing: bool,
    pub item: u32,
    pub passed: u64,
    pub has_met: bool,
    pub share: u32,
    pub is_spent: bool,
}
