use dv_text::Memory;
use std::alloc::{AllocError, AllocFailed};

/// Why a store is not changed: the words are none, or a line of the block, or memory ran out.
#[derive(Clone, Copy)]
pub enum Misfit {
    Words,
    Line,
    Memory,
}

impl From<Memory> for Misfit {
    fn from(_error: Memory) -> Misfit {
        Misfit::Memory
    }
}

impl From<AllocError> for Misfit {
    fn from(_error: AllocError) -> Misfit {
        Misfit::Memory
    }
}

impl<T: Drop> From<AllocFailed<T>> for Misfit {
    fn from(_error: AllocFailed<T>) -> Misfit {
        Misfit::Memory
    }
}
