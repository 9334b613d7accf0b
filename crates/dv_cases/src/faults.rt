use dv_text::Memory;
use std::alloc::{AllocError, AllocFailed};

/// Why lines could not be read or played: what is wrong with one, or memory ran out.
#[derive(Clone, Copy)]
pub enum Fault {
    Wrong(&'static str),
    Memory,
}

impl From<Memory> for Fault {
    fn from(_error: Memory) -> Fault {
        Fault::Memory
    }
}

impl From<AllocError> for Fault {
    fn from(_error: AllocError) -> Fault {
        Fault::Memory
    }
}

impl<T: Drop> From<AllocFailed<T>> for Fault {
    fn from(_error: AllocFailed<T>) -> Fault {
        Fault::Memory
    }
}
