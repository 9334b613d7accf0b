ghost use Rattle.std.specs.Prelude.{◌≡◌};

use dv_outside::Failed;
use dv_text::{List, Memory, Text};
use std::alloc::AllocError;

/// A request: its method, the path of its target, the first `at` of the query, its body, and whether the
/// connection ends after it.
#[derive(Debug, PartialEq, Eq, Drop)]
pub struct Request {
    pub method: Text,
    pub path: Text,
    pub at: Option<Text>,
    pub body: List<u8>,
    pub last: bool,
}

/// Why no request was taken.
#[derive(Clone, Copy, Debug, PartialEq, Eq)]
pub enum WireError {
    /// No head is there and none can come, or it has no proper length.
    Head,
    /// The body is longer than is taken.
    BodyTooLong,
    /// The body's end is not told by a length.
    NoLength,
    /// The input ended within a request.
    Cut,
    /// An earlier call with this buffer answered an error.
    Spent,
    /// The connection could not be read.
    ReadFault,
    /// There was no memory for it.
    Memory,
}

impl From<Memory> for WireError {
    ghost use Rattle.dv_http.specs.declared.requests.WireError.TheVariants as variants;

    ghost from_gives = { λ _ made. made ≡ variants.Memory };

    fn from(_error: Memory) -> WireError {
        WireError::Memory
    }
}

impl From<AllocError> for WireError {
    ghost use Rattle.dv_http.specs.declared.requests.WireError.TheVariants as variants;

    ghost from_gives = { λ _ made. made ≡ variants.Memory };

    fn from(_error: AllocError) -> WireError {
        WireError::Memory
    }
}

impl From<Failed> for WireError {
    ghost use Rattle.dv_http.specs.declared.requests.WireError.TheVariants as variants;

    ghost from_gives = { λ _ made. made ≡ variants.ReadFault };

    fn from(_error: Failed) -> WireError {
        WireError::ReadFault
    }
}
