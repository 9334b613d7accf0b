// Where a document has not the shape that it has to have, whether it is TOML or JSON.
ghost use Rattle.dv_catalog.specs.Shapes.{place_of, placed as placed_by};
ghost use Rattle.dv_mapfile.specs.declared.shape_faults.ShapeFault.TheVariants.{Memory as OutOfMemory};
ghost use Rattle.std.specs.Prelude.{◌≡◌, Err, IfOk, List, Result as outcome, ℕ};
ghost use Rattle.dv_mapfile.specs.Meets.{Meets};

use dv_text::{Memory, Text};
use std::alloc::{AllocError, AllocFailed, Global};

/// Why a mapping file, a manifest or the JSON of a window was not read: at a key, or at a place, it has not
/// the shape that it has to have, or memory ran out.
#[derive(Debug, Drop)]
pub enum ShapeFault {
    At(Text),
    Memory,
}

impl ShapeFault {
    /// The fault at a key; `Memory` where there is none for its text.
    pub fn at(alloc: Global, key: &str) -> ShapeFault
        ensures { Meets {X = Unit {0}} (Err result) (Err key.now) }
    {
        match Text::of(alloc, key.as_bytes()) {
            Ok(place) => ShapeFault::At(place),
            Err(Memory) => ShapeFault::Memory,
        }
    }
}

impl From<Memory> for ShapeFault {
    ghost from_gives = { λ _ fault. fault ≡ OutOfMemory };

    fn from(_error: Memory) -> ShapeFault {
        ShapeFault::Memory
    }
}

impl From<AllocError> for ShapeFault {
    ghost from_gives = { λ _ fault. fault ≡ OutOfMemory };

    fn from(_error: AllocError) -> ShapeFault {
        ShapeFault::Memory
    }
}

impl<T: Drop> From<AllocFailed<T>> for ShapeFault {
    ghost from_gives = { λ _ fault. fault ≡ OutOfMemory };

    fn from(_error: AllocFailed<T>) -> ShapeFault {
        ShapeFault::Memory
    }
}

// The place of a key in an entry: the entry's kind, its number and the key.
fn place(alloc: Global, kind: &str, number: u64, key: &[u8]) -> Result<Text, Memory>
    ensures { IfOk result (λ place. place ≡ place_of kind.now number key.now) }
{
    let mut bytes = format!(in alloc; "{kind} {number} ")?.into_bytes();
    bytes.extend_from_slice(key)?;
    let place = Text::from_vec(bytes)?;
    Ok(place)
}

/// What was read of an entry of a kind; a fault at one of its keys becomes the fault at the place of that key.
pub fn placed<E: Drop>(
    alloc: Global,
    kind: &str,
    number: u64,
    read: Result<E, ShapeFault>,
) -> Result<E, ShapeFault>
    ensures { (said : outcome E (List ℕ)) → Meets read said → Meets result (placed_by kind.now number said) }
{
    match read {
        Ok(entry) => Ok(entry),
        Err(ShapeFault::At(key)) => Err(ShapeFault::At(place(alloc, kind, number, key.bytes())?)),
        Err(ShapeFault::Memory) => Err(ShapeFault::Memory),
    }
}
