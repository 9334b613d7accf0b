// By which factors the homes of a window's keys are mixed.
use crate::hashed_windows::HashedWindow;
use crate::items::Mixing;
use dv_text::{Digest, KeyDigest, Memory};
use std::alloc::Global;

// Puts the bytes of hash keys at the end.
fn add_keys(bytes: &mut Vec<u8>, keys: &[Digest]) -> Result<(), Memory> {
    for key in keys {
        bytes.extend_from_slice(key.bytes())?;
    }
    Ok(())
}

/// The factors of a window, drawn from the hash keys of all its rows. Which ones they are is no
/// promise: they only spread the homes of keys in the table, and any two give the same batches.
pub fn mixing_of<H: KeyDigest>(
    alloc: Global,
    window: &HashedWindow<'_>,
    digest: &H,
) -> Result<Mixing, Memory> {
    let mut bytes = Vec::new(alloc);
    for extract in window.extracts.items() {
        add_keys(&mut bytes, extract.keys.items())?;
    }
    let drawn = digest.digest(&bytes).prefix();
    Ok(Mixing {
        first: (drawn / 4_294_967_296) as u32,
        second: (drawn % 4_294_967_296) as u32,
    })
}
