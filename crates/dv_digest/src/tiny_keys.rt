ghost use Rattle.dv_digest.specs.Tiny.{tiny, length-tiny};
ghost use Rattle.std.specs.Prelude.{refl};
ghost use Rattle.std.proofs.Common.{inl};

use dv_text::{Digest, KeyDigest};

/// A digest for tests, under which texts that begin with the same byte collide: 16 bytes, a text's first
/// byte and fifteen bytes 0x01 behind it; sixteen bytes 0x01 for the empty text.
#[derive(Clone, Copy, Debug, PartialEq, Eq)]
pub struct TinyKeys;

impl KeyDigest for TinyKeys {
    ghost function = { record { digest = tiny; width = 16; sized = length-tiny } };

    ghost known_width = { inl refl };

    fn width(&self) -> u8 {
        16
    }

    fn digest(&self, bytes: &[u8]) -> Digest {
        let mut digest = [1; 16];
        if let Some(first) = bytes.first() {
            digest[0] = *first;
        }
        match Digest::of(&digest) {
            Some(made) => made,
            None => unreachable!(),
        }
    }
}
