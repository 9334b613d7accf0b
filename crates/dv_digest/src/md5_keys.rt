ghost use Rattle.md5.specs.Md5.{md5};
ghost use Rattle.md5.proofs.StandardFacts.{length-md5};
ghost use Rattle.std.specs.Prelude.{refl};
ghost use Rattle.std.proofs.Common.{inl};

use dv_text::{Digest, KeyDigest};
use md5::Md5;

/// Hash keys and hash differences by MD5 (RFC 1321), which has 16 bytes.
#[derive(Clone, Copy, Debug, PartialEq, Eq)]
pub struct Md5Keys;

impl KeyDigest for Md5Keys {
    ghost function = { record { digest = md5; width = 16; sized = length-md5 } };

    ghost known_width = { inl refl };

    fn width(&self) -> u8 {
        16
    }

    fn digest(&self, bytes: &[u8]) -> Digest {
        let digest: [u8; 16] = <Md5 as md5::Digest>::digest(bytes);
        match Digest::of(&digest) {
            Some(made) => made,
            None => unreachable!(),
        }
    }
}
