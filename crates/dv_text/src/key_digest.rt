ghost use Rattle.std.specs.Prelude.{◌≡◌, ◌⊎◌};
ghost use Rattle.dv_text.specs.Keys.{DigestFunction};

use crate::digests::Digest;

/// A digest function for hash keys and hash differences: all its digests have one width, 16 or 32 bytes
/// (Linstedt and Olschimke 2015, chapter 11, on hashing business keys).
pub trait KeyDigest: Sync {
    /// The digest of each text, and how many bytes each digest has.
    ghost function: { DigestFunction };

    /// How many bytes each digest has: 16 for MD5. Takes no memory.
    fn width(&self) -> u8
        ensures value { result ≡ function.width }
        ensures known { (result ≡ 16) ⊎ (result ≡ 32) };

    /// The digest of the bytes. Takes no memory. MD5 gives `900150983cd24fb0d6963f7d28e17f72` for
    /// `abc`, in hexadecimal digits.
    fn digest(&self, bytes: &[u8]) -> Digest
        ensures { result ≡ function.digest bytes.now };

    ghost known_width: { (function.width ≡ 16) ⊎ (function.width ≡ 32) };
}
