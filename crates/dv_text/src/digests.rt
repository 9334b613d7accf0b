ghost use Rattle.std.specs.Prelude.{◌≡◌, ◌⊎◌, ◌↔◌, IfSome, IsSome, drop, length, nat_eq, replicate, take, Some, refl};
ghost use Rattle.std.specs.Ordering.{nat_cmp};
ghost use Rattle.std.specs.Cmp;
ghost use Rattle.std.specs.Cmp.Lexicographic.{pointwise, slice_cmp, nat_list_eq_equiv, nat_list_cmp_total, texts_po, texts_ties};
ghost use Rattle.std.specs.Slice.Scan.{big_endian};
ghost use Rattle.dv_text.specs.Digests.{IsDigest, IsShort, digest_prefix};

use crate::failure::{Duplicate, Memory};
use std::cmp::Ordering;
use std::marker::Model;

#[derive(Clone, Copy, Debug)]
enum Stored {
    Short([u8; 16]),
    Long([u8; 32]),
}

/// A digest of 16 or 32 bytes, held in place. Contracts see it as its bytes. Digests are ordered by their
/// bytes, a prefix first.
#[derive(Clone, Copy, Debug)]
pub struct Digest {
    stored: Stored,
}

impl Model for Digest {
    ghost use Rattle.std.specs.Prelude.{List, ℕ};

    ghost Value = { List ℕ };

    ghost use Rattle.dv_text.specs.Digests.{stored_bytes, IsStored, stored_of, stored_of-stored_bytes};

    ghost view = { λ d. stored_bytes d.stored };

    ghost invariant = { λ d. IsStored d.stored };

    ghost inverse = { λ bytes. record { stored = stored_of bytes } };

    ghost inverse_ok = { λ d h i. record { stored = stored_of-stored_bytes d.stored h i } };
}

// The numbers that the first eight and the last eight of 16 bytes spell, the greatest first.
fn halves(bytes: &[u8; 16]) -> (u64, u64)
    ensures first { result.0 ≡ big_endian 0 (take 8 bytes.now) }
    ensures second { result.1 ≡ big_endian 0 (take 8 (drop 8 bytes.now)) }
    ensures kept { IsShort bytes.now }
{
    let first = u64::from_be_bytes([
        bytes[0], bytes[1], bytes[2], bytes[3], bytes[4], bytes[5], bytes[6], bytes[7],
    ]);
    let second = u64::from_be_bytes([
        bytes[8], bytes[9], bytes[10], bytes[11], bytes[12], bytes[13], bytes[14], bytes[15],
    ]);
    (first, second)
}

// The order of 16 bytes and others, by two numbers of each.
fn short_cmp(a: &[u8; 16], b: &[u8; 16]) -> Ordering
    ensures { result ≡ slice_cmp nat_cmp a.now b.now }
{
    let (a, b) = (halves(a), halves(b));
    if a.0 == b.0 {
        a.1.cmp(&b.1)
    } else {
        a.0.cmp(&b.0)
    }
}

// Whether 16 bytes are equal to others, by two numbers of each.
fn short_eq(a: &[u8; 16], b: &[u8; 16]) -> bool
    ensures { result ≡ pointwise nat_eq a.now b.now }
{
    let (a, b) = (halves(a), halves(b));
    a.0 == b.0 && a.1 == b.1
}

impl Digest {
    /// The digest with these bytes; none where there are neither 16 nor 32. Takes no memory.
    /// `Digest::of(b"abc")` is `None`.
    pub fn of(bytes: &[u8]) -> Option<Digest>
        ensures some { IfSome result (λ d. d ≡ bytes.now) }
        ensures which { IsSome result ↔ ((length bytes.now ≡ 16) ⊎ (length bytes.now ≡ 32)) }
    {
        if let Some(short) = bytes.as_array::<16>() {
            Some(Digest {
                stored: Stored::Short(*short),
            })
        } else if let Some(long) = bytes.as_array::<32>() {
            Some(Digest {
                stored: Stored::Long(*long),
            })
        } else {
            None
        }
    }

    /// The zero key: so many bytes, all zero. Takes no memory. Under MD5 `Digest::zero(16)` is the
    /// hash key of a missing key.
    pub fn zero(width: u8) -> Digest
        requires { (width ≡ 16) ⊎ (width ≡ 32) }
        ensures { result ≡ replicate width 0 }
    {
        if width == 16 {
            Digest {
                stored: Stored::Short([0; 16]),
            }
        } else {
            Digest {
                stored: Stored::Long([0; 32]),
            }
        }
    }

    /// The bytes, 16 or 32.
    pub fn bytes(&self) -> &[u8]
        ensures value { result.now ≡ self.now }
        ensures width { (length self.now ≡ 16) ⊎ (length self.now ≡ 32) }
    {
        match &self.stored {
            Stored::Short(bytes) => bytes,
            Stored::Long(bytes) => bytes,
        }
    }

    /// The number that the first eight bytes spell, the greatest first. Of two digests with
    /// different numbers the one with the lesser number is less. Takes no memory. The number is 258
    /// where these bytes are six zeros, 1 and 2.
    pub fn prefix(&self) -> u64
        ensures value { result ≡ digest_prefix self.now }
        ensures kept { IsDigest self.now }
    {
        let bytes = self.bytes();
        u64::from_be_bytes([
            bytes[0], bytes[1], bytes[2], bytes[3], bytes[4], bytes[5], bytes[6], bytes[7],
        ])
    }
}

impl Duplicate for Digest {
    fn copy(&self) -> Result<Digest, Memory> {
        Ok(*self)
    }
}

impl PartialEq for Digest {
    ghost eq = { pointwise nat_eq };

    ghost laws = { Cmp.partial_equiv_from_equiv nat_list_eq_equiv };

    fn eq(&self, other: &Digest) -> bool {
        match (&self.stored, &other.stored) {
            (Stored::Short(a), Stored::Short(b)) => short_eq(a, b),
            _ => self.bytes() == other.bytes(),
        }
    }
}

impl Eq for Digest {
    ghost laws = { nat_list_eq_equiv };
}

impl PartialOrd for Digest {
    ghost partial_cmp = { λ x y. Some (slice_cmp nat_cmp x y) };

    ghost laws = { texts_po };

    fn partial_cmp(&self, other: &Digest) -> Option<Ordering> {
        Some(self.cmp(other))
    }
}

impl Ord for Digest {
    ghost cmp = { slice_cmp nat_cmp };

    ghost total = { nat_list_cmp_total };

    ghost matches_partial_cmp = { λ x y. refl };

    ghost matches_eq = { texts_ties };

    fn cmp(&self, other: &Digest) -> Ordering {
        match (&self.stored, &other.stored) {
            (Stored::Short(a), Stored::Short(b)) => short_cmp(a, b),
            _ => self.bytes().cmp(&other.bytes()),
        }
    }
}
