//! Business keys that are lent, in order by their first bytes.

ghost use Rattle.std.specs.Prelude.{◌≡◌};

use dv_records::Ranked;
use dv_text::{Key, Prefixed};
use std::cmp::Ordering;
use std::marker::Model;

/// A lent key behind its number: where the numbers of two keys differ, the keys compare as they do. Contracts see it as
/// the key.
#[derive(Drop)]
pub(crate) struct LentKey<'a> {
    prefix: u128,
    key: &'a Key,
}

impl<'a> Model for LentKey<'a> {
    ghost use Rattle.std.specs.Prelude.{◌≡◌};
    ghost use Rattle.dv_text.specs.Prefixes.{key_prefix};
    ghost use Rattle.dv_text.specs.declared.rows.Key.{Key};

    ghost Value = { Key };

    ghost view = { λ lent. lent.key.now };

    ghost invariant = { λ lent. lent.prefix ≡ key_prefix lent.key.now };
}

impl<'a> LentKey<'a> {
    /// A key behind its number. Takes no memory.
    pub(crate) fn of(key: &'a Key) -> LentKey<'a>
        ensures { result ≡ key.now }
    {
        LentKey {
            prefix: key.prefix(),
            key,
        }
    }

    /// The key. Takes no memory.
    pub(crate) fn key(&self) -> &'a Key
        ensures { result.now ≡ self.now }
    {
        self.key
    }
}

impl<'a> Ranked for LentKey<'a> {
    ghost use Rattle.dv_text.specs.Orders.{key_cmp};
    ghost use Rattle.dv_mart.specs.KeyOrder.{key_total};

    ghost rank_cmp = { key_cmp };

    fn compared(&self, other: &LentKey<'a>) -> Ordering {
        match self.prefix.cmp(&other.prefix) {
            Ordering::Less => Ordering::Less,
            Ordering::Equal => self.key.cmp(other.key),
            Ordering::Greater => Ordering::Greater,
        }
    }

    ghost total = { key_total };
}
