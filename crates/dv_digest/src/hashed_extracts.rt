ghost use Rattle.std.specs.Prelude.{◌≡◌, IfOk, IsTrue, map};
ghost use Rattle.std.specs.List.{list_all};
ghost use Rattle.dv_text.specs.Keys.{hashes_of};
ghost use Rattle.dv_digest.specs.Fits as fits;
ghost use Rattle.dv_digest.specs.HashedExtracts.{HasKeys};

use crate::hashes::hash_key;
use crate::rooms::Room;
use dv_text::{Digest, Key, KeyDigest, List, Memory, NRow, Staged};
use std::alloc::Global;

/// An extract with the hash keys of its rows' reference lists, in the order of the rows.
#[derive(Drop)]
pub struct HashedExtract<'a> {
    pub staged: &'a Staged,
    pub keys: List<Digest>,
}

// The hash key of a reference list that is no longer than those of staged rows.
fn hash<H: KeyDigest>(digest: &H, refs: &[Key], room: &mut Room) -> Digest
    requires { IsTrue (fits.refs_fit refs.now) }
    ensures { result ≡ (hashes_of H.function).hash refs.now }
{
    hash_key(digest, refs, room)
}

// The hash keys of the reference lists of rows.
fn hash_keys<H: KeyDigest>(alloc: Global, digest: &H, rows: &[NRow]) -> Result<List<Digest>, Memory>
    requires { IsTrue (list_all (λ row. fits.refs_fit row.refs) rows.now) }
    ensures { IfOk result (λ keys. keys ≡ map (λ row. (hashes_of H.function).hash row.refs) rows.now) }
{
    let mut room = Room::new(alloc)?;
    let mut keys = List::with_room(alloc, rows.len())?;
    for row in rows {
        keys.push(hash(digest, row.refs.items(), &mut room))?;
    }
    Ok(keys)
}

impl<'a> HashedExtract<'a> {
    /// The extract with its hash keys, each worked out once. Condition: its reference lists are no longer than
    /// those of staged rows.
    pub fn of<H: KeyDigest>(
        alloc: Global,
        staged: &'a Staged,
        digest: &H,
    ) -> Result<HashedExtract<'a>, Memory>
        requires { IsTrue (list_all (λ row. fits.refs_fit row.refs) staged.now.rows) }
        ensures staged { IfOk result (λ extract. extract.staged.now ≡ staged.now) }
        ensures keys { IfOk result (HasKeys (hashes_of H.function)) }
    {
        let keys = hash_keys(alloc, digest, staged.rows.items())?;
        Ok(HashedExtract { staged, keys })
    }
}
