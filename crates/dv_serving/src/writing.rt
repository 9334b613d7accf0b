// Replies are written to a connection.
ghost use Rattle.std.specs.Prelude.{◌≡◌, OnErr, OnOk};
ghost use Rattle.dv_text.specs.Causes.{HasCause};
ghost use Rattle.dv_outside.specs.Bytes.{after};
ghost use Rattle.dv_serving.specs.Writing.{GotPart};

use dv_outside::{Failed, Link};

/// Writes all of the bytes. Where the connection fails, a front of them was written that isn't all of them.
pub(crate) fn write_whole<L: Link>(link: &mut L, bytes: &[u8]) -> Result<(), Failed>
    ensures ok { OnOk result (L.contents link.new ≡ after (L.contents link.old) bytes.now) }
    ensures err { OnErr result (GotPart (L.contents link.old) (L.contents link.new) bytes.now) }
    ensures kept { L.left link.new ≡ L.left link.old }
    ensures cause { HasCause (L.faults link.old) (L.faults link.new) result }
{
    let mut at = 0;
    while at < bytes.len() {
        let count = link.write(&bytes[at..])?;
        at += count;
    }
    Ok(())
}
