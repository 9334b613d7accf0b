ghost use Rattle.std.specs.Prelude.{◌≡◌, IfOk};
ghost use Rattle.hex.specs.Hex.{encode_lower};

use dv_text::{Digest, Memory, Text};
use std::alloc::Global;

/// The digest in hexadecimal, with the letters a to f in lower case.
pub fn hex_text(alloc: Global, d: &Digest) -> Result<Text, Memory>
    ensures { IfOk result (λ text. text ≡ encode_lower d.now) }
{
    let text = hex::encode(alloc, d.bytes())?;
    Text::from_vec(text.into_bytes())
}
