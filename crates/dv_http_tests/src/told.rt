ghost use Rattle.std.specs.Prelude.{◌<◌};

use dv_http::{Buffer, Request, WireError, read_request};
use dv_outside::MemoryLink;
use dv_text::{List, Memory};
use std::alloc::Global;

fn add(text: &mut Vec<u8>, mark: &[u8], bytes: &[u8]) -> Result<(), Memory> {
    text.extend_from_slice(mark)?;
    text.extend_from_slice(bytes)?;
    Ok(())
}

fn add_request(text: &mut Vec<u8>, request: &Request) -> Result<(), Memory> {
    add(text, b"", request.method.bytes())?;
    add(text, b" ", request.path.bytes())?;
    if let Some(at) = &request.at {
        add(text, b" at=", at.bytes())?;
    }
    add(text, b" ", request.body.items())?;
    if request.last {
        add(text, b" ", b"last")?;
    }
    text.push(b'|')?;
    Ok(())
}

fn name(error: WireError) -> &'static [u8] {
    match error {
        WireError::Head => b"Head",
        WireError::BodyTooLong => b"BodyTooLong",
        WireError::NoLength => b"NoLength",
        WireError::Cut => b"Cut",
        WireError::Spent => b"Spent",
        WireError::ReadFault => b"ReadFault",
        WireError::Memory => b"Memory",
    }
}

/// What is taken from a connection with these bytes, a piece a read, of which the reads in `fails` fail: each
/// request, and how it ends.
pub fn told(alloc: Global, input: &[u8], piece: u32, fails: &[u64]) -> Result<Vec<u8>, Memory>
    requires { 0 < piece }
{
    let mut text = Vec::new(alloc);
    let input = List::from_vec(input.to_vec(alloc)?);
    let fails = List::from_vec(fails.to_vec(alloc)?);
    let mut link = MemoryLink::new(alloc, input, piece, 0, fails)?;
    let mut buffer = Buffer::new(alloc)?;
    for _ in 0..100 {
        match read_request(alloc, &mut link, &mut buffer) {
            Ok(Some(request)) => add_request(&mut text, &request)?,
            Ok(None) => {
                add(&mut text, b"", b"end")?;
                return Ok(text);
            }
            Err(error) => {
                add(&mut text, b"", name(error))?;
                return Ok(text);
            }
        }
    }
    Ok(text)
}
