ghost use Rattle.std.specs.Prelude.{◌≡◌, IfOk, codes};
ghost use Rattle.form_urlencoded.specs.Form.{raw_pairs};
ghost use Rattle.dv_http.specs.Targets.{path_of, query_of, first_of};

use dv_text::{Memory, Text};
use form_urlencoded::parse;
use std::alloc::Global;

// The parts of a target before and behind its first question mark.
pub(crate) fn split(target: &[u8]) -> (&[u8], &[u8])
    ensures path { result.0.now ≡ path_of target.now }
    ensures query { result.1.now ≡ query_of target.now }
{
    for at in 0..target.len() {
        if target[at] == b'?' {
            return (&target[..at], &target[at + 1..]);
        }
    }
    (target, b"")
}

// The first value of a name in a query.
fn first_value(alloc: Global, query: &[u8], name: &str) -> Result<Option<Text>, Memory>
    ensures { IfOk result (λ value. value ≡ first_of name.now (raw_pairs query.now)) }
{
    let mut pairs = parse(alloc, query);
    'pairs: while let Some(pair) = pairs.next() {
        let (found, value) = pair?;
        if found.as_str() == name {
            return Ok(Some(Text::of(alloc, value.as_bytes())?));
        }
    }
    Ok(None)
}

// The first value of `at` in a query.
pub(crate) fn at_value(alloc: Global, query: &[u8]) -> Result<Option<Text>, Memory>
    ensures { IfOk result (λ value. value ≡ first_of (codes "at") (raw_pairs query.now)) }
{
    first_value(alloc, query, "at")
}
