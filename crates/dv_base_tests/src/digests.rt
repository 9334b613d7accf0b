// Digests, and how much there is to hash at most.
use crate::values::{keys, texts};
use dv_digest::{attrs_fit, refs_fit};
use dv_text::{Digest, Memory};
use std::alloc::Global;

fn keys_fit(alloc: Global, parts: &[&[&[u8]]]) -> Result<bool, Memory> {
    Ok(refs_fit(keys(alloc, parts)?.items()))
}

fn texts_fit(alloc: Global, attrs: &[&[u8]]) -> Result<bool, Memory> {
    Ok(attrs_fit(&texts(alloc, attrs)?))
}

#[test]
fn longer_attributes_and_more_keys_do_not_fit(rt: HostRuntime) {
    let alloc = rt.alloc();
    let longest = [b'x'; 4096];
    assert!(rt; texts_fit(alloc, &[longest.as_slice(); 32]) == Ok(true));
    let longer = [b'x'; 4097];
    assert!(rt; texts_fit(alloc, &[longer.as_slice(); 32]) == Ok(false));
    assert!(rt; keys_fit(alloc, &[&[b"1"], &[b"2"], &[b"3"], &[b"4"], &[b"5"]]) == Ok(false));
    assert!(rt; keys_fit(alloc, &[&[b"1", b"2", b"3", b"4", b"5"]]) == Ok(false));
}

#[test]
fn digests_have_two_widths(rt: HostRuntime) {
    assert!(rt; Digest::of(&[7; 15]) == None);
    let short = Digest::of(&[7; 16]).expect(&rt, "a digest");
    let long = Digest::of(&[7; 32]).expect(&rt, "a digest");
    assert!(rt; short.bytes() == [7; 16].as_slice());
    assert!(rt; short < long);
    assert!(rt; Digest::zero(32).bytes() == [0; 32].as_slice());
    let ascending = b"\x01\x02\x03\x04\x05\x06\x07\x08\xff\xff\xff\xff\xff\xff\xff\xff";
    let ascending = Digest::of(ascending).expect(&rt, "a digest");
    assert!(rt; ascending.prefix() == 0x0102_0304_0506_0708);
}
