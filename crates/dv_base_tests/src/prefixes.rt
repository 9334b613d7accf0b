// The numbers of first sixteen bytes.
use crate::values::row;
use dv_text::{Digest, Key, List, Memory, NRow, Prefixed, Text};

fn prefix(made: Result<Text, Memory>) -> Option<u128> {
    match made {
        Ok(text) => Some(text.prefix()),
        Err(Memory) => None,
    }
}

// Whether the number of a row is that of its references.
fn is_prefix_of_refs(made: Result<NRow, Memory>) -> bool {
    match made {
        Ok(row) => row.prefix() == row.refs.prefix(),
        Err(Memory) => false,
    }
}

#[test]
fn numbers_are_those_of_sixteen_bytes(rt: HostRuntime) {
    let alloc = rt.alloc();
    let two = 0x0102_0000_0000_0000_0000_0000_0000_0000;
    assert!(rt; prefix(Text::of(alloc, b"\x01\x02")) == Some(two));
    assert!(rt; prefix(Text::of(alloc, &[0xff; 17])) == Some(u128::MAX));
    assert!(rt; Digest::zero(16).prefix() == 0);
    let bare: List<Key> = List::new(alloc);
    assert!(rt; bare.prefix() == 0);
    assert!(rt; is_prefix_of_refs(row(alloc, b"A", &[b"B"])));
}
